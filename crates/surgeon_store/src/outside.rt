//! What a store of files and a sink of bytes promise, whatever they are on.
ghost use Rattle.std.specs.Prelude.{
  ◌≡◌,
  ◌≤◌,
  ◌<◌,
  length,
  take,
  None,
  IsSome,
  IfOk,
  OnOk,
  OnErr,
  IsErrOf,
};
ghost use Rattle.plain_model.specs.Counts.{Rose};
ghost use Rattle.surgeon_store.specs.Outside.{
  StoreState,
  SinkState,
  TellsRest,
  CountsNoFault,
  Reads,
  Writes,
  Opens,
  Misses,
  Takes,
  IsSpent,
  Begins,
  Appends,
  Puts,
};

/// A fault of the outside.
#[derive(Clone, Copy, Debug, PartialEq, Eq)]
pub struct Failed;

/// Why no file is begun for reading. Only 'no such file' is `Absent`.
#[derive(Clone, Copy, Debug, PartialEq, Eq)]
pub enum OpenFault {
    Absent,
    Failed,
    Memory,
}

/// Why no file is begun for writing.
#[derive(Clone, Copy, Debug, PartialEq, Eq)]
pub enum CreateFault {
    Failed,
    Memory,
}

/// Why no byte is written.
#[derive(Clone, Copy, Debug, PartialEq, Eq)]
pub enum WriteFault {
    Failed,
    Memory,
}

/// What was put into a file whose writing ends.
#[derive(Clone, Copy, Debug, PartialEq, Eq)]
pub enum Made {
    Whole,
    Part,
}

/// Files by their names, of which one is read and one written at a time. Each fault and each miss raises a
/// count, which stops at 2^64 - 1. (own)
pub trait Store {
    ghost state: { Self → StoreState };

    /// Begins to read a file, from its first byte.
    fn begin_read(&mut self, name: &str) -> Result<(), OpenFault>
        ensures opens { OnOk result (Opens (state self.old) name.now (state self.new)) }
        ensures absent { IsErrOf result OpenFault.Absent → Misses (state self.old) name.now }
        ensures missed { IsErrOf result OpenFault.Absent
            → Rose (state self.old).misses (state self.new).misses }
        ensures failed { IsErrOf result OpenFault.Failed
            → Rose (state self.old).read_faults (state self.new).read_faults }
        ensures quiet { ¬ (IsErrOf result OpenFault.Failed)
            → CountsNoFault (state self.old) (state self.new) }
        ensures frame { Reads (state self.old) (state self.new) };

    /// Moves bytes from the front of what is left of the file to the front of the piece, and answers how
    /// many; 0 for a piece with room is the end. Before any `begin_read` nothing is left.
    fn read(&mut self, piece: &mut [u8]) -> Result<usize, Failed>
        ensures bound { IfOk result (λ n. n ≤ length piece.new) }
        ensures takes { IfOk result (λ n. Takes (state self.old) n piece.new (state self.new)) }
        ensures failed { OnErr result
            (Rose (state self.old).read_faults (state self.new).read_faults) }
        ensures spent { OnErr result (IsSpent (state self.new)) }
        ensures quiet { OnOk result (CountsNoFault (state self.old) (state self.new)) }
        ensures frame { Reads (state self.old) (state self.new) };

    /// Makes a file empty and begins to write it. A file that was being written gets no more bytes.
    fn begin_write(&mut self, name: &str) -> Result<(), CreateFault>
        ensures begins { OnOk result (Begins (state self.old) name.now (state self.new)) }
        ensures refused { OnErr result
            (((state self.new).files ≡ (state self.old).files)
            × ((state self.new).writing ≡ None)) }
        ensures failed { IsErrOf result CreateFault.Failed
            → Rose (state self.old).write_faults (state self.new).write_faults }
        ensures quiet { OnOk result (CountsNoFault (state self.old) (state self.new)) }
        ensures frame { Writes (state self.old) (state self.new) };

    /// Puts the first bytes of the piece at the end of the file that is written, and answers how many.
    fn write(&mut self, piece: &[u8]) -> Result<usize, WriteFault>
        requires { IsSome (state self.old).writing }
        ensures bound { IfOk result (λ n. (n ≤ length piece.now) × (0 < length piece.now → 1 ≤ n)) }
        ensures appends { IfOk result
            (λ n. Appends (state self.old) (take n piece.now) (state self.new)) }
        ensures writing { (state self.new).writing ≡ (state self.old).writing }
        ensures refused { OnErr result ((state self.new).files ≡ (state self.old).files) }
        ensures failed { IsErrOf result WriteFault.Failed
            → Rose (state self.old).write_faults (state self.new).write_faults }
        ensures quiet { OnOk result (CountsNoFault (state self.old) (state self.new)) }
        ensures frame { Writes (state self.old) (state self.new) };

    /// Ends the writing of a file. Where only a part of it was put, a store that can leaves what was there before. Refused
    /// or not, none is written afterwards.
    fn finish_write(&mut self, made: Made) -> Result<(), Failed>
        ensures ends { (state self.new).writing ≡ None }
        ensures files { (state self.new).files ≡ (state self.old).files }
        ensures failed { OnErr result
            (Rose (state self.old).write_faults (state self.new).write_faults) }
        ensures quiet { OnOk result (CountsNoFault (state self.old) (state self.new)) }
        ensures frame { Writes (state self.old) (state self.new) };

    // What is left of the file that is read is reported by every store that tells its files.
    ghost reports_rest: { (store : Self) → TellsRest (state store) };
}

/// What takes output. Each fault raises a count, which stops at 2^64 - 1. (own)
pub trait Sink {
    ghost state: { Self → SinkState };

    /// Puts the first bytes of the piece at the end of what is written, and answers how many.
    fn write(&mut self, piece: &[u8]) -> Result<usize, WriteFault>
        ensures bound { IfOk result (λ n. (n ≤ length piece.now) × (0 < length piece.now → 1 ≤ n)) }
        ensures appends { IfOk result
            (λ n. Puts (state self.old) (take n piece.now) (state self.new)) }
        ensures refused { OnErr result ((state self.new).written ≡ (state self.old).written) }
        ensures later { (state self.old).faults ≤ (state self.new).faults }
        ensures failed { IsErrOf result WriteFault.Failed
            → Rose (state self.old).faults (state self.new).faults }
        ensures quiet { OnOk result ((state self.new).faults ≡ (state self.old).faults) }
        ensures around { (state self.new).around ≡ (state self.old).around };
}
