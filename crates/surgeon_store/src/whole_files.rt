//! Whole files: all bytes of one, the first of them, or one that is made of what is sent to it.
ghost use Rattle.std.specs.Prelude.{
  ◌≡◌,
  ◌+◌,
  ◌<◌,
  ◌≤◌,
  ◌^◌,
  IfOk,
  IfSome,
  IsErrOf,
  IsSome,
  None,
  OnErr,
  OnOk,
  Some,
  Err,
  drop,
  length,
  take,
};
ghost use Rattle.std.specs.FinMap.{get, insert};
ghost use Rattle.plain_model.specs.Counts.{Rose};
ghost use Rattle.surgeon_store.specs.Outside.{CountsNoFault, Misses, Opens, Reads, Writes, beside_of};
ghost use Rattle.surgeon_store.specs.WholeFiles.{
  Grows,
  GrowsSome,
  IsFileFault,
  IsQuiet,
  LeavesAfter,
  PartWritten,
  ReturnsOrBreaks,
  file_within,
  front_of,
  read_end_of,
};
ghost use Rattle.surgeon_store.specs.declared.whole_files.ReadEnd.TheVariants as ended;

use crate::output::Output;
use crate::outside::{CreateFault, Failed, Made, OpenFault, Store};
use crate::store_sink::StoreSink;
use crate::writing::WriteEnd;
use plain_model::{Fault, Halt, Items, NoMemory, Text};
use std::alloc::Global;

/// Why a call that reads has no value.
#[derive(Drop)]
pub enum ReadEnd {
    /// What is asked for is refused.
    Refused(Fault),
    /// Reading failed.
    SourceFault,
    Memory,
}

impl From<NoMemory> for ReadEnd {
    ghost from_gives = { λ _ end. end ≡ ended.Memory };

    fn from(_error: NoMemory) -> ReadEnd {
        ReadEnd::Memory
    }
}

impl From<Halt> for ReadEnd {
    ghost from_gives = { λ halt end. end ≡ read_end_of halt };

    fn from(halt: Halt) -> ReadEnd {
        match halt {
            Halt::Refused(fault) => ReadEnd::Refused(fault),
            Halt::Memory => ReadEnd::Memory,
        }
    }
}

/// Begins to read a file, which is there, from its first byte.
pub fn open_file<S: Store>(alloc: Global, store: &mut S, name: &str) -> Result<(), ReadEnd>
    ensures opens { OnOk result (Opens (S.state store.old) name.now (S.state store.new)) }
    ensures absent { (fault : Fault) → result ≡ Err (ReadEnd.Refused fault)
        → (fault ≡ Fault.Absent name.now) × Misses (S.state store.old) name.now }
    ensures missed { (fault : Fault) → result ≡ Err (ReadEnd.Refused fault)
        → Rose (S.state store.old).misses (S.state store.new).misses }
    ensures failed { IsErrOf result ReadEnd.SourceFault
        → Rose (S.state store.old).read_faults (S.state store.new).read_faults }
    ensures quiet { IsQuiet result (S.state store.old) (S.state store.new) }
    ensures frame { Reads (S.state store.old) (S.state store.new) }
{
    match store.begin_read(name) {
        Ok(()) => Ok(()),
        Err(OpenFault::Absent) => Err(ReadEnd::Refused(Fault::Absent {
            name: Items::of(alloc, name.as_bytes())?,
        })),
        Err(OpenFault::Failed) => Err(ReadEnd::SourceFault),
        Err(OpenFault::Memory) => Err(ReadEnd::Memory),
    }
}

// What is left of the file that is read, up to so many bytes; no more of it is taken.
fn rest_up_to<S: Store>(alloc: Global, store: &mut S, most: u64) -> Result<Text, ReadEnd>
    ensures found { IfOk result
        (λ text. IfSome (S.state store.old).rest (λ rest. text ≡ take most rest)) }
    ensures within { IfOk result (λ text. length text ≤ most) }
    ensures taken { IfOk result
        (λ _. IfSome (S.state store.old).rest
        (λ rest. (S.state store.new).rest ≡ Some (drop most rest))) }
    ensures failed { IsErrOf result ReadEnd.SourceFault
        → Rose (S.state store.old).read_faults (S.state store.new).read_faults }
    ensures quiet { IsQuiet result (S.state store.old) (S.state store.new) }
    ensures never_refused { (fault : Fault) → result ≡ Err (ReadEnd.Refused fault) → ⊥ }
    ensures frame { Reads (S.state store.old) (S.state store.new) }
{
    let mut text = Items::new(alloc)?;
    let mut piece = [0u8; 4096];
    // Each piece has a byte or more, so there are no more of them than bytes.
    for _ in 0..most {
        let room = (most - text.as_slice().len() as u64).min(4096) as usize;
        match store.read(&mut piece[..room]) {
            Ok(0) => return Ok(text),
            Ok(count) => text.push_all(&piece[..count])?,
            Err(Failed) => return Err(ReadEnd::SourceFault),
        }
    }
    Ok(text)
}

/// The first bytes of a file which is there, as many as asked for or all. No more of it is taken.
pub fn read_front<S: Store>(
    alloc: Global,
    store: &mut S,
    name: &str,
    most: u64,
) -> Result<Text, ReadEnd>
    ensures returns { IfSome (S.state store.old).files
        (λ files. ReturnsOrBreaks (λ text. text) result (front_of files name.now most)) }
    ensures within { IfOk result (λ text. length text ≤ most) }
    ensures absent { (fault : Fault) → result ≡ Err (ReadEnd.Refused fault)
        → fault ≡ Fault.Absent name.now }
    ensures taken { IfSome (S.state store.old).files
        (λ files. IfSome (get files name.now)
        (λ bytes. LeavesAfter most bytes result (S.state store.new))) }
    ensures missed { (name : _) → result ≡ Err (ReadEnd.Refused (Fault.Absent name))
        → Rose (S.state store.old).misses (S.state store.new).misses }
    ensures failed { IsErrOf result ReadEnd.SourceFault
        → Rose (S.state store.old).read_faults (S.state store.new).read_faults }
    ensures quiet { IsQuiet result (S.state store.old) (S.state store.new) }
    ensures frame { Reads (S.state store.old) (S.state store.new) }
{
    open_file(alloc, store, name)?;
    rest_up_to(alloc, store, most)
}

/// All the bytes of a file, which is there and within a limit.
pub fn read_file<S: Store>(
    alloc: Global,
    store: &mut S,
    name: &str,
    limit: u64,
) -> Result<Text, ReadEnd>
    requires { limit < 2 ^ 63 }
    ensures returns { IfSome (S.state store.old).files
        (λ files. ReturnsOrBreaks (λ text. text) result (file_within files name.now limit)) }
    ensures within { IfOk result (λ text. length text ≤ limit) }
    ensures causes { (fault : Fault) → result ≡ Err (ReadEnd.Refused fault)
        → IsFileFault name.now limit fault }
    ensures taken { IfSome (S.state store.old).files
        (λ files. IfSome (get files name.now)
        (λ bytes. LeavesAfter (limit + 1) bytes result (S.state store.new))) }
    ensures missed { (name : _) → result ≡ Err (ReadEnd.Refused (Fault.Absent name))
        → Rose (S.state store.old).misses (S.state store.new).misses }
    ensures failed { IsErrOf result ReadEnd.SourceFault
        → Rose (S.state store.old).read_faults (S.state store.new).read_faults }
    ensures quiet { IsQuiet result (S.state store.old) (S.state store.new) }
    ensures frame { Reads (S.state store.old) (S.state store.new) }
{
    let text = match read_front(alloc, store, name, limit + 1) {
        Ok(text) => text,
        Err(end) => return Err(end),
    };
    if text.as_slice().len() as u64 > limit {
        return Err(ReadEnd::Refused(Fault::TooLong {
            name: Items::of(alloc, name.as_bytes())?,
            limit,
        }));
    }
    Ok(text)
}

// Sends all of the bytes into the file that is begun.
fn write_begun<S: Store, B: Output>(store: &mut S, output: &B) -> Result<(), WriteEnd>
    requires { IsSome (S.state store.old).writing }
    ensures ok { OnOk result (Grows (S.state store.old) (B.bytes output.now) (S.state store.new)) }
    ensures part { GrowsSome (S.state store.old) (B.bytes output.now) (S.state store.new) }
    ensures beside { beside_of (S.state store.new) ≡ beside_of (S.state store.old) }
    ensures writing { (S.state store.new).writing ≡ (S.state store.old).writing }
    ensures read_faults { (S.state store.new).read_faults ≡ (S.state store.old).read_faults }
    ensures misses { (S.state store.new).misses ≡ (S.state store.old).misses }
    ensures later { (S.state store.old).write_faults ≤ (S.state store.new).write_faults }
    ensures failed { IsErrOf result WriteEnd.SinkFault
        → Rose (S.state store.old).write_faults (S.state store.new).write_faults }
    ensures quiet { OnOk result (CountsNoFault (S.state store.old) (S.state store.new)) }
{
    let mut sink = StoreSink::new(store);
    output.send(&mut sink)
}

// Ends the writing of a file that has all of its bytes.
fn end_whole<S: Store>(store: &mut S) -> Result<(), WriteEnd>
    ensures ends { (S.state store.new).writing ≡ None }
    ensures files { (S.state store.new).files ≡ (S.state store.old).files }
    ensures failed { OnErr result
        (Rose (S.state store.old).write_faults (S.state store.new).write_faults) }
    ensures quiet { OnOk result (CountsNoFault (S.state store.old) (S.state store.new)) }
    ensures frame { Writes (S.state store.old) (S.state store.new) }
{
    match store.finish_write(Made::Whole) {
        Ok(()) => Ok(()),
        Err(Failed) => Err(WriteEnd::SinkFault),
    }
}

/// Makes a file that has the bytes. After a fault or out of memory it may have a first part of them, or be as it was.
/// Whatever happens, no file is left begun.
pub fn write_file<S: Store, B: Output>(
    store: &mut S,
    name: &str,
    output: &B,
) -> Result<(), WriteEnd>
    ensures ok { OnOk result
        (IfSome (S.state store.old).files
        (λ files. (S.state store.new).files ≡ Some (insert files name.now (B.bytes output.now)))) }
    ensures part { OnErr result
        (IfSome (S.state store.old).files
        (λ files. PartWritten name.now (B.bytes output.now) files (S.state store.new).files)) }
    ensures failed { IsErrOf result WriteEnd.SinkFault
        → Rose (S.state store.old).write_faults (S.state store.new).write_faults }
    ensures quiet { OnOk result (CountsNoFault (S.state store.old) (S.state store.new)) }
    ensures finished { (S.state store.new).writing ≡ None }
    ensures frame { Writes (S.state store.old) (S.state store.new) }
{
    match store.begin_write(name) {
        Ok(()) => {}
        Err(CreateFault::Failed) => return Err(WriteEnd::SinkFault),
        Err(CreateFault::Memory) => return Err(WriteEnd::Memory),
    }
    match write_begun(store, output) {
        Ok(()) => end_whole(store),
        Err(end) => {
            // Why a part is all there is has been said.
            let _ = store.finish_write(Made::Part);
            Err(end)
        }
    }
}
