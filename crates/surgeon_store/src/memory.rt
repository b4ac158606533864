//! Files and output in memory that fail at chosen calls.
ghost use Rattle.std.specs.Prelude.{◌≡◌, ◌↔◌, [], IsTrue, IsSome, IsErr, IfOk, IsErrOf, refl};
ghost use Rattle.std.specs.Option.{option_copied};
ghost use Rattle.std.specs.FinMap.{get};
ghost use Rattle.surgeon_store.specs.Memory.{unopened};
ghost use Rattle.surgeon_store.specs.Failing.{
  Calls,
  FailingFiles,
  FailingBytes,
  calls_code,
  failing_files_code,
  failing_bytes_code,
  Counts,
  IsFailing,
  uncalled,
  failing_store_of,
  failing_sink_of,
};
ghost use Rattle.surgeon_store.specs.Promises.{
  PromisesBeginRead,
  PromisesRead,
  PromisesBeginWrite,
  PromisesWrite,
  PromisesFinishWrite,
  PromisesPut,
};

use crate::entry::FileList;
use crate::outside::{CreateFault, Failed, Made, OpenFault, Sink, Store, WriteFault};
use crate::sure::{SureSink, SureStore};
use plain_model::{NoMemory, NumberList, Text};
use std::alloc::Global;
use std::marker::Model;

// Calls, counted from 1 and no further than 2^64 - 1, and the numbers of those that are to fail.
#[derive(Drop)]
struct CallCounter {
    count: u64,
    failing: NumberList,
}

impl Model for CallCounter {
    ghost Value = { Calls };

    ghost coded = { calls_code };

    ghost view = { λ c. record { count = c.count; failing = c.failing } };
}

impl CallCounter {
    fn new(failing: NumberList) -> CallCounter
        ensures { result ≡ uncalled failing }
    {
        CallCounter { count: 0, failing }
    }

    // Counts a call, and answers whether it is to fail.
    fn counts_failing(&mut self) -> bool
        ensures counts { Counts self.old self.new }
        ensures failing { IsTrue result ↔ IsFailing self.new }
    {
        self.count = self.count.saturating_add(1);
        self.failing.as_slice().contains(&self.count)
    }
}

/// Files in memory, of which chosen calls answer `Failed` and do nothing else. All calls of the trait are
/// counted together, from 1; past 2^64 - 1 each has that number.
#[derive(Drop)]
pub struct MemoryStore {
    files: SureStore,
    calls: CallCounter,
    read_faults: u64,
    write_faults: u64,
}

impl Model for MemoryStore {
    ghost Value = { FailingFiles };

    ghost coded = { failing_files_code };

    ghost view = { λ s. record {
      memory = s.files;
      calls = s.calls;
      read_faults = s.read_faults;
      write_faults =
          s.write_faults;
    } };
}

impl MemoryStore {
    pub fn new(alloc: Global, files: FileList, failing: NumberList) -> Result<MemoryStore, NoMemory>
        ensures { IfOk result
            (λ store. store ≡ record {
              memory = unopened files;
              calls = uncalled failing;
              read_faults = 0;
              write_faults =
                  0;
            }) }
    {
        Ok(MemoryStore {
            files: SureStore::new(alloc, files)?,
            calls: CallCounter::new(failing),
            read_faults: 0,
            write_faults: 0,
        })
    }

    /// The bytes of a file, also of one that is being written. This is no call that is counted.
    pub fn file(&self, name: &str) -> Option<&Text>
        ensures { option_copied result ≡ get self.now.memory.files name.now }
    {
        self.files.file(name)
    }
}

impl Store for MemoryStore {
    ghost state = { failing_store_of };

    fn begin_read(&mut self, name: &str) -> Result<(), OpenFault>
        ensures store { PromisesBeginRead (failing_store_of self.old) name.now result
            (failing_store_of self.new) }
        ensures counts { Counts self.old.calls self.new.calls }
        ensures exactly { IsErrOf result OpenFault.Failed ↔ IsFailing self.new.calls }
    {
        if self.calls.counts_failing() {
            self.read_faults = self.read_faults.saturating_add(1);
            return Err(OpenFault::Failed);
        }
        self.files.begin_read(name)
    }

    fn read(&mut self, piece: &mut [u8]) -> Result<usize, Failed>
        ensures store { PromisesRead (failing_store_of self.old) result piece.new
            (failing_store_of self.new) }
        ensures counts { Counts self.old.calls self.new.calls }
        ensures exactly { IsErr result ↔ IsFailing self.new.calls }
    {
        if self.calls.counts_failing() {
            self.files.end_reading();
            self.read_faults = self.read_faults.saturating_add(1);
            return Err(Failed);
        }
        self.files.read(piece)
    }

    fn begin_write(&mut self, name: &str) -> Result<(), CreateFault>
        ensures store { PromisesBeginWrite (failing_store_of self.old) name.now result
            (failing_store_of self.new) }
        ensures counts { Counts self.old.calls self.new.calls }
        ensures exactly { IsErrOf result CreateFault.Failed ↔ IsFailing self.new.calls }
    {
        if self.calls.counts_failing() {
            self.files.end_writing();
            self.write_faults = self.write_faults.saturating_add(1);
            return Err(CreateFault::Failed);
        }
        self.files.begin_write(name)
    }

    fn write(&mut self, piece: &[u8]) -> Result<usize, WriteFault>
        requires { IsSome self.old.memory.writing }
        ensures store { PromisesWrite (failing_store_of self.old) piece.now result
            (failing_store_of self.new) }
        ensures counts { Counts self.old.calls self.new.calls }
        ensures exactly { IsErrOf result WriteFault.Failed ↔ IsFailing self.new.calls }
    {
        if self.calls.counts_failing() {
            self.write_faults = self.write_faults.saturating_add(1);
            return Err(WriteFault::Failed);
        }
        self.files.write(piece)
    }

    fn finish_write(&mut self, _made: Made) -> Result<(), Failed>
        ensures store { PromisesFinishWrite (failing_store_of self.old) result
            (failing_store_of self.new) }
        ensures counts { Counts self.old.calls self.new.calls }
        ensures exactly { IsErr result ↔ IsFailing self.new.calls }
    {
        self.files.end_writing();
        if self.calls.counts_failing() {
            self.write_faults = self.write_faults.saturating_add(1);
            return Err(Failed);
        }
        Ok(())
    }

    ghost reports_rest = { λ _. refl };
}

/// Output in memory, of which chosen calls answer `Failed` and take nothing. Calls are counted from 1; past
/// 2^64 - 1 each has that number.
#[derive(Drop)]
pub struct MemorySink {
    bytes: SureSink,
    calls: CallCounter,
    faults: u64,
}

impl Model for MemorySink {
    ghost Value = { FailingBytes };

    ghost coded = { failing_bytes_code };

    ghost view = { λ s. record { bytes = s.bytes; calls = s.calls; faults = s.faults } };
}

impl MemorySink {
    pub fn new(alloc: Global, failing: NumberList) -> Result<MemorySink, NoMemory>
        ensures { IfOk result
            (λ sink. sink ≡ record { bytes = []; calls = uncalled failing; faults = 0 }) }
    {
        Ok(MemorySink {
            bytes: SureSink::new(alloc)?,
            calls: CallCounter::new(failing),
            faults: 0,
        })
    }

    pub fn written(&self) -> &Text
        ensures { result.now ≡ self.now.bytes }
    {
        self.bytes.written()
    }
}

impl Sink for MemorySink {
    ghost state = { failing_sink_of };

    fn write(&mut self, piece: &[u8]) -> Result<usize, WriteFault>
        ensures sink { PromisesPut (failing_sink_of self.old) piece.now result
            (failing_sink_of self.new) }
        ensures counts { Counts self.old.calls self.new.calls }
        ensures exactly { IsErrOf result WriteFault.Failed ↔ IsFailing self.new.calls }
    {
        if self.calls.counts_failing() {
            self.faults = self.faults.saturating_add(1);
            return Err(WriteFault::Failed);
        }
        self.bytes.write(piece)
    }
}
