//! Files and output in memory. Nothing goes wrong with them but out of memory.
ghost use Rattle.std.specs.Prelude.{
  ◌≡◌,
  [],
  ◌∷◌,
  ◌++◌,
  ◌≤◌,
  ◌≢◌,
  Some,
  None,
  IsTrue,
  IfOk,
  OnOk,
  OnErr,
  length,
  drop,
  refl,
};
ghost use Rattle.std.specs.Option.{option_copied};
ghost use Rattle.std.specs.FinMap.{get, insert};
ghost use Rattle.surgeon_store.specs.Entries.{files_of, grown, lookup};
ghost use Rattle.surgeon_store.specs.Memory.{
  FilesInMemory,
  memory_code,
  unopened,
  store_of,
  output_of,
  begun_name,
};

use crate::entry::{FileEntry, FileList};
use crate::outside::{CreateFault, Failed, Made, OpenFault, Sink, Store, WriteFault};
use plain_model::{Items, NoMemory, Text};
use std::alloc::Global;
use std::marker::Model;

/// Files in memory. Of a file that is begun anew the older bytes stay in memory, after the newer.
#[derive(Drop)]
pub struct SureStore {
    alloc: Global,
    given: FileList,
    // The files that were begun for writing, the latest first; they count before those that were given.
    made: Vec<FileEntry>,
    // Whether the first of them is being written.
    is_begun: bool,
    // The file that is read, of which the bytes before a place were taken.
    current: Text,
    taken: usize,
    misses: u64,
}

impl Model for SureStore {
    ghost Value = { FilesInMemory };

    ghost coded = { memory_code };

    ghost view = { λ s. record {
      files = files_of (s.made.items ++ s.given);
      rest = drop s.taken s.current;
      writing =
          begun_name s.is_begun s.made.items;
      misses = s.misses;
    } };

    ghost invariant = { λ s. (s.taken ≤ length s.current)
        × (IsTrue s.is_begun → s.made.items ≢ []) };
}

fn found<'a>(files: &'a [FileEntry], name: &[u8]) -> Option<&'a Text>
    ensures { option_copied result ≡ lookup name.now files.now }
{
    for file in files {
        if name == file.name.as_slice() {
            return Some(&file.bytes);
        }
    }
    None
}

fn new_file(alloc: Global, name: &[u8]) -> Result<FileEntry, NoMemory>
    ensures { IfOk result (λ file. (file.name ≡ name.now) × (file.bytes ≡ [])) }
{
    let name = Items::of(alloc, name)?;
    Ok(FileEntry {
        name,
        bytes: Items::empty(alloc),
    })
}

fn put_first(files: &mut Vec<FileEntry>, file: FileEntry) -> Result<(), NoMemory>
    ensures ok { OnOk result (files.new.items ≡ file ∷ files.old.items) }
    ensures err { OnErr result (files.new.items ≡ files.old.items) }
{
    files.insert(0, file)?;
    Ok(())
}

// Puts bytes at the end of the first file.
fn grow_first(files: &mut Vec<FileEntry>, bytes: &[u8]) -> Result<(), NoMemory>
    requires { files.old.items ≢ [] }
    ensures ok { OnOk result (files.new.items ≡ grown bytes.now files.old.items) }
    ensures err { OnErr result (files.new.items ≡ files.old.items) }
{
    files[0].bytes.push_all(bytes)
}

impl SureStore {
    pub fn new(alloc: Global, files: FileList) -> Result<SureStore, NoMemory>
        ensures { IfOk result (λ store. store ≡ unopened files) }
    {
        Ok(SureStore {
            alloc,
            given: files,
            made: Vec::new(alloc),
            is_begun: false,
            current: Items::new(alloc)?,
            taken: 0,
            misses: 0,
        })
    }

    /// The bytes of a file, also of one that is being written.
    #[tactic(auto, using(crate::proofs::EntryLemmas::get_file, crate::proofs::EntryLemmas::lookup_append),)]
    pub fn file(&self, name: &str) -> Option<&Text>
        ensures { option_copied result ≡ get self.now.files name.now }
    {
        match found(self.made.as_slice(), name.as_bytes()) {
            Some(bytes) => Some(bytes),
            None => found(self.given.as_slice(), name.as_bytes()),
        }
    }
}

impl SureStore {
    // Leaves nothing of the file that is read.
    pub(crate) fn end_reading(&mut self)
        ensures { self.new ≡ record {
          files = self.old.files;
          rest = [];
          writing = self.old.writing;
          misses =
              self.old.misses;
        } }
    {
        self.taken = self.current.as_slice().len();
    }

    // Ends the writing of a file.
    pub(crate) fn end_writing(&mut self)
        ensures { self.new ≡ record {
          files = self.old.files;
          rest = self.old.rest;
          writing = None;
          misses =
              self.old.misses;
        } }
    {
        self.is_begun = false;
    }
}

impl Store for SureStore {
    ghost state = { λ store. store_of store 0 0 };

    fn begin_read(&mut self, name: &str) -> Result<(), OpenFault> {
        match self.file(name) {
            None => {
                self.misses = self.misses.saturating_add(1);
                Err(OpenFault::Absent)
            }
            Some(bytes) => match bytes.copy() {
                Ok(bytes) => {
                    self.current = bytes;
                    self.taken = 0;
                    Ok(())
                }
                Err(NoMemory) => Err(OpenFault::Memory),
            },
        }
    }

    fn read(&mut self, piece: &mut [u8]) -> Result<usize, Failed> {
        let left = &self.current.as_slice()[self.taken..];
        let count = piece.len().min(left.len());
        piece[..count].copy_from_slice(&left[..count]);
        self.taken += count;
        Ok(count)
    }

    fn begin_write(&mut self, name: &str) -> Result<(), CreateFault> {
        self.end_writing();
        let Ok(file) = new_file(self.alloc, name.as_bytes()) else {
            return Err(CreateFault::Memory);
        };
        match put_first(&mut self.made, file) {
            Ok(()) => {
                self.is_begun = true;
                Ok(())
            }
            Err(NoMemory) => Err(CreateFault::Memory),
        }
    }

    #[tactic(auto, using(crate::proofs::EntryLemmas::begun_grown))]
    fn write(&mut self, piece: &[u8]) -> Result<usize, WriteFault> {
        match grow_first(&mut self.made, piece) {
            Ok(()) => Ok(piece.len()),
            Err(NoMemory) => Err(WriteFault::Memory),
        }
    }

    fn finish_write(&mut self, _made: Made) -> Result<(), Failed> {
        self.end_writing();
        Ok(())
    }

    ghost reports_rest = { λ _. refl };
}

/// Output in memory.
#[derive(Drop)]
pub struct SureSink {
    bytes: Text,
}

impl Model for SureSink {
    ghost use Rattle.std.specs.Prelude.{List, ℕ};

    ghost Value = { List ℕ };

    ghost view = { λ s. s.bytes };
}

impl SureSink {
    pub fn new(alloc: Global) -> Result<SureSink, NoMemory>
        ensures { IfOk result (λ sink. sink ≡ []) }
    {
        Ok(SureSink {
            bytes: Items::new(alloc)?,
        })
    }

    pub fn written(&self) -> &Text
        ensures { result.now ≡ self.now }
    {
        &self.bytes
    }
}

impl Sink for SureSink {
    ghost state = { λ sink. output_of sink 0 };

    fn write(&mut self, piece: &[u8]) -> Result<usize, WriteFault> {
        match self.bytes.push_all(piece) {
            Ok(()) => Ok(piece.len()),
            Err(NoMemory) => Err(WriteFault::Memory),
        }
    }
}
