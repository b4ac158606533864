//! The files of the system and its standard output. Nothing is reported of their bytes, so this module is
//! trusted where the others are proved.
ghost use Rattle.std.specs.Prelude.{◌≡◌, ◌≤◌, ◌<◌, length, None, IfOk, IsTrue, OnOk, is_some};
ghost use Rattle.plain_model.specs.Counts.{Rose};
ghost use Rattle.surgeon_store.specs.Outside.{alone};
ghost use Rattle.surgeon_store.specs.Promises.{PromisesBeginRead};
ghost use Rattle.surgeon_store.specs.Disk.{DiskState, untouched, disk_store_of};

use crate::outside::{CreateFault, Failed, Made, OpenFault, Sink, Store, WriteFault};
use crate::target::{MAX_TURNS, Target, write_some};
use crate::trouble::{Doing, Trouble};
use plain_model::{Items, NoMemory, Text};
use std::alloc::Global;
use std::io::{ErrorKind, Read};
use std::marker::Model;
use std::rt::Files;
use std::{fs, io};

fn raise(count: &mut u64)
    ensures risen { Rose count.old count.new }
    ensures later { count.old ≤ count.new }
{
    *count = count.saturating_add(1);
}

// Reads into the piece, again where a signal interrupts.
fn read_some<R: Read>(reader: &mut R, piece: &mut [u8]) -> io::Result<usize>
    ensures { IfOk result (λ n. n ≤ length piece.new) }
{
    for _ in 0..MAX_TURNS {
        match reader.read(piece) {
            Err(error) if error.kind() == ErrorKind::Interrupted => {}
            answer => return answer,
        }
    }
    Err(io::Error::from(ErrorKind::Interrupted))
}

// A copy of a name, if there is one and memory for it.
fn name_if_kept(name: &Option<Text>) -> Option<Text> {
    match name {
        Some(name) => name.copy().ok(),
        None => None,
    }
}

// Whether an error is that there is no memory.
fn is_memory(error: &io::Error) -> bool {
    error.kind() == ErrorKind::OutOfMemory
}

/// The files of the system, by their paths. A folder can be begun and then not be read.
#[derive(Drop)]
pub struct DiskStore<'a, R: Files> {
    alloc: Global,
    rt: &'a R,
    reading: Option<R::File>,
    // The name of the file that is read, where there was memory to keep it.
    reading_name: Option<Text>,
    target: Option<Target<R::File>>,
    // The name of the target.
    writing: Option<Text>,
    // What failed last, for who runs the program; no contract speaks of it.
    trouble: Option<Trouble>,
    read_faults: u64,
    write_faults: u64,
    misses: u64,
}

impl<'a, R: Files> Model for DiskStore<'a, R> {
    ghost Value = { DiskState };

    ghost view = { λ s. record {
      is_reading = is_some s.reading;
      writing = s.writing;
      read_faults = s.read_faults;
      write_faults = s.write_faults;
      misses = s.misses;
    } };
}

impl<'a, R: Files> DiskStore<'a, R> {
    pub fn new(alloc: Global, rt: &'a R) -> DiskStore<'a, R>
        ensures { result ≡ untouched }
    {
        DiskStore {
            alloc,
            rt,
            reading: None,
            reading_name: None,
            target: None,
            writing: None,
            trouble: None,
            read_faults: 0,
            write_faults: 0,
            misses: 0,
        }
    }

    /// The last call of the system that failed; a file that is missing is no such failure.
    pub fn trouble(&self) -> Option<&Trouble> {
        self.trouble.as_ref()
    }

    // The file that is written is in its place, where it is whole; none is written then.
    fn let_go(&mut self, made: Made) -> io::Result<()>
        ensures { self.new ≡ self.old }
    {
        match self.target.take() {
            Some(target) => target.finish(self.rt, made),
            None => Ok(()),
        }
    }
}

impl<'a, R: Files> Store for DiskStore<'a, R> {
    ghost state = { disk_store_of };

    ghost reports_rest = { λ _. tt };

    fn begin_read(&mut self, name: &str) -> Result<(), OpenFault>
        ensures store { PromisesBeginRead (disk_store_of self.old) name.now result
            (disk_store_of self.new) }
        ensures begun { OnOk result (IsTrue self.new.is_reading) }
    {
        self.reading = None;
        match fs::open(self.rt, name) {
            Ok(file) => {
                self.reading = Some(file);
                self.reading_name = Items::of(self.alloc, name.as_bytes()).ok();
                Ok(())
            }
            Err(error) => match error.kind() {
                ErrorKind::NotFound => {
                    raise(&mut self.misses);
                    Err(OpenFault::Absent)
                }
                ErrorKind::OutOfMemory => Err(OpenFault::Memory),
                _ => {
                    raise(&mut self.read_faults);
                    self.trouble = Some(Trouble {
                        doing: Doing::Reading,
                        name: Items::of(self.alloc, name.as_bytes()).ok(),
                        reason: error,
                    });
                    Err(OpenFault::Failed)
                }
            },
        }
    }

    fn read(&mut self, piece: &mut [u8]) -> Result<usize, Failed> {
        let Some(file) = &mut self.reading else {
            return Ok(0);
        };
        match read_some(file, piece) {
            Ok(count) => Ok(count),
            Err(error) => {
                self.reading = None;
                raise(&mut self.read_faults);
                self.trouble = Some(Trouble {
                    doing: Doing::Reading,
                    name: self.reading_name.take(),
                    reason: error,
                });
                Err(Failed)
            }
        }
    }

    fn begin_write(&mut self, name: &str) -> Result<(), CreateFault> {
        self.writing = None;
        let _ = self.let_go(Made::Part);
        let kept = match Items::of(self.alloc, name.as_bytes()) {
            Ok(kept) => kept,
            Err(NoMemory) => return Err(CreateFault::Memory),
        };
        match Target::begin(self.alloc, self.rt, name) {
            Ok(target) => {
                self.target = Some(target);
                self.writing = Some(kept);
                Ok(())
            }
            Err(error) if is_memory(&error) => Err(CreateFault::Memory),
            Err(error) => {
                raise(&mut self.write_faults);
                self.trouble = Some(Trouble {
                    doing: Doing::Writing,
                    name: Some(kept),
                    reason: error,
                });
                Err(CreateFault::Failed)
            }
        }
    }

    fn write(&mut self, piece: &[u8]) -> Result<usize, WriteFault> {
        let answer = match &mut self.target {
            Some(target) => target.write(piece),
            None => Err(io::Error::from(ErrorKind::WriteZero)),
        };
        match answer {
            Ok(count) => Ok(count),
            Err(error) if is_memory(&error) => Err(WriteFault::Memory),
            Err(error) => {
                raise(&mut self.write_faults);
                self.trouble = Some(Trouble {
                    doing: Doing::Writing,
                    name: name_if_kept(&self.writing),
                    reason: error,
                });
                Err(WriteFault::Failed)
            }
        }
    }

    fn finish_write(&mut self, made: Made) -> Result<(), Failed> {
        let name = self.writing.take();
        match self.let_go(made) {
            Ok(()) => Ok(()),
            Err(error) => {
                raise(&mut self.write_faults);
                self.trouble = Some(Trouble {
                    doing: Doing::Writing,
                    name,
                    reason: error,
                });
                Err(Failed)
            }
        }
    }
}

/// Standard output.
#[derive(Drop)]
pub struct StdSink<'a, R: Print> {
    rt: &'a R,
    faults: u64,
    // What failed last, for who runs the program; no contract speaks of it.
    trouble: Option<Trouble>,
}

impl<'a, R: Print> Model for StdSink<'a, R> {
    ghost use Rattle.std.specs.Prelude.{ℕ};

    ghost Value = { ℕ };

    ghost view = { λ s. s.faults };
}

impl<'a, R: Print> StdSink<'a, R> {
    pub fn new(rt: &'a R) -> StdSink<'a, R>
        ensures { result ≡ 0 }
    {
        StdSink {
            rt,
            faults: 0,
            trouble: None,
        }
    }

    /// The last write that failed.
    pub fn trouble(&self) -> Option<&Trouble> {
        self.trouble.as_ref()
    }
}

impl<'a, R: Print> Sink for StdSink<'a, R> {
    ghost state = { λ faults. record { written = None; faults = faults; around = alone } };

    fn write(&mut self, piece: &[u8]) -> Result<usize, WriteFault> {
        match write_some(&mut io::writer(self.rt), piece) {
            Ok(count) => Ok(count),
            Err(error) if is_memory(&error) => Err(WriteFault::Memory),
            Err(error) => {
                raise(&mut self.faults);
                self.trouble = Some(Trouble {
                    doing: Doing::Printing,
                    name: None,
                    reason: error,
                });
                Err(WriteFault::Failed)
            }
        }
    }
}
