//! Stores and sinks.
ghost use Rattle.std.specs.Prelude.{[], Some, None, if◌then◌else◌};

use plain_model::{Fault, Items, Text};
use std::alloc::Global;
use std::env;
use std::test::Fail;
use surgeon_store::{
    CreateFault, DiskStore, Failed, FileEntry, FileList, Made, MemorySink, MemoryStore, OpenFault,
    ReadEnd, Store, WriteEnd, WriteFault, read_file, write_all,
};

fn file(alloc: Global, name: &[u8], bytes: &[u8]) -> Result<FileEntry, Fail> {
    Ok(FileEntry {
        name: Items::of(alloc, name)?,
        bytes: Items::of(alloc, bytes)?,
    })
}

// The files `a`, twice, and `b`.
fn files(alloc: Global) -> Result<FileList, Fail> {
    let mut files = Items::new(alloc)?;
    files.push(file(alloc, b"a", b"first a")?)?;
    files.push(file(alloc, b"b", b"old b")?)?;
    files.push(file(alloc, b"a", b"second a")?)?;
    Ok(files)
}

fn is_text(text: Option<&Text>, bytes: &[u8]) -> bool {
    match text {
        Some(text) => text.as_slice() == bytes,
        None => false,
    }
}

// Which of six calls that read are refused. The last is read after a fault, which leaves nothing to be read.
fn refused_reads(store: &mut MemoryStore) -> [bool; 6] {
    let mut piece = [0u8; 3];
    [
        store.begin_read("a").is_err(),
        store.begin_read("a").is_err(),
        store.read(&mut piece) != Ok(3) || piece != *b"fir",
        store.read(&mut piece).is_err(),
        store.begin_write("b").is_err(),
        store.read(&mut piece) != Ok(0),
    ]
}

// Which of the next five are, which write.
fn refused_writes(store: &mut MemoryStore) -> [bool; 5] {
    if store.begin_write("b").is_err() {
        return [true; 5];
    }
    [
        false,
        store.write(b"new").is_err(),
        store.write(b" or not").is_err(),
        store.write(b" b").is_err(),
        store.finish_write(Made::Whole).is_err(),
    ]
}

#[test]
fn a_store_in_memory_fails_at_the_chosen_calls(rt: HostRuntime) -> Result<(), Fail> {
    let alloc = rt.alloc();
    let chosen = Items::of(alloc, &[9, 1, 4, 5, 11])?;
    let mut store = MemoryStore::new(alloc, files(alloc)?, chosen)?;
    assert_eq!(rt;
        refused_reads(&mut store),
        [true, false, false, true, true, false]
    );
    assert_eq!(rt;
        refused_writes(&mut store),
        [false, false, true, false, true]
    );
    assert!(rt; is_text(store.file("b"), b"new b"));
    assert_eq!(rt; store.begin_read("c"), Err(OpenFault::Absent));
    Ok(())
}

#[test]
fn output_in_memory_fails_at_the_chosen_call(rt: HostRuntime) -> Result<(), Fail> {
    let alloc = rt.alloc();
    let mut sink = MemorySink::new(alloc, Items::of(alloc, &[2])?)?;
    assert_eq!(rt; write_all(&mut sink, b"one"), Ok(()));
    assert_eq!(rt; write_all(&mut sink, b" two"), Err(WriteEnd::SinkFault));
    assert_eq!(rt; write_all(&mut sink, b" three"), Ok(()));
    assert!(rt; is_text(Some(sink.written()), b"one three"));
    Ok(())
}

// A folder is begun, and then it isn't read, and after the fault nothing is left to be read.
#[test]
fn a_folder_of_the_system_is_begun_and_not_read(rt: HostRuntime) -> Result<(), Fail> {
    let mut store = DiskStore::new(rt.alloc(), &rt);
    let folder = env::temp_dir(&rt)?;
    let mut piece = [0u8; 3];
    assert_eq!(rt; store.begin_read(folder.to_str().ok_or("no text")?), Ok(()));
    assert_eq!(rt; store.read(&mut piece), Err(Failed));
    assert_eq!(rt; store.read(&mut piece), Ok(0));
    Ok(())
}

// A store whose every file is endless: each call of `read` gives one byte more. It tells neither files nor
// bytes, and takes no byte itself.
#[derive(Drop)]
struct Endless {
    taken: u64,
    is_begun: bool,
}

impl Store for Endless {
    ghost state = { λ s. record { files = None; rest = None; writing = if s.is_begun then Some [] else None; read_faults = 0; write_faults = 0; misses = 0 } };

    fn begin_read(&mut self, _name: &str) -> Result<(), OpenFault> {
        Ok(())
    }

    fn read(&mut self, piece: &mut [u8]) -> Result<usize, Failed> {
        if piece.is_empty() {
            return Ok(0);
        }
        piece[0] = b'x';
        self.taken = self.taken.saturating_add(1);
        Ok(1)
    }

    fn begin_write(&mut self, _name: &str) -> Result<(), CreateFault> {
        self.is_begun = false;
        Err(CreateFault::Memory)
    }

    fn write(&mut self, _piece: &[u8]) -> Result<usize, WriteFault> {
        Err(WriteFault::Memory)
    }

    fn finish_write(&mut self, _made: Made) -> Result<(), Failed> {
        self.is_begun = false;
        Ok(())
    }

    ghost reports_rest = { λ _. tt };
}

#[test]
fn of_an_endless_file_one_byte_past_the_limit_is_taken(rt: HostRuntime) {
    let mut store = Endless {
        taken: 0,
        is_begun: false,
    };
    let read = read_file(rt.alloc(), &mut store, "endless", 5000);
    assert!(rt; matches!(read, Err(ReadEnd::Refused(Fault::TooLong { .. }))));
    assert_eq!(rt; store.taken, 5001);
}
