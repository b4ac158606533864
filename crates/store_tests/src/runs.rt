//! Runs in which a call of the store or of the output fails.
use byte_patterns::RegexPatterns;
use plain_model::{Items, Status};
use std::alloc::Global;
use std::test::Fail;
use surgeon_cli::surgeon;
use surgeon_store::{FileEntry, FileList, MemorySink, MemoryStore};

const STREAM: &[u8] = b"commit b
mark :1
committer A <a@x> 100 +0000
data 2
c1
deleteall
";

const WRITTEN: &[u8] = b"commit b
mark :1
author A <a@x> 100 +0000
committer A <a@x> 100 +0000
data 2
c1
deleteall

";

fn entry(alloc: Global, name: &[u8], bytes: &[u8]) -> Result<FileEntry, Fail> {
    Ok(FileEntry {
        name: Items::of(alloc, name)?,
        bytes: Items::of(alloc, bytes)?,
    })
}

// The script `s`, and the stream `a.fi`.
fn files(alloc: Global, script: &[u8]) -> Result<FileList, Fail> {
    let mut files = Items::new(alloc)?;
    files.push(entry(alloc, b"s", script)?)?;
    files.push(entry(alloc, b"a.fi", STREAM)?)?;
    Ok(files)
}

fn words(alloc: Global, given: &[&str]) -> Result<Vec<String>, Fail> {
    let mut words = Vec::new(alloc);
    words.push(String::from_str(alloc, "surgeon")?)?;
    for word in given {
        words.push(String::from_str(alloc, word)?)?;
    }
    Ok(words)
}

// How a run ends.
fn run(
    alloc: Global,
    given: &[&str],
    store: &mut MemoryStore,
    out: &mut MemorySink,
) -> Result<Status, Fail> {
    let words = words(alloc, given)?;
    let mut patterns = RegexPatterns::new(alloc, 0);
    Ok(surgeon(alloc, &words, store, out, &mut patterns))
}

// How a run ends of which a call of the store fails, and whether `b.fi` has these bytes then, or isn't there.
fn run_failing(
    alloc: Global,
    failing: u64,
    written: Option<&[u8]>,
) -> Result<(Status, bool), Fail> {
    let files = files(alloc, b"read <a.fi\nwrite >b.fi\n")?;
    let mut store = MemoryStore::new(alloc, files, Items::of(alloc, &[failing])?)?;
    let mut out = MemorySink::new(alloc, Items::empty(alloc))?;
    let status = run(alloc, &["s"], &mut store, &mut out)?;
    let is_written = match (store.file("b.fi"), written) {
        (Some(text), Some(want)) => text.as_slice() == want,
        (None, None) => true,
        _ => false,
    };
    Ok((status, is_written && out.written().as_slice().is_empty()))
}

// The calls of the run are: begin and two reads of the script, begin and two reads of the stream, begin, write and
// finish of the written file. A read that gives nothing is the end of a file, so each is read twice.
#[test]
fn each_call_that_fails_ends_the_run(rt: HostRuntime) -> Result<(), Fail> {
    let rows: [(&str, u64, Status, Option<&[u8]>); 10] = [
        ("the script isn't begun", 1, Status::SourceFault, None),
        ("the script isn't read", 2, Status::SourceFault, None),
        ("the script's end isn't read", 3, Status::SourceFault, None),
        ("the stream isn't begun", 4, Status::SourceFault, None),
        ("the stream isn't read", 5, Status::SourceFault, None),
        ("the stream's end isn't read", 6, Status::SourceFault, None),
        ("the file isn't begun", 7, Status::SinkFault, None),
        ("the file isn't written", 8, Status::SinkFault, Some(b"")),
        (
            "the file isn't finished",
            9,
            Status::SinkFault,
            Some(WRITTEN),
        ),
        ("no call fails", 10, Status::Done, Some(WRITTEN)),
    ];
    for (what, failing, status, written) in rows {
        let ending = run_failing(rt.alloc(), failing, written)?;
        assert_eq!(rt; ending, (status, true), "{what}");
    }
    Ok(())
}

// How a run ends in which the output takes no byte.
fn run_unprinted(alloc: Global, given: &[&str]) -> Result<Status, Fail> {
    let mut store = MemoryStore::new(alloc, files(alloc, b"frob\n")?, Items::empty(alloc))?;
    let mut out = MemorySink::new(alloc, Items::of(alloc, &[1])?)?;
    run(alloc, given, &mut store, &mut out)
}

#[test]
fn a_line_that_is_not_printed_is_a_fault_of_the_sink(rt: HostRuntime) -> Result<(), Fail> {
    let alloc = rt.alloc();
    assert_eq!(rt;
        run_unprinted(alloc, &["s"])?,
        Status::SinkFault,
        "a refusal"
    );
    assert_eq!(rt; run_unprinted(alloc, &[])?, Status::SinkFault, "no words");
    assert_eq!(rt;
        run_unprinted(alloc, &["t"])?,
        Status::SinkFault,
        "no such script"
    );
    Ok(())
}
