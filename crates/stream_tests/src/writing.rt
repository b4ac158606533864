//! A text of several pieces is written up to a fault of the sink.
use event_arena::Events;
use plain_model::{Items, NumberList, Text};
use soundness_laws::{what_is_read_is_sound, what_is_read_passes_no_limit};
use std::alloc::Global;
use std::test::*;
use stream_reader::read_stream;
use stream_writer::write_stream;
use surgeon_store::{MemorySink, WriteEnd};

fn history(alloc: Global, stream: &[u8]) -> Result<Events, Fail> {
    what_is_read_is_sound();
    what_is_read_passes_no_limit();
    let list = read_stream(alloc, stream)?;
    Ok(Events::from_plain(alloc, list)?)
}

// The lines of a blob, which has so many times the byte.
fn put_blob(out: &mut Text, lines: &[u8], byte: u8, count: u64) -> Result<(), Fail> {
    out.push_all(lines)?;
    for _ in 0..count {
        out.push(byte)?;
    }
    out.push(b'\n')?;
    Ok(())
}

// What is written where this call of the sink fails, if there is one, and the end.
fn written(
    alloc: Global,
    events: &Events,
    failing: u64,
) -> Result<(Text, Result<(), WriteEnd>), Fail> {
    let failing: NumberList = Items::of(alloc, &[failing])?;
    let mut sink = MemorySink::new(alloc, failing)?;
    let end = write_stream(alloc, events, &mut sink);
    Ok((sink.written().copy()?, end))
}

// Two blobs that are a piece together, and one that is larger than a piece.
#[test]
fn a_text_of_several_pieces_is_written_up_to_a_fault(rt: HostRuntime) -> Result<(), Fail> {
    let alloc = rt.alloc();
    let mut stream = Items::empty(alloc);
    put_blob(&mut stream, b"blob\nmark :1\ndata 40000\n", b'x', 40000)?;
    put_blob(&mut stream, b"blob\nmark :2\ndata 40000\n", b'y', 40000)?;
    let first = stream.copy()?;
    put_blob(&mut stream, b"blob\nmark :3\ndata 70000\n", b'z', 70000)?;
    let events = history(alloc, stream.as_slice())?;
    let (text, end) = written(alloc, &events, 100)?;
    assert!(rt; text.as_slice() == stream.as_slice());
    assert!(rt; end == Ok(()));
    let (text, end) = written(alloc, &events, 2)?;
    assert!(rt; text.as_slice() == first.as_slice());
    assert!(rt; end == Err(WriteEnd::SinkFault));
    Ok(())
}
