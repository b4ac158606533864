//! Streams in pieces give what they give at once.
use plain_model::{Copied, EventList, FileOp, Items, NoMemory, PlainEvent, Text, Why};
use std::alloc::Global;
use std::test::*;
use stream_reader::{ReadFault, StreamReader, read_stream};

fn put_number(out: &mut Text, before: &[u8], number: u64) -> Result<(), NoMemory> {
    out.push_all(before)?;
    out.push_number(number)
}

fn put_bytes(out: &mut Text, before: &[u8], bytes: &[u8]) -> Result<(), NoMemory> {
    out.push_all(before)?;
    out.push_all(bytes)
}

// The paths of an operation.
fn put_op(out: &mut Text, op: &FileOp) -> Result<(), NoMemory> {
    match op {
        FileOp::Modify { path, .. } => put_bytes(out, b" M ", path.as_bytes()),
        FileOp::Delete { path } => put_bytes(out, b" D ", path.as_bytes()),
        FileOp::Copy { source, target } => {
            put_bytes(out, b" C ", source.as_bytes())?;
            put_bytes(out, b" ", target.as_bytes())
        }
        FileOp::Rename { source, target } => {
            put_bytes(out, b" R ", source.as_bytes())?;
            put_bytes(out, b" ", target.as_bytes())
        }
        FileOp::DeleteAll => out.push_all(b" deleteall"),
    }
}

// A line: the kind, the mark, some of the fields, and of a commit the ids of parents, the operations and the aliases.
fn put_event(out: &mut Text, event: &PlainEvent) -> Result<(), NoMemory> {
    match event {
        PlainEvent::Blob { mark, bytes, .. } => {
            put_number(out, b"blob :", mark.number())?;
            put_bytes(out, b" ", bytes.as_slice())
        }
        PlainEvent::Commit {
            mark,
            branch,
            author,
            comment,
            parents,
            ops,
            aliases,
            ..
        } => {
            put_number(out, b"commit :", mark.number())?;
            put_bytes(out, b" ", branch.as_slice())?;
            put_bytes(out, b" ", author.person.as_ref().name.as_slice())?;
            put_bytes(out, b" ", comment.as_slice())?;
            for parent in parents.as_slice() {
                put_number(out, b" from ", parent.number())?;
            }
            for op in ops.as_slice() {
                put_op(out, op)?;
            }
            for alias in aliases.as_slice() {
                put_number(out, b" alias :", alias.number())?;
            }
            Ok(())
        }
        PlainEvent::Tag {
            name,
            target,
            comment,
            ..
        } => {
            put_bytes(out, b"tag ", name.as_slice())?;
            put_number(out, b" of ", target.number())?;
            put_bytes(out, b" ", comment.as_slice())
        }
        PlainEvent::Reset { branch, .. } => put_bytes(out, b"reset ", branch.as_slice()),
        PlainEvent::Pass { line, .. } => put_bytes(out, b"pass ", line.as_slice()),
    }
}

// A copy of each event.
fn shown(alloc: Global, events: &EventList) -> Result<Text, Fail> {
    let mut out = Items::empty(alloc);
    for event in events.as_slice() {
        put_event(&mut out, &event.as_ref().copied(alloc)?)?;
        out.push(b'\n')?;
    }
    Ok(out)
}

// Each kind of line, by hand.
fn each_kind_of_line() -> &'static [u8] {
    b"# by hand
feature done
option git quiet

blob
# between the lines of an event
mark :007
original-oid abc
data 3
one
blob
data <<END
# two

END

commit b
mark :3
original-oid x
author A  B <a@x> 01 -0330
committer <> 2 +9999
encoding latin1
data 2
c1
M 644 :7 d/f
M 100755 inline \"q\\\"\\303\\n\"
data 1
x
M 160000 8234567890123456789012345678901234567890 g
C d e
R \"d/f\" \"a b\"
D g
deleteall

alias
mark :4
to b

tag t
mark :5
from b
original-oid y
tagger T <t@x> 3 +0000
data 1
m
reset c
from :3

checkpoint
progress half
feature date-format=raw
commit c
committer C <c@x> 4 +0000
data 0
from b
merge b
reset c
done
frob
"
}

// What these lines give, by hand.
fn each_kind_of_event() -> &'static [u8] {
    b"pass feature done
pass option git quiet
blob :7 one
blob :8 # two


blob :9 x
commit :3 b A  B c1 M d/f M q\"\xc3\n M g C d e R d/f a b D g deleteall alias :4
tag t of 6 m
reset c
pass checkpoint
pass progress half
pass feature date-format=raw
commit :10 c C  from 6
reset c
"
}

#[test]
fn a_stream_is_read_at_once(rt: HostRuntime) -> Result<(), Fail> {
    let read = read_stream(rt.alloc(), each_kind_of_line())?;
    assert_eq!(rt; shown(rt.alloc(), &read)?.as_slice(), each_kind_of_event());
    Ok(())
}

fn read_in_two(alloc: Global, first: &[u8], then: &[u8]) -> Result<EventList, ReadFault> {
    let mut reader = StreamReader::new(alloc);
    reader.feed(first)?;
    reader.feed(then)?;
    reader.finish()
}

#[test]
fn a_stream_is_cut_anywhere(rt: HostRuntime) -> Result<(), Fail> {
    let stream = each_kind_of_line();
    for at in 0..stream.len() {
        let read = read_in_two(rt.alloc(), &stream[..at], &stream[at..])?;
        assert_eq!(rt;
            shown(rt.alloc(), &read)?.as_slice(),
            each_kind_of_event(),
            "{at}"
        );
    }
    Ok(())
}

#[test]
fn a_stream_comes_byte_by_byte(rt: HostRuntime) -> Result<(), Fail> {
    let mut reader = StreamReader::new(rt.alloc());
    for byte in each_kind_of_line() {
        reader.feed(&[*byte])?;
    }
    let read = reader.finish()?;
    assert_eq!(rt; shown(rt.alloc(), &read)?.as_slice(), each_kind_of_event());
    Ok(())
}

#[test]
fn a_refusal_comes_with_its_line_and_stays(rt: HostRuntime) -> Result<(), Fail> {
    let refused = Some(ReadFault::BadStream {
        line: 2,
        why: Why::BadMark,
    });
    let mut reader = StreamReader::new(rt.alloc());
    assert!(rt; reader.feed(b"blob\nmark :0") == Ok(()));
    assert!(rt; reader.feed(b"\ndata 0\n").err() == refused);
    assert!(rt; reader.feed(b"frob\n").err() == refused);
    assert!(rt; reader.finish().err() == refused);
    Ok(())
}
