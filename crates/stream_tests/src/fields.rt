//! Fields by calls that no crate makes.
use plain_model::{Fault, Items, Text};
use std::alloc::Global;
use std::test::*;
use stream_fields::{Cursor, read_mark, read_op, write_mark, write_op};

fn op_again(alloc: Global, line: &[u8]) -> Result<Text, Fail> {
    let mut out = Items::empty(alloc);
    let op = read_op(alloc, line)?;
    write_op(&op, &mut out)?;
    Ok(out)
}

#[test]
fn an_operation_of_each_kind_is_read_and_written(rt: HostRuntime) -> Result<(), Fail> {
    let rows: [(&[u8], &[u8]); 7] = [
        (b"M 644 inline \"a\\040b\"", b"M 100644 inline a b"),
        (b"M 755 :007 f", b"M 100755 :7 f"),
        (
            b"M 160000 0123456789abcdef0123456789abcdef01234567 sub",
            b"M 160000 0123456789abcdef0123456789abcdef01234567 sub",
        ),
        (b"D \"a\\nb\"", b"D \"a\\nb\""),
        (b"C \"a\\040b\" c d", b"C \"a b\" c d"),
        (b"R a b c", b"R a b c"),
        (b"deleteall", b"deleteall"),
    ];
    for (line, want) in rows {
        assert_eq!(rt; op_again(rt.alloc(), line)?.as_slice(), want);
    }
    Ok(())
}

#[test]
fn a_mark_is_written_with_its_colon(rt: HostRuntime) -> Result<(), Fail> {
    let mut out: Text = Items::empty(rt.alloc());
    write_mark(read_mark(b":0042")?, &mut out)?;
    assert_eq!(rt; out.as_slice(), b":42".as_slice());
    Ok(())
}

// BYTES|THE LINE THAT FOLLOWS|ITS NUMBER, after a text whose first line is one of data
fn block_shown(alloc: Global, text: &[u8]) -> Result<Text, Fail> {
    let mut out = Items::empty(alloc);
    let mut cursor = Cursor::new(text);
    let head = cursor.line().ok_or("a line of data")?;
    out.push_all(cursor.block(alloc, head)?.as_slice())?;
    out.push(b'|')?;
    if let Some(line) = cursor.line() {
        out.push_all(line)?;
        out.push(b'|')?;
        out.push_number(cursor.number())?;
    }
    Ok(out)
}

#[test]
fn a_block_ends_before_the_line_that_follows(rt: HostRuntime) -> Result<(), Fail> {
    let rows: [(&str, &[u8], &[u8]); 7] = [
        ("an LF is passed over", b"data 3\na\nb\nx", b"a\nb|x|4"),
        ("no LF", b"data 3\na\nbx\ny", b"a\nb|x|3"),
        ("one LF alone", b"data 1\na\n\nx", b"a||3"),
        ("no bytes", b"data 0\n\nx", b"|x|3"),
        ("a delimiter", b"data <<END\nhi\nEND\n\nx", b"hi\n|x|5"),
        ("its line without an LF", b"data <<E\nEE\nE", b"EE\n|"),
        ("no lines before it", b"data <<E D\nE D\nx", b"|x|3"),
    ];
    for (what, text, want) in rows {
        assert_eq!(rt; block_shown(rt.alloc(), text)?.as_slice(), want, "{what}");
    }
    Ok(())
}

#[test]
fn a_refused_block_leaves_the_cursor(rt: HostRuntime) -> Result<(), Fail> {
    let mut cursor = Cursor::new(b"data 9\n#a\n\nlast");
    assert_eq!(rt; cursor.number(), 0);
    let head = cursor.line().ok_or("a line")?;
    assert!(rt; cursor.block(rt.alloc(), head).is_err());
    assert_eq!(rt; cursor.number(), 1);
    assert_eq!(rt; cursor.line(), Some(b"#a".as_slice()));
    assert_eq!(rt; cursor.line(), Some(b"".as_slice()));
    assert_eq!(rt; cursor.line(), Some(b"last".as_slice()));
    assert_eq!(rt; cursor.number(), 4);
    assert_eq!(rt; cursor.line(), None);
    Ok(())
}

#[test]
fn a_fault_that_no_command_has_yet_has_its_text(rt: HostRuntime) -> Result<(), Fail> {
    let fault = Fault::PathCollision {
        mark: read_mark(b":1")?,
        op: 3,
        path: Items::of(rt.alloc(), b"a/b")?,
    };
    let text = fault.text(rt.alloc())?;
    assert_eq!(rt;
        text.as_slice(),
        b"63 PathCollision mark=:1 op=3 path=a/b".as_slice()
    );
    Ok(())
}
