//! Comments as bodies of messages, and bodies as comments.
ghost use Rattle.std.specs.Prelude.{◌≡◌, ◌≤◌, ◌++◌, length, take, OnOk};
ghost use Rattle.mailbox_laws.specs.Boxes.{comment_in, lines_in, quoted, unquoted};
ghost use Rattle.mailbox_laws.specs.Written.{body_text};
ghost use Rattle.plain_model.specs.Text.{line};

use crate::lines::{next_line, next_piece};
use crate::rules::is_ruled;
use plain_model::{NoMemory, Text};

// Puts a line of a comment as a line of a body.
fn push_quoted(text: &[u8], into: &mut Text) -> Result<(), NoMemory>
    ensures { OnOk result (into.new ≡ into.old ++ line (quoted text.now)) }
{
    if is_ruled(text) {
        into.push(b'>')?;
    }
    into.push_all(text)?;
    into.push(b'\n')
}

/// Puts a comment as the body of a message: the comment and one LF, with one `>` more in front of each line that is any
/// number of `>` and then 78 hyphens. Out of memory, a part of it may be there.
pub fn push_body(comment: &[u8], into: &mut Text) -> Result<(), NoMemory>
    ensures { OnOk result (into.new ≡ into.old ++ body_text comment.now) }
{
    let mut rest = Some(comment);
    while let Some(text) = rest {
        let (piece, more) = next_piece(text);
        push_quoted(piece, into)?;
        rest = more;
    }
    Ok(())
}

// The line of a comment for which a line of a body stands.
fn unquoted(line: &[u8]) -> &[u8]
    ensures { result.now ≡ unquoted line.now }
{
    match line {
        [first, rest @ ..] => {
            if *first == b'>' && is_ruled(rest) {
                rest
            } else {
                line
            }
        }
        [] => line,
    }
}

/// Puts the comment for which so many lines stand, from the beginning of the bytes: one `>` is taken from each line that
/// got one, and the last LF is no part of it. Out of memory, a part of it may be there.
pub fn push_comment(body: &[u8], count: u64, into: &mut Text) -> Result<(), NoMemory>
    requires { count ≤ length (lines_in body.now) }
    ensures { OnOk result (into.new ≡ into.old ++ comment_in (take count (lines_in body.now))) }
{
    let mut rest = body;
    let mut left = count;
    while left > 0 {
        let Some((line, after)) = next_line(rest) else {
            return Ok(());
        };
        left -= 1;
        into.push_all(unquoted(line))?;
        if left > 0 {
            into.push(b'\n')?;
        }
        rest = after;
    }
    Ok(())
}
