//! A line that is put together, of which no more is kept than a line may have.
ghost use Rattle.std.specs.Prelude.{◌≡◌, ◌+◌, ◌≤◌, ◌++◌, ◌↔◌, [], length, IfOk, IsTrue};
ghost use Rattle.macro_lines.specs.Put.{IsKept};
ghost use Rattle.plain_model.specs.Paths.{Bytes};
ghost use Rattle.plain_model.specs.declared.limit.TheConstants.{MAX_LINE_BYTES};
ghost use Rattle.script_lines.specs.Scripts.{is_nothing, without_front};

use plain_model::{MAX_LINE_BYTES, NoMemory};
use script_lines::{ScriptText, is_nothing, trim_back, trim_front};
use std::alloc::Global;

/// What is kept of a line, from its first byte on that counts.
#[derive(Drop)]
pub enum Line {
    /// All of it.
    Whole(ScriptText),
    /// What counts of it, after which more blanks came than a line has room for.
    Full(ScriptText),
    /// Nothing, since more of it counts than a line may have.
    TooLong,
    /// Nothing, since it is a comment.
    Comment,
}

// Whether both together are no more than a line may have.
fn fits(text: &str, piece: &str) -> bool
    ensures { IsTrue result ↔ length text.now + length piece.now ≤ MAX_LINE_BYTES }
{
    text.len() as u64 + piece.len() as u64 <= MAX_LINE_BYTES
}

// Whether a text and a piece after it are no line that is run.
fn are_nothing(text: &str, piece: &str) -> bool
    ensures { result ≡ is_nothing (text.now ++ piece.now) }
{
    if text.is_empty() {
        is_nothing(piece)
    } else {
        is_nothing(text)
    }
}

// The line of a text that counts and a piece after it.
fn with_counted(text: ScriptText, piece: &str) -> Result<Line, NoMemory>
    ensures { IfOk result (λ line. (put : Bytes) → length text ≤ MAX_LINE_BYTES →
        without_front put ≡ text ++ piece.now → IsKept line put) }
{
    let mut text = text;
    if fits(text.as_str(), piece) {
        text.push_str(piece)?;
        return Ok(Line::Whole(text));
    }
    let counted = trim_back(piece);
    if fits(text.as_str(), counted) {
        text.push_str(counted)?;
        return Ok(Line::Full(text));
    }
    if are_nothing(text.as_str(), piece) {
        return Ok(Line::Comment);
    }
    Ok(Line::TooLong)
}

// What a piece adds to the text that counts: where nothing does yet, the blanks at its front don't either.
fn added<'a>(text: &str, piece: &'a str) -> &'a str
    ensures { (put : Bytes) → text.now ≡ without_front put →
        without_front (put ++ piece.now) ≡ text.now ++ result.now }
{
    if text.is_empty() {
        trim_front(piece)
    } else {
        piece
    }
}

impl Line {
    /// A line of which nothing was put in yet. It takes no memory.
    pub fn new(alloc: Global) -> Line
        ensures { IsKept result [] }
    {
        Line::Whole(ScriptText::empty(alloc))
    }
}

/// The line with a piece put at its end.
pub fn with_piece(line: Line, piece: &str) -> Result<Line, NoMemory>
    ensures { IfOk result (λ now. (put : Bytes) → IsKept line put → IsKept now (put ++ piece.now)) }
{
    match line {
        Line::Whole(text) => {
            let piece = added(text.as_str(), piece);
            with_counted(text, piece)
        }
        Line::Full(text) => {
            if trim_back(piece).is_empty() {
                return Ok(Line::Full(text));
            }
            if is_nothing(text.as_str()) {
                return Ok(Line::Comment);
            }
            Ok(Line::TooLong)
        }
        Line::TooLong => Ok(Line::TooLong),
        Line::Comment => Ok(Line::Comment),
    }
}
