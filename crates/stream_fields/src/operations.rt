//! File operations as they are spelled.
ghost use Rattle.std.specs.Prelude.{◌≡◌, ◌==◌, IsTrue, codes};
ghost use Rattle.std.specs.List.{list_all};
ghost use Rattle.plain_model.specs.Fields.{
  mode_in,
  content_in,
  marked_content,
  inline_content,
  is_any_hex,
  is_left_out_id,
  is_left_out_word,
  modify_in,
  paths_in,
  op_in,
};
ghost use Rattle.plain_model.specs.Parts.{begins};
ghost use Rattle.stream_fields.specs.Answers.{Gives};

use crate::fault::{FieldFault, or_defect};
use crate::lines::words;
use crate::numbers::read_mark;
use crate::paths::{read_last_path, read_path};
use plain_model::{Mark, Mode, ObjectId, Path, Place, RawContent, RawOp, Why};
use std::alloc::Global;

// Whether the mode is the one that most files have. A pattern finds it in fewer steps than a comparison.
fn is_commonest_mode(text: &[u8]) -> bool
    ensures { IsTrue result → text.now ≡ codes "100644" }
{
    matches!(text, [b'1', b'0', b'0', b'6', b'4', b'4'])
}

/// The kind of thing that is at a path. (git-fast-import, `<mode>`; folders are left out.)
#[tactic(auto, unfolding(plain_model::specs::Fields::mode_in))]
pub fn read_mode(text: &[u8]) -> Result<Mode, Why>
    ensures { result ≡ mode_in text.now }
{
    // Mostly no other is compared with.
    if is_commonest_mode(text) {
        return Ok(Mode::Plain);
    }
    if text == b"100644".as_slice() || text == b"644".as_slice() {
        Ok(Mode::Plain)
    } else if text == b"100755".as_slice() || text == b"755".as_slice() {
        Ok(Mode::Executable)
    } else if text == b"120000".as_slice() {
        Ok(Mode::Link)
    } else if text == b"160000".as_slice() {
        Ok(Mode::Gitlink)
    } else if text == b"040000".as_slice() {
        Err(Why::LeftOut)
    } else {
        Err(Why::BadMode)
    }
}

fn marked(mode: Mode, mark: Mark) -> Result<RawContent, Why>
    ensures { result ≡ marked_content mode mark }
{
    match mode {
        Mode::Gitlink => Err(Why::LeftOut),
        _ => Ok(RawContent::Marked(mark)),
    }
}

fn inline(mode: Mode) -> Result<RawContent, Why>
    ensures { result ≡ inline_content mode }
{
    match mode {
        Mode::Gitlink => Err(Why::BadMode),
        _ => Ok(RawContent::Inline),
    }
}

fn are_hex(text: &[u8]) -> bool
    ensures { result ≡ list_all is_any_hex text.now }
{
    text.iter().all(|d| {
        (*d >= b'0' && *d <= b'9') || (*d >= b'a' && *d <= b'f') || (*d >= b'A' && *d <= b'F')
    })
}

fn are_zeros(text: &[u8]) -> bool
    ensures { result ≡ list_all (λ d. d == 48) text.now }
{
    text.iter().all(|d| *d == b'0')
}

// The digits of an id that is left out: one of 64 digits, or the id of no object.
fn is_id_left_out(text: &[u8]) -> bool
    ensures { result ≡ is_left_out_id text.now }
{
    text.len() == 64 && are_hex(text) || text.len() == 40 && are_zeros(text)
}

fn begins_with_colon(text: &[u8]) -> bool
    ensures { result ≡ begins (codes ":") text.now }
{
    matches!(text, [b':', ..])
}

/// What is put at a path under a mode: the mark of a blob, the digits of an object's id, or bytes that follow. A
/// link to another repository has digits alone. (git-fast-import, `<dataref>`.)
#[tactic(auto, unfolding(plain_model::specs::Fields::content_in))]
pub fn read_content(mode: Mode, text: &[u8]) -> Result<RawContent, Why>
    ensures { result ≡ content_in mode text.now }
{
    if begins_with_colon(text) {
        return marked(mode, read_mark(text)?);
    }
    if text == b"inline".as_slice() {
        return inline(mode);
    }
    if is_id_left_out(text) {
        return Err(Why::LeftOut);
    }
    let id = or_defect(Why::BadMark, ObjectId::new(text))?;
    Ok(RawContent::Object(id))
}

// `MODE CONTENT PATH`.
#[tactic(auto, unfolding(plain_model::specs::Fields::modify_in))]
fn read_modify(alloc: Global, text: &[u8]) -> Result<RawOp, FieldFault>
    ensures { Gives (λ op. op) result (modify_in text.now) }
{
    let (mode, fields) = words(text);
    let mode = read_mode(mode)?;
    let fields = or_defect(Why::BadMark, fields)?;
    let (content, path) = words(fields);
    let content = read_content(mode, content)?;
    let path = read_last_path(alloc, path)?;
    Ok(RawOp::Modify {
        mode,
        content,
        path,
    })
}

// `SOURCE TARGET`.
#[tactic(auto, unfolding(plain_model::specs::Fields::paths_in))]
fn read_paths(alloc: Global, text: &[u8]) -> Result<(Path, Path), FieldFault>
    ensures { Gives (λ x. (x.0, x.1)) result (paths_in text.now) }
{
    let (source, taken) = read_path(alloc, text, Place::Source)?;
    let (_, target) = words(&text[taken..]);
    let target = read_last_path(alloc, target)?;
    Ok((source, target))
}

/// Whether such a first word has a meaning in git that is left out here.
pub fn is_word_left_out(word: &[u8]) -> bool
    ensures { result ≡ is_left_out_word word.now }
{
    word == b"ls".as_slice()
        || word == b"cat-blob".as_slice()
        || word == b"get-mark".as_slice()
        || word == b"gpgsig".as_slice()
        || word == b"property".as_slice()
        || word == b"N".as_slice()
}

/// The line of an operation: `M`, `D`, `C`, `R` with their fields, or `deleteall`. (git-fast-import, `commit`.)
#[tactic(auto, unfolding(plain_model::specs::Fields::op_in))]
pub fn read_op(alloc: Global, line: &[u8]) -> Result<RawOp, FieldFault>
    ensures { Gives (λ op. op) result (op_in line.now) }
{
    let (word, fields) = words(line);
    if line == b"deleteall".as_slice() {
        Ok(RawOp::DeleteAll)
    } else if word == b"M".as_slice() {
        let fields = or_defect(Why::BadMode, fields)?;
        read_modify(alloc, fields)
    } else if word == b"D".as_slice() {
        let path = read_last_path(alloc, fields)?;
        Ok(RawOp::Delete { path })
    } else if word == b"C".as_slice() {
        let fields = or_defect(Why::BadPath, fields)?;
        let (source, target) = read_paths(alloc, fields)?;
        Ok(RawOp::Copy { source, target })
    } else if word == b"R".as_slice() {
        let fields = or_defect(Why::BadPath, fields)?;
        let (source, target) = read_paths(alloc, fields)?;
        Ok(RawOp::Rename { source, target })
    } else if is_word_left_out(word) {
        Err(FieldFault::Bad(Why::LeftOut))
    } else {
        Err(FieldFault::Bad(Why::UnknownLine))
    }
}
