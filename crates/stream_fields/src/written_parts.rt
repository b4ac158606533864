//! Parts of a written line at the end of a text. Where memory runs out it is left open how much of them is
//! there; what was there before stays.
ghost use Rattle.std.specs.Prelude.{
  ◌≡◌,
  ◌++◌,
  ◌+◌,
  ◌/◌,
  ◌%◌,
  ◌<◌,
  ◌==◌,
  ◌||◌,
  ◌∷◌,
  [],
  length,
  take,
  OnOk,
  codes,
  if◌then◌else◌,
};
ghost use Rattle.std.specs.List.{list_any};
ghost use Rattle.plain_model.specs.Fields.{ContentFits, OpFits};
ghost use Rattle.plain_model.specs.Paths.{IsPath};
ghost use Rattle.plain_model.specs.Text.{
  LF,
  zone,
  person,
  quoted_byte,
  quoted,
  path_text,
  last_path,
  mode_text,
  raw_content_text,
  raw_op_text,
  marked,
};
ghost use Rattle.stream_fields.specs.Written.{name_part, address, date, modify_text, paths_text, counted_block};

use crate::paths::begins_with_quote;
use plain_model::{Mode, NoMemory, Path, Person, Place, RawContent, RawOp, Signed, Text, When};

// ---- who and when

fn digit(number: u16, place: u16) -> u8
    requires { 0 < place }
    ensures { result ≡ 48 + number / place % 10 }
{
    b'0' + (number / place % 10) as u8
}

// The first of four digits, of a number that has no more.
fn first_digit(number: u16) -> u8
    ensures { result ≡ 48 + number / 1000 }
{
    b'0' + (number / 1000) as u8
}

fn sign(minus: bool) -> u8
    ensures { result ∷ [] ≡ (if minus then codes "-" else codes "+") }
{
    if minus { b'-' } else { b'+' }
}

// The zone with its sign, and the space before it.
#[tactic(auto, using(crate::proofs::Fronts::fronts))]
fn push_zone(out: &mut Text, minus: bool, offset: u16) -> Result<(), NoMemory>
    ensures text { OnOk result
        (out.new ≡ out.old ++ (codes " " ++ (if minus then codes "-" else codes "+") ++ zone offset)) }
    ensures front { take (length out.old) out.new ≡ out.old }
{
    out.push_all(&[
        b' ',
        sign(minus),
        first_digit(offset),
        digit(offset, 100),
        digit(offset, 10),
        digit(offset, 1),
    ])
}

#[tactic(auto, using(crate::proofs::Fronts::fronts))]
fn push_name(out: &mut Text, name: &[u8]) -> Result<(), NoMemory>
    ensures text { OnOk result (out.new ≡ out.old ++ name_part name.now) }
    ensures front { take (length out.old) out.new ≡ out.old }
{
    out.push_all(name)?;
    if !name.is_empty() {
        out.push(b' ')?;
    }
    Ok(())
}

#[tactic(auto, using(crate::proofs::Fronts::fronts))]
fn push_address(out: &mut Text, person: &Person) -> Result<(), NoMemory>
    ensures text { OnOk result (out.new ≡ out.old ++ address person.now) }
    ensures front { take (length out.old) out.new ≡ out.old }
{
    out.push(b'<')?;
    out.push_all(person.email.as_slice())?;
    out.push_all(b"> ")
}

#[tactic(auto, using(crate::proofs::Fronts::fronts))]
pub fn push_date(out: &mut Text, when: &When) -> Result<(), NoMemory>
    ensures text { OnOk result (out.new ≡ out.old ++ date when.now) }
    ensures front { take (length out.old) out.new ≡ out.old }
{
    out.push_number(when.seconds)?;
    push_zone(out, when.minus, when.offset)
}

#[tactic(auto, using(crate::proofs::Fronts::fronts))]
pub fn push_person(out: &mut Text, signed: &Signed) -> Result<(), NoMemory>
    ensures text { OnOk result (out.new ≡ out.old ++ person signed.now) }
    ensures front { take (length out.old) out.new ≡ out.old }
{
    let person = signed.person.as_ref();
    push_name(out, person.name.as_slice())?;
    push_address(out, person)?;
    push_date(out, &signed.when)
}

// ---- paths

fn has_lf(bytes: &[u8]) -> bool
    ensures { result ≡ list_any (λ b. b == LF) bytes.now }
{
    bytes.iter().any(|b| *b == b'\n')
}

fn has_lf_or_space(bytes: &[u8]) -> bool
    ensures { result ≡ list_any (λ b. (b == LF) || (b == 32)) bytes.now }
{
    bytes.iter().any(|b| *b == b'\n' || *b == b' ')
}

#[tactic(auto, using(crate::proofs::Fronts::fronts))]
fn push_quoted_byte(out: &mut Text, byte: u8) -> Result<(), NoMemory>
    ensures text { OnOk result (out.new ≡ out.old ++ quoted_byte byte) }
    ensures front { take (length out.old) out.new ≡ out.old }
{
    match byte {
        b'"' => out.push_all(b"\\\""),
        b'\\' => out.push_all(b"\\\\"),
        b'\n' => out.push_all(b"\\n"),
        _ => out.push(byte),
    }
}

#[tactic(auto, using(crate::proofs::Fronts::fronts))]
fn push_quoted(out: &mut Text, bytes: &[u8]) -> Result<(), NoMemory>
    ensures text { OnOk result (out.new ≡ out.old ++ quoted bytes.now) }
    ensures front { take (length out.old) out.new ≡ out.old }
{
    out.push(b'"')?;
    for byte in bytes {
        push_quoted_byte(out, *byte)?;
    }
    out.push(b'"')
}

#[tactic(auto, using(crate::proofs::Fronts::fronts))]
pub fn push_path(out: &mut Text, path: &Path, place: Place) -> Result<(), NoMemory>
    ensures text { OnOk result (out.new ≡ out.old ++ path_text place path.now) }
    ensures fits { IsPath path.now }
    ensures front { take (length out.old) out.new ≡ out.old }
{
    let bytes = path.as_bytes();
    match place {
        Place::Last => {
            if begins_with_quote(bytes) || has_lf(bytes) {
                push_quoted(out, bytes)
            } else {
                out.push_all(bytes)
            }
        }
        Place::Source => {
            if begins_with_quote(bytes) || has_lf_or_space(bytes) {
                push_quoted(out, bytes)
            } else {
                out.push_all(bytes)
            }
        }
    }
}

// ---- operations

/// The six digits that are written of a mode. (git-fast-import, `<mode>`.)
pub fn mode_digits(mode: Mode) -> &'static [u8]
    ensures { result.now ≡ mode_text mode }
{
    match mode {
        Mode::Plain => b"100644",
        Mode::Executable => b"100755",
        Mode::Link => b"120000",
        Mode::Gitlink => b"160000",
    }
}

#[tactic(auto, using(crate::proofs::Fronts::fronts))]
pub fn push_marked(out: &mut Text, mark: u64) -> Result<(), NoMemory>
    ensures text { OnOk result (out.new ≡ out.old ++ marked mark) }
    ensures front { take (length out.old) out.new ≡ out.old }
{
    out.push(b':')?;
    out.push_number(mark)
}

#[tactic(auto, using(crate::proofs::Fronts::fronts))]
fn push_content(out: &mut Text, content: RawContent) -> Result<(), NoMemory>
    ensures text { OnOk result (out.new ≡ out.old ++ raw_content_text content) }
    ensures fits { ContentFits content }
    ensures front { take (length out.old) out.new ≡ out.old }
{
    match content {
        RawContent::Marked(mark) => push_marked(out, mark.number()),
        RawContent::Object(id) => out.push_all(id.digits()),
        RawContent::Inline => out.push_all(b"inline"),
    }
}

#[tactic(auto, using(crate::proofs::Fronts::fronts))]
fn push_modify(out: &mut Text, mode: Mode, content: RawContent, path: &Path) -> Result<(), NoMemory>
    ensures text { OnOk result (out.new ≡ out.old ++ modify_text mode content path.now) }
    ensures fits { OnOk result (ContentFits content × IsPath path.now) }
    ensures front { take (length out.old) out.new ≡ out.old }
{
    out.push_all(b"M ")?;
    out.push_all(mode_digits(mode))?;
    out.push(b' ')?;
    push_content(out, content)?;
    out.push(b' ')?;
    push_path(out, path, Place::Last)
}

// `C` or `R`, and its two paths.
#[tactic(auto, using(crate::proofs::Fronts::fronts))]
fn push_paths(out: &mut Text, word: &[u8], source: &Path, target: &Path) -> Result<(), NoMemory>
    ensures text { OnOk result (out.new ≡ out.old ++ paths_text word.now source.now target.now) }
    ensures fits { OnOk result (IsPath source.now × IsPath target.now) }
    ensures front { take (length out.old) out.new ≡ out.old }
{
    out.push_all(word)?;
    push_path(out, source, Place::Source)?;
    out.push(b' ')?;
    push_path(out, target, Place::Last)
}

#[tactic(auto, using(crate::proofs::Fronts::fronts))]
fn push_delete(out: &mut Text, path: &Path) -> Result<(), NoMemory>
    ensures text { OnOk result (out.new ≡ out.old ++ (codes "D " ++ last_path path.now)) }
    ensures fits { OnOk result (IsPath path.now) }
    ensures front { take (length out.old) out.new ≡ out.old }
{
    out.push_all(b"D ")?;
    push_path(out, path, Place::Last)
}

#[tactic(auto, using(crate::proofs::Fronts::fronts))]
pub fn push_op(out: &mut Text, op: &RawOp) -> Result<(), NoMemory>
    ensures text { OnOk result (out.new ≡ out.old ++ raw_op_text op.now) }
    ensures fits { OnOk result (OpFits op.now) }
    ensures front { take (length out.old) out.new ≡ out.old }
{
    match op {
        RawOp::Modify {
            mode,
            content,
            path,
        } => push_modify(out, *mode, *content, path),
        RawOp::Delete { path } => push_delete(out, path),
        RawOp::Copy { source, target } => push_paths(out, b"C ", source, target),
        RawOp::Rename { source, target } => push_paths(out, b"R ", source, target),
        RawOp::DeleteAll => out.push_all(b"deleteall"),
    }
}

/// Puts the line `data COUNT`, the bytes and an LF. Where memory runs out a part of them may be there.
#[tactic(auto, using(crate::proofs::Fronts::fronts))]
pub fn push_data(out: &mut Text, bytes: &[u8]) -> Result<(), NoMemory>
    ensures text { OnOk result (out.new ≡ out.old ++ counted_block bytes.now) }
    ensures front { take (length out.old) out.new ≡ out.old }
{
    out.push_all(b"data ")?;
    out.push_number(bytes.len() as u64)?;
    out.push(b'\n')?;
    out.push_all(bytes)?;
    out.push(b'\n')
}
