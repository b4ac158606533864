//! Paths as they are spelled.
ghost use Rattle.std.specs.Prelude.{◌≡◌, ◌≤◌, IfOk, IsTrue, codes, length, drop};
ghost use Rattle.std.specs.Option.{option_copied};
ghost use Rattle.plain_model.specs.Fields.{
  path_in,
  path_by,
  quoted_path,
  plain_path,
  last_path_in,
  may_follow,
  unquoted,
};
ghost use Rattle.plain_model.specs.Fields.Quoting.{Between};
ghost use Rattle.plain_model.specs.Parts.{begins};
ghost use Rattle.plain_model.specs.Text.{begins_quoted};
ghost use Rattle.stream_fields.specs.Answers.{Gives};

use crate::fault::FieldFault;
use crate::lines::words;
use crate::quoting::unquote;
use plain_model::{Path, PathFault, Place, Why};
use std::alloc::Global;

// The path of these bytes; an empty one is left out.
#[tactic(auto, unfolding(plain_model::specs::Fields::path_by))]
fn path_of(alloc: Global, bytes: &[u8]) -> Result<Path, FieldFault>
    ensures { Gives (λ path. path) result (path_by bytes.now) }
{
    match Path::new(alloc, bytes) {
        Ok(path) => Ok(path),
        Err(PathFault::Memory) => Err(FieldFault::Memory),
        Err(PathFault::Empty) => Err(FieldFault::Bad(Why::LeftOut)),
        Err(_) => Err(FieldFault::Bad(Why::BadPath)),
    }
}

// Whether such a text may be after a path in quotes.
fn fits_after(place: Place, rest: &[u8]) -> bool
    ensures { result ≡ may_follow place rest.now }
{
    match rest {
        [] => true,
        [first, ..] => match place {
            Place::Last => false,
            Place::Source => *first == b' ',
        },
    }
}

// A path in quotes, after the first of them.
#[tactic(auto, unfolding(plain_model::specs::Fields::quoted_path))]
fn read_quoted(alloc: Global, text: &[u8], place: Place) -> Result<(Path, usize), FieldFault>
    requires { 1 ≤ length text.now }
    ensures value { Gives (λ x. (x.0, x.1)) result
        (quoted_path place text.now (unquoted Between (drop 1 text.now))) }
    ensures within { IfOk result (λ x. x.1 ≤ length text.now) }
{
    let quoted = &text[1..];
    let Some((bytes, taken)) = unquote(alloc, quoted)? else {
        return Err(FieldFault::Bad(Why::BadPath));
    };
    if !fits_after(place, &quoted[taken..]) {
        return Err(FieldFault::Bad(Why::BadPath));
    }
    let path = path_of(alloc, bytes.as_slice())?;
    Ok((path, taken + 1))
}

// What a path without quotes goes up to.
#[tactic(auto, using(field_laws::proofs::Words::first_word_within))]
fn spelled_plain(place: Place, text: &[u8]) -> &[u8]
    ensures value { result.now ≡ plain_path place text.now }
    ensures within { length result.now ≤ length text.now }
{
    match place {
        Place::Last => text,
        Place::Source => words(text).0,
    }
}

pub fn begins_with_quote(text: &[u8]) -> bool
    ensures value { result ≡ begins (codes "\"") text.now }
    ensures same { result ≡ begins_quoted text.now }
    ensures some { IsTrue result → 1 ≤ length text.now }
{
    matches!(text, [b'"', ..])
}

/// The path at the front of a text, and how many bytes its spelling takes, quotes included. Without quotes a path
/// goes to the first space where another follows, else to the end. In quotes a backslash is before one of
/// `abfnrtv"\` or three octal digits; after the last quote is nothing, or a space where another path follows.
/// (git-fast-import, `<path>`.)
#[tactic(auto, unfolding(plain_model::specs::Fields::path_in))]
pub fn read_path(alloc: Global, text: &[u8], place: Place) -> Result<(Path, usize), FieldFault>
    ensures value { Gives (λ x. (x.0, x.1)) result (path_in place text.now) }
    ensures within { IfOk result (λ x. x.1 ≤ length text.now) }
{
    if begins_with_quote(text) {
        return read_quoted(alloc, text, place);
    }
    let spelled = spelled_plain(place, text);
    let path = path_of(alloc, spelled)?;
    Ok((path, spelled.len()))
}

/// The path that ends a line, after a space; it is missing where there is none.
#[tactic(auto, unfolding(plain_model::specs::Fields::last_path_in))]
pub fn read_last_path(alloc: Global, text: Option<&[u8]>) -> Result<Path, FieldFault>
    ensures { Gives (λ path. path) result (last_path_in (option_copied text.entry)) }
{
    let Some(text) = text else {
        return Err(FieldFault::Bad(Why::BadPath));
    };
    let (path, _) = read_path(alloc, text, Place::Last)?;
    Ok(path)
}
