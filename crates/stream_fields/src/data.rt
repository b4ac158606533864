//! Blocks of data: where they end.
ghost use Rattle.std.specs.Prelude.{
  ◌≡◌,
  ◌≤◌,
  [],
  length,
  take,
  drop,
  bytes_eq,
  IfSome,
};
ghost use Rattle.std.specs.Option.{option_map, option_copied};
ghost use Rattle.plain_model.specs.declared.fault.Why.TheVariants.{BadData};
ghost use Rattle.plain_model.specs.Fields.{
  data_text,
  delimiter_in,
  delimited,
  extent_in,
  block_after,
  or_defect as or_defect_field,
};
ghost use Rattle.stream_fields.specs.Blocks.{EndsAt, IsFirstLine, SaysExtent};

use crate::fault::or_defect;
use crate::lines::{place_of, words};
use crate::numbers::{is_number, number_up_to};
use plain_model::Why;

/// How far a block goes.
#[derive(Clone, Copy, Debug)]
pub enum Extent<'a> {
    /// So many bytes.
    Counted(u64),
    /// More bytes than what was asked for.
    Longer,
    /// Lines up to one that equals the delimiter.
    Delimited(&'a [u8]),
}

// What is after the word `data` and a space.
#[tactic(auto, unfolding(plain_model::specs::Fields::data_text))]
fn text_of_data(line: &[u8]) -> Option<&[u8]>
    ensures { option_copied result ≡ data_text line.now }
{
    // Mostly the line is so, and no space is searched for.
    if let [b'd', b'a', b't', b'a', b' ', text @ ..] = line {
        return Some(text);
    }
    let (word, text) = words(line);
    if word == b"data".as_slice() {
        text
    } else {
        None
    }
}

// The delimiter after `<<`, which has one byte or more.
fn delimiter_of(text: &[u8]) -> Option<&[u8]>
    ensures value { or_defect_field BadData (option_copied result) ≡ delimiter_in text.now }
    ensures some { IfSome result (λ delimiter. 1 ≤ length delimiter.now) }
{
    match text {
        [b'<', b'<', _, ..] => Some(&text[2..]),
        _ => None,
    }
}

/// How far the block after a line `data COUNT` or `data <<DELIMITER` goes, where a count is at most so great. (git-fast-import,
/// `data`.)
pub fn extent_up_to(most: u64, line: &[u8]) -> Result<Extent<'_>, Why>
    ensures { SaysExtent most result (extent_in line.now) }
{
    let Some(text) = text_of_data(line) else {
        return Err(Why::BadData);
    };
    if is_number(text) {
        return match number_up_to(most, text) {
            Some(count) => Ok(Extent::Counted(count)),
            None => Ok(Extent::Longer),
        };
    }
    match delimiter_of(text) {
        Some(delimiter) => Ok(Extent::Delimited(delimiter)),
        None => Err(Why::BadData),
    }
}

// How many bytes the first line has, and how many are before what follows it.
fn sizes_of_line(text: &[u8]) -> (usize, usize)
    ensures { IsFirstLine text.now result.0 result.1 }
{
    match place_of(b'\n', text) {
        Some(at) => (at, at + 1),
        None => (text.len(), text.len()),
    }
}

fn are_same(left: &[u8], right: &[u8]) -> bool
    ensures { result ≡ bytes_eq left.now right.now }
{
    left == right
}

// How many bytes are before the line of the delimiter, and how many before what follows it.
fn delimited_end(delimiter: &[u8], text: &[u8]) -> Option<(usize, usize)>
    requires { 1 ≤ length delimiter.now }
    ensures value { option_map (λ x. (take x.0 text.now, drop x.1 text.now)) result
        ≡ delimited delimiter.now [] [] text.now }
    ensures within { IfSome result (λ x. (x.0 ≤ length text.now) × (x.1 ≤ length text.now)) }
{
    let mut at = 0;
    while at < text.len() {
        let rest = &text[at..];
        let (size, next) = sizes_of_line(rest);
        if are_same(&rest[..size], delimiter) {
            return Some((at, at + next));
        }
        at += next;
    }
    None
}

/// How many bytes of a text are the block after a line `data COUNT` or `data <<DELIMITER`, and how many are before
/// what follows it. A count is compared before anything is taken. (git-fast-import, `data`.)
#[tactic(auto, unfolding(plain_model::specs::Fields::block_after))]
pub fn block_end(head: &[u8], text: &[u8]) -> Result<(usize, usize), Why>
    ensures { EndsAt text.now result (block_after (extent_in head.now) text.now) }
{
    match extent_up_to(text.len() as u64, head)? {
        Extent::Counted(count) => Ok((count as usize, count as usize)),
        Extent::Longer => Err(Why::Truncated),
        Extent::Delimited(delimiter) => {
            or_defect(Why::Truncated, delimited_end(delimiter, text))
        }
    }
}
