//! Lines and words of a text, each with what follows it.
ghost use Rattle.std.specs.Prelude.{
  ◌≡◌,
  ◌==◌,
  ◌≤◌,
  ◌<◌,
  not,
  count_by,
  length,
  take,
  IfSome,
  if◌then◌else◌,
};
ghost use Rattle.std.specs.Int.{w64, trailing_zeros};
ghost use Rattle.std.specs.List.{position, prefix_len};
ghost use Rattle.std.specs.Option.{option_map, option_copied};
ghost use Rattle.plain_model.specs.Fields.{first_word, after_space};
ghost use Rattle.plain_model.specs.Parts.{line_at, rest_after, is_lf, skip_lf, cut_at};

use std::simd::prelude::*;

// So many bytes are compared at once: more than most lines of a stream have.
const LANES: usize = 32;

// How many bytes are before the lowest bit that is set, or all of so many.
fn before_lowest(mask: u64, lanes: usize) -> usize
    ensures { result ≡ (if mask == 0 then lanes else trailing_zeros w64 mask) }
{
    if mask == 0 {
        lanes
    } else {
        mask.trailing_zeros() as usize
    }
}

// How many of the first bytes come before the first such byte.
fn run_before(byte: u8, text: &[u8]) -> usize
    requires { LANES ≤ length text.now }
    ensures { result ≡ prefix_len (λ b. not (b == byte)) (take 32 text.now) }
{
    let same = u8x32::from_slice(text).simd_eq(u8x32::splat(byte));
    before_lowest(same.to_bitmask(), LANES)
}

/// The place of the first such byte.
pub fn place_of(byte: u8, text: &[u8]) -> Option<usize>
    ensures value { result ≡ position (λ b. b == byte) text.now }
    ensures within { IfSome result (λ at. at < length text.now) }
{
    // Mostly the byte is near, and a search for what is far would take longer to begin than this takes.
    if text.len() >= LANES {
        let run = run_before(byte, text);
        if run < LANES {
            return Some(run);
        }
    }
    memchr::memchr(byte, text)
}

/// What is before the first such byte, and what is after it.
#[tactic(auto, unfolding(plain_model::specs::Parts::cut_at))]
pub fn cut(byte: u8, text: &[u8]) -> Option<(&[u8], &[u8])>
    ensures { option_map (λ x. (x.0.now, x.1.now)) result ≡ cut_at byte text.now }
{
    let at = place_of(byte, text)?;
    Some((&text[..at], &text[at + 1..]))
}

/// The first line without its LF, and what follows it; none at the end of the text.
#[tactic(auto, unfolding(plain_model::specs::Parts::line_at))]
pub fn first_line(text: &[u8]) -> Option<(&[u8], &[u8])>
    ensures { option_map (λ x. (x.0.now, x.1.now)) result ≡ line_at text.now }
{
    if text.is_empty() {
        return None;
    }
    match place_of(b'\n', text) {
        Some(at) => Some((&text[..at], &text[at + 1..])),
        None => Some((text, &[])),
    }
}

/// How many LFs a text has.
pub fn count_line_ends(text: &[u8]) -> usize
    ensures { result ≡ count_by is_lf text.now }
{
    text.iter().filter(|b| **b == b'\n').count()
}

/// What is after a word, where the text begins with it.
#[tactic(auto, unfolding(plain_model::specs::Parts::rest_after))]
pub fn strip<'a>(word: &[u8], text: &'a [u8]) -> Option<&'a [u8]>
    ensures { option_copied result ≡ rest_after word.now text.now }
{
    text.strip_prefix(word)
}

/// What follows the one LF that may be there.
pub fn skip_line_feed(text: &[u8]) -> &[u8]
    ensures { result.now ≡ skip_lf text.now }
{
    match text {
        [b'\n', rest @ ..] => rest,
        _ => text,
    }
}

// The place of the first space. Words are short: to look at each byte in turn finds it sooner than a search that is made
// for long texts.
fn first_space(text: &[u8]) -> Option<usize>
    ensures value { result ≡ position (λ b. b == 32) text.now }
    ensures within { IfSome result (λ at. at < length text.now) }
{
    text.iter().position(|b| *b == b' ')
}

// What is before the first space, and what is after it.
#[tactic(auto, unfolding(plain_model::specs::Parts::cut_at))]
fn cut_word(text: &[u8]) -> Option<(&[u8], &[u8])>
    ensures { option_map (λ x. (x.0.now, x.1.now)) result ≡ cut_at 32 text.now }
{
    let at = first_space(text)?;
    Some((&text[..at], &text[at + 1..]))
}

/// The first word, and what is after the space that ends it, if one does.
pub fn words(text: &[u8]) -> (&[u8], Option<&[u8]>)
    ensures first { result.0.now ≡ first_word text.now }
    ensures after { option_copied result.1 ≡ after_space text.now }
{
    match cut_word(text) {
        Some((word, rest)) => (word, Some(rest)),
        None => (text, None),
    }
}
