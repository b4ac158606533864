//! Places for words in a line.
ghost use Rattle.std.specs.Prelude.{
  ◌≡◌,
  ◌++◌,
  ◌∷◌,
  ◌-◌,
  ◌<◌,
  ◌≤◌,
  [],
  length,
  option_map,
  slice_get,
  slice_index,
  IfOk,
  IfSome,
};
ghost use Rattle.plain_model.specs.Faults.{Returns};
ghost use Rattle.plain_model.specs.Numbers.{value_after};
ghost use Rattle.macro_lines.specs.Places.{digits_at, filled, word_of};
ghost use Rattle.macro_lines.specs.Put.{Fills};
ghost use Rattle.plain_model.specs.declared.fault.Fault.TheVariants.{BadWords};

use crate::line::{Line, with_piece};
use plain_model::{Fault, Halt, Items, NoMemory};
use script_lines::ScriptText;
use std::alloc::Global;

// A place for a word, without its `{`: the word's number, and its digits as they are spelled.
#[derive(Drop)]
struct Place<'a> {
    number: usize,
    digits: &'a [u8],
}

// The number of a digit.
fn digit_value(digit: u8) -> usize
    requires { 48 ≤ digit }
    ensures { result ≡ digit - 48 }
{
    usize::from(digit - b'0')
}

// The place that a text begins with, after its `{`.
fn place_at(bytes: &[u8]) -> Option<Place<'_>>
    ensures digits { option_map (λ place. place.digits.now) result ≡ digits_at bytes.now }
    ensures number { IfSome result
        (λ place. place.number ≡ value_after 0 place.digits.now) }
    ensures within { IfSome result (λ place. length place.digits.now < length bytes.now) }
    ensures closed { IfSome result
        (λ place. slice_index bytes.now (length place.digits.now) ≡ 125) }
{
    match bytes {
        [a, b'}', ..] if a.is_ascii_digit() => Some(Place {
            number: digit_value(*a),
            digits: &bytes[..1],
        }),
        [a, b, b'}', ..] if a.is_ascii_digit() && b.is_ascii_digit() => Some(Place {
            number: 10 * digit_value(*a) + digit_value(*b),
            digits: &bytes[..2],
        }),
        _ => None,
    }
}

// The refusal of a place whose word is missing, as it is spelled.
fn missing_word(alloc: Global, digits: &[u8]) -> Result<Fault, NoMemory>
    ensures { IfOk result (λ fault. fault ≡ BadWords (123 ∷ (digits.now ++ 125 ∷ []))) }
{
    let mut word = Items::new(alloc)?;
    word.push(b'{')?;
    word.push_all(digits)?;
    word.push(b'}')?;
    Ok(Fault::BadWords { word })
}

// The word for a place.
fn word_for<'a>(alloc: Global, words: &'a [ScriptText], place: &Place<'_>) -> Result<&'a str, Halt>
    requires { place.now.number ≡ value_after 0 place.now.digits.now }
    ensures { Returns (λ word. word.now) result
        (word_of place.now.digits.now (slice_get words.now (value_after 0 place.now.digits.now))) }
{
    match words.get(place.number) {
        Some(word) => Ok(word.as_str()),
        None => Err(Halt::Refused(missing_word(alloc, place.digits)?)),
    }
}

/// A line with words in its places, put together after what was begun. What a word puts in isn't looked at again. Refused where the word
/// for a place is missing.
#[tactic(auto, unfolding(crate::specs::Places::filled))]
pub fn filled(alloc: Global, words: &[ScriptText], text: &str, begun: Line) -> Result<Line, Halt>
    ensures { Fills begun result (filled words.now text.now) }
{
    let mut line = begun;
    let mut rest = text;
    while let Some((front, after)) = rest.split_once('{') {
        line = with_piece(line, front)?;
        match place_at(after.as_bytes()) {
            Some(place) => {
                let word = word_for(alloc, words, &place)?;
                line = with_piece(line, word)?;
                rest = &after[place.digits.len() + 1..];
            }
            None => {
                line = with_piece(line, "{")?;
                rest = after;
            }
        }
    }
    Ok(with_piece(line, rest)?)
}
