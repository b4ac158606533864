//! Numbers in decimal digits, and marks.
ghost use Rattle.std.specs.Prelude.{
  ◌≡◌,
  ◌≤◌,
  ◌*◌,
  ◌+◌,
  ◌-◌,
  ◌^◌,
  IfSome,
  IfNone,
  is_some,
};
ghost use Rattle.std.specs.List.{list_all};
ghost use Rattle.plain_model.specs.Fields.{mark_in};
ghost use Rattle.plain_model.specs.Numbers.{is_digit};
ghost use Rattle.plain_model.specs.Parts.{number_of, number_within, mark_of};

use crate::fault::or_defect;
use plain_model::{MAX_MARK, Mark, Why};

// The number with one more digit, if it fits.
fn next_value(value: u64, digit: u8) -> Option<u64>
    ensures some { IfSome result (λ next. next ≡ 10 * value + digit) }
    ensures none { IfNone result (2 ^ 64 ≤ 10 * value + digit) }
{
    value.checked_mul(10)?.checked_add(u64::from(digit))
}

/// The number that digits say, leading zeros included, if it is at most so great.
#[tactic(auto, using(crate::proofs::DigitLemmas::value_from_above), unfolding(plain_model::specs::Parts::number_within, plain_model::specs::Parts::number_of),)]
pub fn number_up_to(most: u64, text: &[u8]) -> Option<u64>
    ensures value { result ≡ number_within most text.now }
    ensures within { IfSome result (λ n. n ≤ most) }
{
    if text.is_empty() {
        return None;
    }
    let mut value = 0u64;
    for digit in text {
        if *digit < b'0' || *digit > b'9' {
            return None;
        }
        value = next_value(value, *digit - b'0')?;
        if value > most {
            return None;
        }
    }
    Some(value)
}

/// Whether the text is digits that say a number, however great.
#[tactic(auto, unfolding(plain_model::specs::Parts::number_of))]
pub fn is_number(text: &[u8]) -> bool
    ensures { result ≡ is_some (number_of text.now) }
{
    !text.is_empty() && are_digits(text)
}

fn are_digits(text: &[u8]) -> bool
    ensures { result ≡ list_all is_digit text.now }
{
    text.iter().all(|b| *b >= b'0' && *b <= b'9')
}

/// The mark that digits say.
#[tactic(auto, unfolding(plain_model::specs::Parts::mark_of))]
pub fn mark_of_digits(digits: &[u8]) -> Option<Mark>
    ensures { result ≡ mark_of digits.now }
{
    Mark::new(number_up_to(MAX_MARK, digits)?)
}

/// A mark after its colon. (git-fast-import, `mark`.)
#[tactic(auto, unfolding(plain_model::specs::Fields::mark_in))]
pub fn read_mark(text: &[u8]) -> Result<Mark, Why>
    ensures { result ≡ mark_in text.now }
{
    match text {
        [b':', digits @ ..] => or_defect(Why::BadMark, mark_of_digits(digits)),
        _ => Err(Why::BadMark),
    }
}
