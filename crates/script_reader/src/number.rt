//! Numbers among the words of a line.
ghost use Rattle.std.specs.Prelude.{◌≡◌};
ghost use Rattle.script_reader.specs.Numbers.{
  index_in,
  leads_with_zero,
  number_between,
  seconds_in,
};

use stream_fields::number_up_to;

/// The greatest number that a sample begins with. (own)
pub const MAX_START: u64 = u64::MAX;

/// How many digits the number of an operation has at most. (own)
pub const MAX_INDEX_DIGITS: usize = 19;

/// The greatest number of so many digits. (own)
pub const MAX_INDEX: u64 = 9_999_999_999_999_999_999;

/// How many digits a number of seconds has at most. (own)
pub const MAX_SECOND_DIGITS: usize = 9;

/// The greatest number of so many digits. (own)
pub const MAX_COALESCE_SECONDS: u64 = 999_999_999;

/// The seconds between two commits that are joined, where none are said. (reposurgeon manual, `coalesce`)
pub const USUAL_SECONDS: u64 = 90;

fn leads_with_zero(text: &[u8]) -> bool
    ensures { result ≡ leads_with_zero text.now }
{
    match text {
        [first, _, ..] => *first == b'0',
        _ => false,
    }
}

/// The number that a text says in decimal digits, without a zero before them, if it is in a range.
pub fn number_between(least: u64, most: u64, text: &[u8]) -> Option<u64>
    ensures { result ≡ number_between least most text.now }
{
    if leads_with_zero(text) {
        return None;
    }
    let number = number_up_to(most, text)?;
    if least <= number { Some(number) } else { None }
}

/// The number of an operation that a text says in decimal digits, zeros before them as well.
pub fn index_in(text: &[u8]) -> Option<u64>
    ensures { result ≡ index_in text.now }
{
    if text.len() <= MAX_INDEX_DIGITS {
        number_up_to(MAX_INDEX, text)
    } else {
        None
    }
}

/// The number of seconds that a text says in decimal digits, zeros before them as well.
pub fn seconds_in(text: &[u8]) -> Option<u64>
    ensures { result ≡ seconds_in text.now }
{
    if text.len() <= MAX_SECOND_DIGITS {
        number_up_to(MAX_COALESCE_SECONDS, text)
    } else {
        None
    }
}
