//! Paths in quotes: what they stand for.
ghost use Rattle.std.specs.Prelude.{◌≡◌, IfOk, IfSome, length, drop, ◌≤◌};
ghost use Rattle.std.specs.Option.{option_map};
ghost use Rattle.plain_model.specs.Fields.{turn, unquoted, escaped, is_octal};
ghost use Rattle.plain_model.specs.Fields.Quoting.{Between};
ghost use Rattle.stream_fields.specs.Quotes.{
  quoting_of,
  turn_of,
  IsWithinByte,
  StaysWithinByte,
};

use plain_model::{Items, NoMemory, Text};
use std::alloc::Global;

/// Where a quoted text is: between spellings of bytes, after a backslash, or after one or two octal digits,
/// which say a number so far.
#[derive(Clone, Copy)]
pub enum QuotePlace {
    Between,
    Escaping,
    OneDigit(u8),
    TwoDigits(u8),
}

/// What the next byte of a quoted text does.
#[derive(Clone, Copy)]
pub enum QuoteStep {
    Ends,
    Says(u8),
    GoesOn(QuotePlace),
    Unfit,
}

// What an escaped byte stands for.
fn escape(byte: u8) -> Option<u8>
    ensures { result ≡ escaped byte }
{
    match byte {
        b'a' => Some(7),
        b'b' => Some(8),
        b'f' => Some(12),
        b'n' => Some(b'\n'),
        b'r' => Some(b'\r'),
        b't' => Some(b'\t'),
        b'v' => Some(11),
        b'\\' => Some(b'\\'),
        b'"' => Some(b'"'),
        _ => None,
    }
}

fn is_octal_digit(byte: u8) -> bool
    ensures { result ≡ is_octal byte }
{
    byte >= b'0' && byte <= b'7'
}

#[tactic(auto, unfolding(plain_model::specs::Fields::turn))]
fn step(place: QuotePlace, byte: u8) -> QuoteStep
    requires { IsWithinByte place }
    ensures turn { turn_of result ≡ turn (quoting_of place) byte }
    ensures within { StaysWithinByte result }
{
    match place {
        QuotePlace::Between => match byte {
            b'"' => QuoteStep::Ends,
            b'\\' => QuoteStep::GoesOn(QuotePlace::Escaping),
            _ => QuoteStep::Says(byte),
        },
        QuotePlace::Escaping => {
            if byte >= b'0' && byte <= b'3' {
                return QuoteStep::GoesOn(QuotePlace::OneDigit(byte - b'0'));
            }
            match escape(byte) {
                Some(value) => QuoteStep::Says(value),
                None => QuoteStep::Unfit,
            }
        }
        QuotePlace::OneDigit(value) => {
            if is_octal_digit(byte) {
                QuoteStep::GoesOn(QuotePlace::TwoDigits(8 * value + (byte - b'0')))
            } else {
                QuoteStep::Unfit
            }
        }
        QuotePlace::TwoDigits(value) => {
            if is_octal_digit(byte) {
                QuoteStep::Says(8 * value + (byte - b'0'))
            } else {
                QuoteStep::Unfit
            }
        }
    }
}

/// The bytes for which a quoted text is after its first quote, and how many bytes go up to the quote that
/// ends it; none where an escape isn't one, or no quote ends it.
pub fn unquote(alloc: Global, text: &[u8]) -> Result<Option<(Text, usize)>, NoMemory>
    ensures value { IfOk result (λ found. option_map (λ x. (x.0, drop x.1 text.now)) found ≡ unquoted Between text.now) }
    ensures within { IfOk result (λ found. IfSome found (λ x. x.1 ≤ length text.now)) }
{
    let mut bytes = Items::empty(alloc);
    let mut place = QuotePlace::Between;
    for (at, byte) in text.iter().enumerate() {
        match step(place, *byte) {
            QuoteStep::Ends => return Ok(Some((bytes, at + 1))),
            QuoteStep::Says(value) => {
                bytes.push(value)?;
                place = QuotePlace::Between;
            }
            QuoteStep::GoesOn(to) => place = to,
            QuoteStep::Unfit => return Ok(None),
        }
    }
    Ok(None)
}
