//! Texts of days and moments.
ghost use Rattle.std.specs.Prelude.{
  ◌≡◌,
  ◌-◌,
  ◌≤◌,
  ◌<◌,
  ◌+◌,
  drop,
  length,
  option_map,
  slice_get,
  take,
  true,
  if◌then◌else◌,
  List,
  ℕ,
  IfSome,
  None,
  Some,
};
ghost use Rattle.civil_dates.specs.Dates.{is_leap, month_lengths};
ghost use Rattle.selection_eval.specs.Days.{
  are_digits,
  at_last_sign,
  email_in,
  has_day,
  are_date,
  is_below,
  is_count,
  is_date,
  is_date_form,
  is_day,
  is_moment,
  is_stamp,
  number_in,
  value_of,
};

/// Decimal digits.
fn are_digits(bytes: &[u8]) -> bool
    ensures { result ≡ are_digits bytes.now }
{
    bytes.iter().all(|byte| byte.is_ascii_digit())
}

/// 1 to 19 digits.
pub fn is_count(bytes: &[u8]) -> bool
    ensures { result ≡ is_count bytes.now }
{
    are_digits(bytes) && 1 <= bytes.len() && bytes.len() <= 19
}

/// The number of 19 digits or less.
pub fn value_of(digits: &[u8]) -> u64
    requires digits { are_digits digits.now ≡ true }
    requires few { length digits.now ≤ 19 }
    ensures { result ≡ value_of digits.now }
{
    let mut value = 0;
    for digit in digits {
        value = 10 * value + u64::from(*digit - b'0');
    }
    value
}

// The number that at most 19 digits say.
fn number_in(text: &[u8]) -> Option<u64>
    requires { length text.now ≤ 19 }
    ensures { result ≡ number_in text.now }
{
    if are_digits(text) {
        Some(value_of(text))
    } else {
        None
    }
}

/// Four digits and a hyphen at the front.
pub fn is_date_form(text: &[u8]) -> bool
    ensures { result ≡ is_date_form text.now }
{
    5 <= text.len() && are_digits(&text[..4]) && &text[4..5] == b"-".as_slice()
}

fn is_leap(year: u64) -> bool
    ensures { result ≡ is_leap year }
{
    year % 4 == 0 && (year % 100 != 0 || year % 400 == 0)
}

// Whether the month has the day.
fn has_day(year: u64, month: u64, day: u64) -> bool
    requires { 1 ≤ month }
    ensures { result ≡ has_day day (slice_get (month_lengths year) (month - 1)) }
{
    let february = if is_leap(year) { 29 } else { 28 };
    let lengths: [u64; 12] = [31, february, 31, 30, 31, 30, 31, 31, 30, 31, 30, 31];
    match lengths.get((month - 1) as usize) {
        Some(days) => 1 <= day && day <= *days,
        None => false,
    }
}

// A day of the calendar from 1970 on.
fn is_date(year: u64, month: u64, day: u64) -> bool
    ensures { result ≡ is_date year month day }
{
    1970 <= year && 1 <= month && has_day(year, month, day)
}

// The same of numbers that are there.
fn are_date(year: Option<u64>, month: Option<u64>, day: Option<u64>) -> bool
    ensures { result ≡ are_date year month day }
{
    match (year, month, day) {
        (Some(year), Some(month), Some(day)) => is_date(year, month, day),
        _ => false,
    }
}

/// `YYYY-MM-DD` of a day from 1970 on.
pub fn is_day(text: &[u8]) -> bool
    ensures { result ≡ is_day text.now }
{
    text.len() == 10
        && &text[4..5] == b"-".as_slice()
        && &text[7..8] == b"-".as_slice()
        && are_date(
            number_in(&text[..4]),
            number_in(&text[5..7]),
            number_in(&text[8..10]),
        )
}

// A number that is there is below a bound.
fn is_below(bound: u64, number: Option<u64>) -> bool
    ensures { result ≡ is_below bound number }
{
    match number {
        Some(number) => number < bound,
        None => false,
    }
}

/// `YYYY-MM-DDTHH:MM:SSZ`.
pub fn is_moment(text: &[u8]) -> bool
    ensures { result ≡ is_moment text.now }
{
    text.len() == 20
        && is_day(&text[..10])
        && &text[10..11] == b"T".as_slice()
        && is_below(24, number_in(&text[11..13]))
        && &text[13..14] == b":".as_slice()
        && is_below(60, number_in(&text[14..16]))
        && &text[16..17] == b":".as_slice()
        && is_below(60, number_in(&text[17..19]))
        && &text[19..20] == b"Z".as_slice()
}

// `YYYY-MM-DDTHH:MM:SSZ!`, whatever comes after it.
fn is_stamp(text: &[u8]) -> bool
    requires { 21 ≤ length text.now }
    ensures { result ≡ is_stamp text.now }
{
    is_moment(&text[..20]) && &text[20..21] == b"!".as_slice()
}

/// The moment of a stamp, and what comes after its exclamation mark.
#[tactic(auto, using(crate::proofs::DayTexts::shorter))]
pub fn stamp_parts(text: &[u8]) -> Option<(&[u8], &[u8])>
    ensures { option_map {U = List ℕ × List ℕ} (λ parts. (parts.0.now, parts.1.now)) result
        ≡ (if is_stamp text.now then Some (take 20 text.now, drop 21 text.now) else None) }
{
    if text.len() >= 21 && is_stamp(text) {
        Some((&text[..20], &text[21..]))
    } else {
        None
    }
}

// How many bytes are before the last `#`.
fn last_sign(text: &[u8]) -> Option<usize>
    ensures cut { at_last_sign text.now
        ≡ option_map (λ place. (take place text.now, drop (place + 1) text.now)) result }
    ensures within { IfSome result (λ place. place < length text.now) }
{
    for after in 0..text.len() {
        let place = text.len() - 1 - after;
        if text[place] == b'#' {
            return Some(place);
        }
    }
    None
}

/// An email, and which of several it is, if `#N` says so.
pub fn email_in(text: &[u8]) -> (&[u8], Option<u64>)
    ensures { (result.0.now, result.1) ≡ email_in text.now }
{
    match last_sign(text) {
        Some(place) => {
            let digits = &text[place + 1..];
            if is_count(digits) {
                (&text[..place], Some(value_of(digits)))
            } else {
                (text, None)
            }
        }
        None => (text, None),
    }
}
