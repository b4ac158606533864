//! Who did something, and when, as it is spelled.
ghost use Rattle.std.specs.Prelude.{◌≡◌, ◌-◌, length, take};
ghost use Rattle.std.specs.Option.{option_map, option_copied};
ghost use Rattle.plain_model.specs.Fields.{person_in};
ghost use Rattle.plain_model.specs.Parts.{name_of, zone_of, when_of, when_after, person_parts};
ghost use Rattle.plain_model.specs.People.{is_clean};
ghost use Rattle.stream_fields.specs.Answers.{Gives};

use crate::fault::{FieldFault, or_defect};
use crate::lines::{cut, strip};
use crate::numbers::number_up_to;
use crate::repeated::People;
use plain_model::{MAX_SECONDS, Signed, When, Why};
use std::alloc::Global;

// The name before an email: nothing, or what is before a last space.
#[tactic(auto, unfolding(plain_model::specs::Parts::name_of))]
fn name_before(part: &[u8]) -> Option<&[u8]>
    ensures { option_copied result ≡ name_of part.now }
{
    if part.is_empty() {
        return Some(&[]);
    }
    let last = part.len() - 1;
    if part[last] == b' ' {
        Some(&part[..last])
    } else {
        None
    }
}

fn is_clean_text(text: &[u8]) -> bool
    ensures { result ≡ is_clean text.now }
{
    text.iter().all(|b| *b != b'<' && *b != b'>' && *b != 0)
}

// The moment of these seconds, with a sign and four digits.
#[tactic(auto, unfolding(plain_model::specs::Parts::zone_of))]
fn with_zone(seconds: u64, text: &[u8]) -> Option<When>
    ensures { result ≡ zone_of seconds text.now }
{
    match text {
        [] => None,
        [sign, zone @ ..] => {
            if !((*sign == b'+' || *sign == b'-') && zone.len() == 4) {
                return None;
            }
            let offset = number_up_to(9999, zone)? as u16;
            Some(When {
                seconds,
                minus: *sign == b'-',
                offset,
            })
        }
    }
}

/// When: seconds, a space, a sign and four digits. (git-fast-import, `<when>`.)
#[tactic(auto, unfolding(plain_model::specs::Parts::when_of))]
pub fn moment(text: &[u8]) -> Option<When>
    ensures { result ≡ when_of text.now }
{
    let (seconds, rest) = cut(b' ', text)?;
    let seconds = number_up_to(MAX_SECONDS, seconds)?;
    with_zone(seconds, rest)
}

// The moment after an email and a space.
#[tactic(auto, unfolding(plain_model::specs::Parts::when_after))]
fn moment_after(tail: &[u8]) -> Option<When>
    ensures { result ≡ when_after tail.now }
{
    moment(strip(b" ", tail)?)
}

/// A name, an email in `<` and `>`, and what follows the email.
#[tactic(auto, unfolding(plain_model::specs::Parts::person_parts))]
pub fn parts_of_person(text: &[u8]) -> Option<(&[u8], &[u8], &[u8])>
    ensures { option_map (λ x. (x.0.now, x.1.now, x.2.now)) result ≡ person_parts text.now }
{
    let (front, rest) = cut(b'<', text)?;
    let (email, tail) = cut(b'>', rest)?;
    let name = name_before(front)?;
    if is_clean_text(name) && is_clean_text(email) {
        Some((name, email, tail))
    } else {
        None
    }
}

// The text up to its tail.
fn before_tail<'a>(text: &'a [u8], tail: &[u8]) -> &'a [u8]
    ensures { result.now ≡ take (length text.now - length tail.now) text.now }
{
    &text[..text.len().saturating_sub(tail.len())]
}

// Who and when, where it isn't whoever was read last.
#[tactic(auto, unfolding(plain_model::specs::Fields::person_in))]
fn read_other(alloc: Global, people: &mut People, text: &[u8]) -> Result<Signed, FieldFault>
    ensures { Gives (λ who. who) result (person_in text.now) }
{
    let Some((name, email, tail)) = parts_of_person(text) else {
        return Err(FieldFault::Bad(Why::BadPerson));
    };
    let Some(when) = moment_after(tail) else {
        return Err(FieldFault::Bad(Why::BadWhen));
    };
    let front = before_tail(text, tail);
    let person = people.shared(alloc, front, name, email)?;
    people.keep_spelled(front, &person)?;
    Ok(Signed { person, when })
}

/// Who and when: a name and a space, or nothing; an email in `<` and `>`; seconds; a sign and four digits.
/// (git-fast-import, `committer`.)
#[tactic(auto, unfolding(plain_model::specs::Fields::person_in))]
pub fn read_person(alloc: Global, people: &mut People, text: &[u8]) -> Result<Signed, FieldFault>
    ensures { Gives (λ who. who) result (person_in text.now) }
{
    let Some((person, tail)) = people.spelled(text) else {
        return read_other(alloc, people, text);
    };
    let person = person.share()?;
    let when = or_defect(Why::BadWhen, moment_after(tail))?;
    Ok(Signed { person, when })
}
