//! The words of edits that set fields.
ghost use Rattle.std.specs.Prelude.{◌≡◌, option_and_then};
ghost use Rattle.plain_model.specs.Faults.{Returns};
ghost use Rattle.event_fields.specs.Shifts.{shift_in, zone_in};
ghost use Rattle.event_fields.specs.Values.{field_of, value_of};
ghost use Rattle.script_lines.specs.Texts.{or_at_fault, text_before, whole_in};
ghost use Rattle.script_reader.specs.FieldWords.{
  setfield_words,
  timeoffset_words,
  value_within,
  zone_within,
};

use crate::edit::Edit;
use event_fields::{Field, FieldValue, Zone, shift_in};
use plain_model::Halt;
use script_lines::{Word, at_fault, bad_words, or_at_fault, text_before};
use std::alloc::Global;

// The seconds that a word says.
fn shift(word: &Word) -> Option<i64>
    ensures { result ≡ option_and_then shift_in (whole_in word.now) }
{
    shift_in(word.whole()?.as_bytes())
}

// The zone that a word says.
fn zone(word: &Word) -> Option<Zone>
    ensures { result ≡ option_and_then zone_in (whole_in word.now) }
{
    Zone::of(word.whole()?.as_bytes())
}

// `[ZONE]`
fn zone_within(alloc: Global, words: &[Word]) -> Result<Option<Zone>, Halt>
    ensures { Returns (λ zone. zone) result (zone_within words.now) }
{
    match words {
        [] => Ok(None),
        [word] => Ok(Some(or_at_fault(alloc, word, zone(word))?)),
        [word, next, ..] => {
            let _ = or_at_fault(alloc, word, zone(word))?;
            Err(at_fault(alloc, next))
        }
    }
}

/// `timeoffset SECONDS [ZONE]`, after the command word.
#[tactic(auto, unfolding(crate::specs::FieldWords::timeoffset_words))]
pub fn time_offset(alloc: Global, words: &[Word]) -> Result<Edit, Halt>
    ensures { Returns (λ what. what) result (timeoffset_words words.now) }
{
    let [word, others @ ..] = words else {
        return Err(bad_words(alloc, b"timeoffset"));
    };
    let seconds = or_at_fault(alloc, word, shift(word))?;
    let zone = zone_within(alloc, others)?;
    Ok(Edit::TimeOffset { seconds, zone })
}

// The field that a word is.
fn field(word: &Word) -> Option<Field>
    ensures { result ≡ option_and_then field_of (whole_in word.now) }
{
    Field::of(word.whole()?.as_bytes())
}

// The value of a field that a word is, before such others.
fn value(alloc: Global, field: Field, others: &[Word], word: &Word) -> Result<FieldValue, Halt>
    ensures { Returns (λ value. value) result
        (or_at_fault word.now (option_and_then (value_of field) (text_before others.now word.now))) }
{
    let text = text_before(alloc, others, word)?;
    let value = FieldValue::of(alloc, field, text.as_bytes())?;
    or_at_fault(alloc, word, value)
}

// The same after FIELD.
fn value_within(alloc: Global, field: Field, words: &[Word]) -> Result<Edit, Halt>
    ensures { Returns (λ what. what) result (value_within field words.now) }
{
    let [word, others @ ..] = words else {
        return Err(bad_words(alloc, b"setfield"));
    };
    let value = value(alloc, field, others, word)?;
    match others {
        [] => Ok(Edit::SetField(value)),
        [next, ..] => Err(at_fault(alloc, next)),
    }
}

/// `setfield FIELD VALUE`, after the command word.
#[tactic(auto, unfolding(crate::specs::FieldWords::setfield_words))]
pub fn set_field(alloc: Global, words: &[Word]) -> Result<Edit, Halt>
    ensures { Returns (λ what. what) result (setfield_words words.now) }
{
    let [word, others @ ..] = words else {
        return Err(bad_words(alloc, b"setfield"));
    };
    let field = or_at_fault(alloc, word, field(word))?;
    value_within(alloc, field, others)
}
