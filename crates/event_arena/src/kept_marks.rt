//! Whether the marks of events stayed as they were.
ghost use Rattle.std.specs.Prelude.{◌≡◌, ◌++◌, option_to_list, true};
ghost use Rattle.event_arena.specs.Touched.{KeepMarks};
ghost use Rattle.plain_model.specs.Lookups.{event_marks};

use crate::table::EventTable;
use plain_model::{AnyId, Mark, PlainEvent};

// The mark of an event, if it has one, and its aliases.
fn marks(event: &PlainEvent) -> (Option<Mark>, &[Mark])
    ensures { event_marks event.now ≡ option_to_list result.0 ++ result.1.now }
{
    match event {
        PlainEvent::Blob { mark, .. } => (Some(*mark), &[]),
        PlainEvent::Commit { mark, aliases, .. } => (Some(*mark), aliases.as_slice()),
        PlainEvent::Tag { mark, .. } => (*mark, &[]),
        _ => (None, &[]),
    }
}

// Whether two events have the same marks.
fn has_same_marks(old: &PlainEvent, new: &PlainEvent) -> bool
    ensures { result ≡ true → event_marks new.now ≡ event_marks old.now }
{
    let (mark, aliases) = marks(old);
    let (other, others) = marks(new);
    mark == other && aliases == others
}

/// Whether each of these events that is there after was there before, with the same marks.
pub fn keep_marks(before: &EventTable, after: &EventTable, ids: &[AnyId]) -> bool
    ensures { result ≡ true → KeepMarks ids.now before.now after.now }
{
    for id in ids {
        if let Some(new) = after.event(*id) {
            let Some(old) = before.event(*id) else {
                return false;
            };
            if !has_same_marks(old, new) {
                return false;
            }
        }
    }
    true
}
