//! Whether what is left where commits push forward has too many operations, or a commit too many parents.
ghost use Rattle.std.specs.Prelude.{
  ◌≡◌,
  ◌<◌,
  ◌∷◌,
  [],
  Bool,
  Some,
  length,
  nat_lt,
  slice_get,
};
ghost use Rattle.std.specs.List.{list_any};
ghost use Rattle.plain_model.specs.Lookups.{event_ops, event_parents};
ghost use Rattle.plain_model.specs.declared.limit.TheConstants.{MAX_OPERATIONS, MAX_PARENTS};
ghost use Rattle.plain_model.specs.declared.policy.Lean.{Lean};
ghost use Rattle.plan_steps.specs.Tables.{IsTable};
ghost use Rattle.squash_delete.specs.Fates.{FateIs, given, has_many_parents, left_events, left_some, limit_left};
ghost use Rattle.squash_delete.specs.Sources.{count_ops};

use crate::fates::Fate;
use plain_model::{Fault, MAX_OPERATIONS, MAX_PARENTS, PlainEvent, Which};
use plan_steps::Selected;

// How many operations an event has when it has become what it becomes.
fn count_given(fate: &Fate, event: &PlainEvent) -> u64
    ensures { result ≡ length (event_ops (given fate.now event.now)) }
{
    let PlainEvent::Commit { ops, .. } = event else {
        return 0;
    };
    match fate {
        Fate::Taken { ops, .. } => ops.as_slice().len() as u64,
        _ => ops.as_slice().len() as u64,
    }
}

// Whether it has too many parents then.
fn is_many_given(fate: &Fate, event: &PlainEvent) -> bool
    ensures { result ≡ nat_lt MAX_PARENTS (length (event_parents (given fate.now event.now))) }
{
    let PlainEvent::Commit { parents, .. } = event else {
        return false;
    };
    match fate {
        Fate::Taken { parents, .. } => MAX_PARENTS < parents.as_slice().len() as u64,
        _ => MAX_PARENTS < parents.as_slice().len() as u64,
    }
}

// How many operations are left of the event at a place.
fn count_at(removal: &Selected, fates: &[Fate], place: usize) -> u64
    requires place { place < length removal.now.events }
    requires count { length fates.now ≡ length removal.now.events }
    ensures { (comments : Bool) (tags : Lean) (event : _) →
        IsTable Fate.Same (FateIs removal.now.set removal.now.events comments tags) removal.now.events fates.now →
        slice_get removal.now.events place ≡ Some event →
        result ≡ count_ops (left_some removal.now.set removal.now.events comments tags (event ∷ [])) }
{
    let _count = removal.count();
    if removal.has_at(place) {
        return 0;
    }
    count_given(&fates[place], removal.nth(place))
}

// Whether too many parents are left of it.
fn is_many_at(removal: &Selected, fates: &[Fate], place: usize) -> bool
    requires place { place < length removal.now.events }
    requires count { length fates.now ≡ length removal.now.events }
    ensures { (comments : Bool) (tags : Lean) (event : _) →
        IsTable Fate.Same (FateIs removal.now.set removal.now.events comments tags) removal.now.events fates.now →
        slice_get removal.now.events place ≡ Some event →
        result ≡ has_many_parents (left_some removal.now.set removal.now.events comments tags (event ∷ [])) }
{
    let _count = removal.count();
    if removal.has_at(place) {
        return false;
    }
    is_many_given(&fates[place], removal.nth(place))
}

// Whether there are too many operations.
fn has_many_ops(removal: &Selected, fates: &[Fate]) -> bool
    requires { length fates.now ≡ length removal.now.events }
    ensures { (comments : Bool) (tags : Lean) →
        IsTable Fate.Same (FateIs removal.now.set removal.now.events comments tags) removal.now.events fates.now →
        result ≡ nat_lt MAX_OPERATIONS (count_ops (left_events removal.now.set removal.now.events comments tags)) }
{
    let mut total: u64 = 0;
    for place in 0..removal.count() {
        let count = count_at(removal, fates, place);
        if MAX_OPERATIONS - total < count {
            return true;
        }
        total += count;
    }
    false
}

// Whether a commit has too many parents.
fn has_many_parents(removal: &Selected, fates: &[Fate]) -> bool
    requires { length fates.now ≡ length removal.now.events }
    ensures { (comments : Bool) (tags : Lean) →
        IsTable Fate.Same (FateIs removal.now.set removal.now.events comments tags) removal.now.events fates.now →
        result ≡ has_many_parents (left_events removal.now.set removal.now.events comments tags) }
{
    for place in 0..removal.count() {
        if is_many_at(removal, fates, place) {
            return true;
        }
    }
    false
}

/// The limit that is passed, operations first.
pub fn limit_left(removal: &Selected, fates: &[Fate]) -> Option<Fault>
    requires { length fates.now ≡ length removal.now.events }
    ensures { (comments : Bool) (tags : Lean) →
        IsTable Fate.Same (FateIs removal.now.set removal.now.events comments tags) removal.now.events fates.now →
        result ≡ limit_left (left_events removal.now.set removal.now.events comments tags) }
{
    if has_many_ops(removal, fates) {
        return Some(Fault::Limit {
            which: Which::Operations,
            number: MAX_OPERATIONS,
        });
    }
    if has_many_parents(removal, fates) {
        return Some(Fault::Limit {
            which: Which::Parents,
            number: MAX_PARENTS,
        });
    }
    None
}
