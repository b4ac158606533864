//! What is looked for in the list behind, in the order in which it is refused.
ghost use Rattle.std.specs.Prelude.{◌≡◌, ◌≤◌, ◌+◌, ◌∷◌, [], length, nat_lt, None, SomeIff};
ghost use Rattle.std.specs.List.{list_any};
ghost use Rattle.std.specs.Option.{option_or};
ghost use Rattle.edit_laws.specs.Checking.{unless};
ghost use Rattle.edit_laws.specs.Passing.{limit_fault};
ghost use Rattle.graft_laws.specs.Faults.{fault_after, long_name_fault};
ghost use Rattle.graft_laws.specs.Names.{names_of};
ghost use Rattle.manifest_cache.specs.Kept.{AgreesWith};
ghost use Rattle.plain_model.specs.Faults.{Returns};
ghost use Rattle.plain_model.specs.Histories.{IsLinkedPast, past};
ghost use Rattle.plain_model.specs.Lookups.{event_marks, marks_of};
ghost use Rattle.plain_model.specs.declared.limit.TheConstants.{MAX_MARK, MAX_NAME_BYTES};

use event_arena::{Events, Plan};
use manifest_cache::Manifests;
use plain_model::{Fault, Halt, MAX_MARK, MAX_NAME_BYTES, PlainEvent, Which};
use plan_steps::limit_passed;

// How many marks an event has.
fn mark_count(event: &PlainEvent) -> u64
    ensures count { result ≡ length (event_marks event.now) }
{
    match event {
        PlainEvent::Blob { .. } => 1,
        PlainEvent::Commit { aliases, .. } => 1 + aliases.as_slice().len() as u64,
        PlainEvent::Tag { mark, .. } => match mark {
            Some(_) => 1,
            None => 0,
        },
        PlainEvent::Reset { .. } => 0,
        PlainEvent::Pass { .. } => 0,
    }
}

/// The mark behind those of a history that are given anew from a first one on; none where the last of them would be no mark any more.
pub fn mark_behind(events: &Events, first: u64) -> Option<u64>
    requires { first ≤ MAX_MARK + 1 }
    ensures { SomeIff result (first + length (marks_of events.now.list) ≤ MAX_MARK + 1)
        (first + length (marks_of events.now.list)) }
{
    let mut next = first;
    for place in 0..events.count() {
        let count = mark_count(events.nth(place));
        if MAX_MARK + 1 - next < count {
            return None;
        }
        next += count;
    }
    Some(next)
}

// Whether an event's name is longer than one may be.
fn has_long_name(event: &PlainEvent) -> bool
    ensures { result ≡ list_any (λ name. nat_lt MAX_NAME_BYTES (length name)) (names_of (event.now ∷ [])) }
{
    let name = match event {
        PlainEvent::Commit { branch, .. } => branch.as_slice(),
        PlainEvent::Reset { branch, .. } => branch.as_slice(),
        PlainEvent::Tag { name, .. } => name.as_slice(),
        PlainEvent::Blob { .. } => return false,
        PlainEvent::Pass { .. } => return false,
    };
    MAX_NAME_BYTES < name.len() as u64
}

// Whether some event of a plan has such a name.
fn has_long_names(plan: &Plan) -> bool
    ensures { result ≡ list_any (λ name. nat_lt MAX_NAME_BYTES (length name)) (names_of plan.now.after) }
{
    for place in 0..plan.count() {
        if has_long_name(plan.nth(place)) {
            return true;
        }
    }
    false
}

// The first limit of a plan that is passed.
fn passed(plan: &Plan) -> Option<Fault>
    ensures { result ≡ option_or (limit_fault plan.now.after) (long_name_fault plan.now.after) }
{
    if let Some(fault) = limit_passed(plan) {
        return Some(fault);
    }
    if !has_long_names(plan) {
        return None;
    }
    Some(Fault::Limit {
        which: Which::NameBytes,
        number: MAX_NAME_BYTES,
    })
}

/// Judges what a plan leaves: the first limit that is passed, and where roots don't begin without files the first operation that a
/// tree refuses.
pub fn judge(manifests: &mut Manifests, plan: &Plan, prune: bool) -> Result<(), Halt>
    requires agrees { AgreesWith plan.now.before manifests.old }
    requires earlier { long_name_fault plan.now.after ≡ None → IsLinkedPast (past plan.now.after) }
    ensures judged { Returns (λ done. done) result (unless (fault_after prune plan.now.after)) }
    ensures kept { manifests.new ≡ manifests.old }
{
    if let Some(fault) = passed(plan) {
        return Err(Halt::Refused(fault));
    }
    if prune {
        return Ok(());
    }
    manifests.check(plan)
}
