//! To which commits tags and resets go.
ghost use Rattle.std.specs.Prelude.{
  ◌≡◌,
  ◌<◌,
  ◌≤◌,
  None,
  Some,
  true,
  is_some,
  length,
  option_and_then,
  slice_get,
  slice_index_or,
  IfOk,
  IsSome,
  OnOk,
};
ghost use Rattle.std.specs.List.{list_any};
ghost use Rattle.event_arena.specs.Changes.{has_target};
ghost use Rattle.plain_model.specs.Lookups.{find_event};
ghost use Rattle.plain_model.specs.declared.id.AnyId.TheVariants.{Commit};
ghost use Rattle.plan_steps.specs.Targets.{AreMoves, EndsWith, lost_target, moving, target_for};
ghost use Rattle.plan_steps.specs.Ways.{AreBackOfRemoved, AreForward};
ghost use Rattle.squash_laws.specs.Removed.{is_removed};
ghost use Rattle.squash_laws.specs.Takings.{moved, takes};

use crate::selection::Selected;
use crate::ways::Leads;
use plain_model::{AnyId, CommitId, Lean, NoMemory, PlainEvent, Policy, Push};
use std::alloc::Global;

/// For the place of each tag and reset of a removed commit the commit to which it goes, if there is one. Where it ends,
/// there is none for any later place.
pub type Targets = Vec<Option<CommitId>>;

/// The commit that a tag or a reset is on.
pub fn target_of(event: &PlainEvent) -> Option<CommitId>
    ensures { result ≡ target_for Some event.now }
{
    match event {
        PlainEvent::Tag { target, .. } => Some(*target),
        PlainEvent::Reset { target, .. } => *target,
        _ => None,
    }
}

/// What a table has for a place.
pub fn target_at(targets: &[Option<CommitId>], place: usize) -> Option<CommitId>
    ensures { result ≡ slice_index_or targets.now place None }
{
    if place < targets.len() {
        targets[place]
    } else {
        None
    }
}

// Whether an id is a tag's or a reset's.
fn is_pointer(id: AnyId) -> bool
    ensures { result ≡ has_target id }
{
    match id {
        AnyId::Tag(_) => true,
        AnyId::Reset(_) => true,
        _ => false,
    }
}

/// The removed commit that the tag or the reset at a place is on, if it is on one. At other events it doesn't look.
pub fn lost_at(removal: &Selected, place: usize) -> Option<CommitId>
    requires { place < length removal.now.events }
    ensures { (event : _) → slice_get removal.now.events place ≡ Some event →
        result ≡ lost_target removal.now.set event }
{
    let _count = removal.count();
    if !is_pointer(removal.list().id_at(place)) {
        return None;
    }
    let target = target_of(removal.nth(place))?;
    if removal.has(target) {
        Some(target)
    } else {
        None
    }
}

// Whether some tag or reset is on a removed commit.
fn is_any_lost(removal: &Selected) -> bool
    ensures { result ≡ list_any (λ e. is_some (lost_target removal.now.set e)) removal.now.events }
{
    let count = removal.count();
    let mut place = removal.next_near(0);
    while place < count {
        if lost_at(removal, place).is_some() {
            return true;
        }
        place = removal.next_near(place + 1);
    }
    false
}

// Where a tag or a reset of a removed commit goes: the way to which it leans, else the other, if there is one.
fn moved(removal: &Selected, leads: &Leads, tags: Lean, commit: CommitId) -> Option<CommitId>
    requires there { IsSome (find_event (Commit commit) removal.now.events) }
    requires removed { is_removed removal.now.set commit ≡ true }
    requires back { AreBackOfRemoved removal.now.set removal.now.events leads.now.back.items }
    requires forward { AreForward removal.now.set removal.now.events leads.now.forward.items }
    ensures { result ≡ moved removal.now.set removal.now.events tags commit }
{
    let place = removal.place(commit);
    let _count = removal.count();
    match tags {
        Lean::Forward => leads.forward[place].or(leads.back[place]),
        Lean::Back => leads.back[place].or(leads.forward[place]),
    }
}

// Where the tag or the reset at a place goes, if it is on a removed commit.
fn moved_target(removal: &Selected, leads: &Leads, tags: Lean, place: usize) -> Option<CommitId>
    requires place { place < length removal.now.events }
    requires back { AreBackOfRemoved removal.now.set removal.now.events leads.now.back.items }
    requires forward { AreForward removal.now.set removal.now.events leads.now.forward.items }
    ensures { (event : _) → slice_get removal.now.events place ≡ Some event →
        result ≡ option_and_then (moved removal.now.set removal.now.events tags) (lost_target removal.now.set event) }
{
    let _count = removal.count();
    let commit = lost_at(removal, place)?;
    moved(removal, leads, tags, commit)
}

// Ends a table with the place of one that goes to a commit.
fn end_with(table: &mut Targets, place: usize, target: CommitId) -> Result<(), NoMemory>
    requires { length table.old.items ≤ place }
    ensures { OnOk result (EndsWith place target table.old.items table.new.items) }
{
    table.resize(place, None)?;
    table.push(Some(target))?;
    Ok(())
}

// Where tags and resets of removed commits go by these ways. All of them are near.
fn targets_by(
    alloc: Global,
    removal: &Selected,
    leads: &Leads,
    tags: Lean,
) -> Result<Targets, NoMemory>
    requires back { AreBackOfRemoved removal.now.set removal.now.events leads.now.back.items }
    requires forward { AreForward removal.now.set removal.now.events leads.now.forward.items }
    ensures { IfOk result (λ table. AreMoves removal.now.set
        (moving removal.now.set removal.now.events tags) removal.now.events table.items) }
{
    let mut table = Vec::new(alloc);
    let count = removal.count();
    let mut place = removal.next_near(0);
    while place < count {
        if let Some(target) = moved_target(removal, leads, tags, place) {
            end_with(&mut table, place, target)?;
        }
        place = removal.next_near(place + 1);
    }
    Ok(table)
}

/// Tags and resets of removed commits move to commits that stay. Ways are looked for only if there are any.
pub fn moved_targets(alloc: Global, removal: &Selected, tags: Lean) -> Result<Targets, NoMemory>
    ensures { IfOk result (λ table. AreMoves removal.now.set
        (moving removal.now.set removal.now.events tags) removal.now.events table.items) }
{
    if !is_any_lost(removal) {
        return Ok(Vec::new(alloc));
    }
    let leads = Leads::of(alloc, removal)?;
    targets_by(alloc, removal, &leads, tags)
}

/// Where all tags and resets of removed commits go; nowhere, where commits are discarded.
pub fn targets_of(alloc: Global, removal: &Selected, how: Policy) -> Result<Targets, NoMemory>
    ensures { IfOk result (λ table. AreMoves removal.now.set
        (takes removal.now.set removal.now.events how).target removal.now.events table.items) }
{
    match how.push {
        Push::Forward | Push::Back => moved_targets(alloc, removal, how.tags),
        Push::Discard => Ok(Vec::new(alloc)),
    }
}
