//! Ancestors and descendants.
ghost use Rattle.std.specs.Prelude.{
  ◌≡◌,
  ◌<◌,
  ◌≤◌,
  ◌+◌,
  ◌||◌,
  ◌∷◌,
  [],
  Some,
  false,
  length,
  replicate,
  slice_get,
  slice_index_or,
  slice_set,
  if◌then◌else◌,
  IfOk,
  IsSome,
};
ghost use Rattle.std.specs.List.{list_any};
ghost use Rattle.ancestry_laws.specs.Ancestry.{ancestors_of, descendants_of, descends};
ghost use Rattle.graph_walk.specs.Flags.{FlagsMore, flagged_ids, is_flagged_commit};
ghost use Rattle.plain_model.specs.Lookups.{event_parents, find_event};
ghost use Rattle.plain_model.specs.declared.id.AnyId.TheVariants.{Commit};

use crate::flags::{is_any_flagged, no_flags};
use event_arena::Events;
use plain_model::{AnyId, CommitId, IdList, NoMemory, PlainEvent};
use std::alloc::Global;
use std::marker::Model;

// Flags the commits of a set.
fn flag_all(events: &Events, set: &[CommitId], flags: &mut [bool])
    requires { length flags.old ≡ length events.now.list }
    ensures { FlagsMore events.now.list set.now flags.old flags.new }
{
    let _count = events.count();
    for commit in set {
        if let Some(place) = events.place(AnyId::Commit(*commit)) {
            flags[place] = true;
        }
    }
}

// The ids of the flagged events, in the order of the list.
fn flagged(alloc: Global, events: &Events, flags: &[bool]) -> Result<IdList, NoMemory>
    requires { length flags.now ≡ length events.now.list }
    ensures { IfOk result (λ ids. ids ≡ flagged_ids flags.now events.now.list) }
{
    let mut ids = IdList::new(alloc)?;
    for place in 0..events.count() {
        if flags[place] {
            ids.push(events.nth(place).id())?;
        }
    }
    Ok(ids)
}

// Flags an event where one of its parents is flagged.
fn flag_child(events: &Events, place: usize, flags: &mut [bool])
    requires flags { length flags.old ≡ length events.now.list }
    requires within { place < length events.now.list }
    ensures { (event : _) → slice_get events.now.list place ≡ Some event → flags.new ≡ slice_set flags.old place
        (slice_index_or flags.old place false
        || list_any (is_flagged_commit flags.old events.now.list) (event_parents event)) }
{
    if let PlainEvent::Commit { parents, .. } = events.nth(place) {
        if is_any_flagged(events.table(), parents.as_slice(), flags) {
            flags[place] = true;
        }
    }
}

// Flags the parents of an event that is flagged.
fn flag_parents(events: &Events, place: usize, flags: &mut [bool])
    requires flags { length flags.old ≡ length events.now.list }
    requires within { place < length events.now.list }
    ensures { (event : _) → slice_get events.now.list place ≡ Some event → FlagsMore events.now.list
        (if slice_index_or flags.old place false then event_parents event else []) flags.old flags.new }
{
    if flags[place] {
        if let PlainEvent::Commit { parents, .. } = events.nth(place) {
            flag_all(events, parents.as_slice(), flags);
        }
    }
}

/// The commits of a set and all that descend from one of them, in the order of the list.
pub fn descendants(alloc: Global, events: &Events, set: &[CommitId]) -> Result<IdList, NoMemory>
    ensures { IfOk result (λ ids. ids ≡ descendants_of events.now.list set.now) }
{
    let mut flags = no_flags(alloc, events.table())?;
    flag_all(events, set, &mut flags);
    for place in 0..events.count() {
        flag_child(events, place, &mut flags);
    }
    flagged(alloc, events, &flags)
}

/// The commits of a set and all from which one of them descends, in the order of the list.
pub fn ancestors(alloc: Global, events: &Events, set: &[CommitId]) -> Result<IdList, NoMemory>
    ensures { IfOk result (λ ids. ids ≡ ancestors_of events.now.list set.now) }
{
    let mut flags = no_flags(alloc, events.table())?;
    flag_all(events, set, &mut flags);
    let count = events.count();
    for done in 0..count {
        flag_parents(events, count - 1 - done, &mut flags);
    }
    flagged(alloc, events, &flags)
}

// Whether the high commit descends from the low one, by flags that are cleared again.
fn reaches(events: &Events, low: CommitId, high: CommitId, flags: &mut [bool]) -> bool
    requires low { IsSome (find_event (Commit low) events.now.list) }
    requires high { IsSome (find_event (Commit high) events.now.list) }
    requires flags { flags.old ≡ replicate (length events.now.list) false }
    ensures flags { flags.new ≡ replicate (length events.now.list) false }
    ensures reaches { result ≡ descends events.now.list (low ∷ []) high }
{
    let _count = events.count();
    let bottom = events.place(AnyId::Commit(low)).unwrap();
    let top = events.place(AnyId::Commit(high)).unwrap();
    flag_all(events, &[high], flags);
    for done in 0..top.saturating_sub(bottom) {
        flag_parents(events, top - done, flags);
    }
    let found = flags[bottom];
    flags.fill(false);
    found
}

/// Flags for one call of `is_ancestor` after another on one history, which then take no memory. Contracts see the
/// number of events of that history.
#[derive(Drop)]
pub struct Scratch {
    flags: Vec<bool>,
}

impl Model for Scratch {
    ghost use Rattle.std.specs.Prelude.{◌≡◌, ℕ, false, length, replicate};

    ghost Value = { ℕ };

    ghost view = { λ s. length s.flags.items };

    ghost invariant = { λ s. s.flags.items ≡ replicate (length s.flags.items) false };
}

impl Scratch {
    pub fn new(alloc: Global, events: &Events) -> Result<Scratch, NoMemory>
        ensures { IfOk result (λ scratch. scratch ≡ length events.now.list) }
    {
        let flags = no_flags(alloc, events.table())?;
        Ok(Scratch { flags })
    }
}

/// Whether the high commit is the low one, or descends from it. It looks at the events from the one to the other
/// alone.
pub fn is_ancestor(events: &Events, low: CommitId, high: CommitId, scratch: &mut Scratch) -> bool
    requires low { IsSome (find_event (Commit low) events.now.list) }
    requires high { IsSome (find_event (Commit high) events.now.list) }
    requires made { scratch.old ≡ length events.now.list }
    ensures made { scratch.new ≡ scratch.old }
    ensures ancestor { result ≡ descends events.now.list (low ∷ []) high }
{
    reaches(events, low, high, &mut scratch.flags)
}
