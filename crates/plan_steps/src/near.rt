//! The places near a set of events of a history: of those of the set, of children of its commits, and of tags and resets
//! on them. An edit of the set leaves all others as they are, and doesn't look at them.
ghost use Rattle.std.specs.Prelude.{◌≡◌, ◌++◌, flat_map, length, IfOk, OnOk};
ghost use Rattle.graph_walk.specs.Flags.{FlagsOf, is_flagged_commit};
ghost use Rattle.plan_steps.specs.Near.{AreNear, ArePlacesNear, ArePlacesOf, is_on, on_flagged};

use crate::targets::target_of;
use event_arena::Events;
use graph_walk::{children_of_all, flags_of};
use plain_model::{AnyId, CommitId, IdList, NoMemory, PlainEvent};
use std::alloc::Global;

// Whether a commit has a flag.
fn is_flagged(events: &Events, flags: &[bool], commit: CommitId) -> bool
    requires { length flags.now ≡ length events.now.list }
    ensures { result ≡ is_flagged_commit flags.now events.now.list commit }
{
    match events.place(AnyId::Commit(commit)) {
        Some(place) => flags[place],
        None => false,
    }
}

// Whether an event is a tag or a reset on a commit with a flag.
fn is_on(events: &Events, flags: &[bool], event: &PlainEvent) -> bool
    requires { length flags.now ≡ length events.now.list }
    ensures { result ≡ is_on (is_flagged_commit flags.now events.now.list) event.now }
{
    match target_of(event) {
        Some(target) => is_flagged(events, flags, target),
        None => false,
    }
}

// Puts the id of a tag or a reset at the end, if it is on a commit with a flag.
fn push_on(events: &Events, flags: &[bool], id: &AnyId, list: &mut IdList) -> Result<(), NoMemory>
    requires { length flags.now ≡ length events.now.list }
    ensures { OnOk result
        (list.new ≡ list.old ++ on_flagged flags.now events.now.list id.now) }
{
    let is_one = match events.event(*id) {
        Some(event) => is_on(events, flags, event),
        None => false,
    };
    if is_one {
        list.push(*id)?;
    }
    Ok(())
}

// Puts those of the ids at the end that are of tags and resets on commits with a flag.
fn push_all_on(
    events: &Events,
    flags: &[bool],
    ids: &[AnyId],
    list: &mut IdList,
) -> Result<(), NoMemory>
    requires { length flags.now ≡ length events.now.list }
    ensures { OnOk result
        (list.new ≡ list.old ++ flat_map (on_flagged flags.now events.now.list) ids.now) }
{
    for id in ids {
        push_on(events, flags, id, list)?;
    }
    Ok(())
}

// Puts ids at the end of others.
fn push_ids(ids: &[AnyId], list: &mut IdList) -> Result<(), NoMemory>
    ensures { OnOk result (list.new ≡ list.old ++ ids.now) }
{
    for id in ids {
        list.push(*id)?;
    }
    Ok(())
}

// Flags for the events with these ids, and for those that refer to one of them.
fn flags_near(
    alloc: Global,
    events: &Events,
    set: &[AnyId],
    flags: &[bool],
) -> Result<Vec<bool>, NoMemory>
    requires { FlagsOf events.now.list set.now flags.now }
    ensures { IfOk result (λ near. AreNear set.now events.now.list near.items) }
{
    let _count = events.count();
    let pointers = events.tags_and_resets()?;
    let mut ids = children_of_all(alloc, events, set)?;
    push_ids(set, &mut ids)?;
    push_all_on(events, flags, pointers.as_slice(), &mut ids)?;
    flags_of(alloc, events.table(), ids.as_slice())
}

// The places that have a flag, in order.
fn places_of(alloc: Global, flags: &[bool]) -> Result<Vec<usize>, NoMemory>
    ensures { IfOk result (λ places. ArePlacesOf flags.now places.items) }
{
    let mut places = Vec::new(alloc);
    for place in 0..flags.len() {
        if flags[place] {
            places.push(place)?;
        }
    }
    Ok(places)
}

/// The places of the events with these ids, which have a flag, and of those that refer to one of them, in order.
pub fn places_near(
    alloc: Global,
    events: &Events,
    set: &[AnyId],
    flags: &[bool],
) -> Result<Vec<usize>, NoMemory>
    requires { FlagsOf events.now.list set.now flags.now }
    ensures { IfOk result (λ places. ArePlacesNear set.now events.now.list places.items) }
{
    let near = flags_near(alloc, events, set, flags)?;
    places_of(alloc, &near)
}
