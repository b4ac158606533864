//! The lists.
ghost use Rattle.std.specs.Prelude.{◌≡◌, ◌++◌, flat_map, IfOk, OnOk};
ghost use Rattle.listing.specs.Listings.{
  branch_lines,
  index_line,
  index_text,
  line_of,
  list_line,
  list_text,
  names_text,
  tag_line,
};
ghost use Rattle.plain_model.specs.Lookups.{find_event, number_of};
ghost use Rattle.plain_model.specs.Snapshots.{refs};

use crate::events::{push_indexed, push_listed, push_name, push_tag_name};
use crate::finding::{event_of, mark_of};
use branch_tips::{TipList, Tips};
use event_arena::Events;
use plain_model::{AnyId, NoMemory, Text};
use std::alloc::Global;

fn push_list_line(events: &Events, id: &AnyId, into: &mut Text) -> Result<(), NoMemory>
    ensures { let all = events.now.list in
        OnOk result (into.new ≡
        into.old ++ line_of list_line (number_of id.now all) (find_event id.now all)) }
{
    let Some(number) = events.number_of(*id) else {
        return Ok(());
    };
    match event_of(events, *id) {
        Some(event) => push_listed(number as u64, event, into),
        None => Ok(()),
    }
}

fn push_index_line(events: &Events, id: &AnyId, into: &mut Text) -> Result<(), NoMemory>
    ensures { let all = events.now.list in
        OnOk result (into.new ≡
        into.old ++ line_of (index_line all) (number_of id.now all) (find_event id.now all)) }
{
    let Some(number) = events.number_of(*id) else {
        return Ok(());
    };
    match events.event(*id) {
        Some(event) => push_indexed(events, number as u64, event, into),
        None => Ok(()),
    }
}

/// Puts the lines of the commits and tags among the given events, in the order of the ids.
#[tactic(auto, unfolding(crate::specs::Listings::list_text))]
pub fn list(events: &Events, set: &[AnyId], into: &mut Text) -> Result<(), NoMemory>
    ensures { OnOk result (into.new ≡ into.old ++ list_text events.now.list set.now) }
{
    for id in set {
        push_list_line(events, id, into)?;
    }
    Ok(())
}

/// Puts a line for each of the given events, in the order of the ids.
#[tactic(auto, unfolding(crate::specs::Listings::index_text))]
pub fn index(events: &Events, set: &[AnyId], into: &mut Text) -> Result<(), NoMemory>
    ensures { OnOk result (into.new ≡ into.old ++ index_text events.now.list set.now) }
{
    for id in set {
        push_index_line(events, id, into)?;
    }
    Ok(())
}

// Each branch that has a tip at the end, with the commit on which it is.
fn last_tips(alloc: Global, events: &Events) -> Result<TipList, NoMemory>
    ensures { IfOk result (λ tips. tips ≡ refs events.now.list) }
{
    let mut tips = Tips::new(alloc);
    for place in 0..events.count() {
        tips.note(events.nth(place))?;
    }
    tips.entries()
}

fn push_branches(events: &Events, tips: &TipList, into: &mut Text) -> Result<(), NoMemory>
    ensures { OnOk result (into.new ≡ into.old ++ branch_lines events.now.list tips.now) }
{
    for (branch, tip) in tips.as_slice() {
        push_name(b"branch ", branch.as_slice(), mark_of(events, *tip), into)?;
    }
    Ok(())
}

fn push_tags(events: &Events, into: &mut Text) -> Result<(), NoMemory>
    ensures { OnOk result
        (into.new ≡ into.old ++ flat_map (tag_line events.now.list) events.now.list) }
{
    for place in 0..events.count() {
        push_tag_name(events, events.nth(place), into)?;
    }
    Ok(())
}

/// Puts the branches that have a tip at the end of the history, and then the tags.
#[tactic(auto, unfolding(crate::specs::Listings::names_text))]
pub fn names(events: &Events, into: &mut Text) -> Result<(), NoMemory>
    ensures { OnOk result (into.new ≡ into.old ++ names_text events.now.list) }
{
    let tips = last_tips(into.alloc(), events)?;
    push_branches(events, &tips, into)?;
    push_tags(events, into)
}
