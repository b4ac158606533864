//! What a text names that is no number, no date and no assigned name: a tag, or the tip of a branch.
ghost use Rattle.std.specs.Prelude.{◌≡◌, ◌++◌, IfOk};
ghost use Rattle.event_sets.specs.Sets.{passing};
ghost use Rattle.plain_model.specs.Faults.{Returns};
ghost use Rattle.plain_model.specs.Snapshots.{refs};
ghost use Rattle.selection_eval.specs.Spots.{first, is_tag_of, tag_or_tip, tip};

use crate::choosing::{first, no_name};
use crate::testing::{EventTest, are_equal, passing};
use branch_tips::Tips;
use event_arena::Events;
use event_sets::EventSet;
use plain_model::{AnyId, Halt, Items, NoMemory, PlainEvent};
use std::alloc::Global;

// The tags of a name.
#[derive(Drop)]
struct TagsOf<'t> {
    name: &'t [u8],
}

impl<'t> EventTest for TagsOf<'t> {
    ghost use Rattle.selection_eval.specs.Spots.{is_tag_of};

    ghost test = { λ t. is_tag_of t.name.now };

    fn passes(&mut self, event: &PlainEvent) -> Result<bool, NoMemory> {
        match event {
            PlainEvent::Tag { name, .. } => Ok(are_equal(name.as_slice(), self.name)),
            _ => Ok(false),
        }
    }
}

// The first tag of a name, if there is one.
fn tag<'e>(alloc: Global, name: &[u8], events: &'e Events) -> Result<EventSet<'e>, NoMemory>
    ensures events { IfOk result (λ set. set.events ≡ events.now.list) }
    ensures ids { IfOk result (λ set. set.ids
        ≡ first (passing (is_tag_of name.now) events.now.list)) }
{
    let mut test = TagsOf { name };
    let set = passing(alloc, events, &mut test)?;
    first(alloc, &set)
}

// Where the branches are at the end of a history.
fn tips_of(alloc: Global, events: &Events) -> Result<Tips, NoMemory>
    ensures { IfOk result (λ tips. tips ≡ refs events.now.list) }
{
    let mut tips = Tips::new(alloc);
    for place in 0..events.count() {
        tips.note(events.nth(place))?;
    }
    Ok(tips)
}

// The tip of the branch whose name is made of two parts, if it has one.
fn tip<'e>(
    alloc: Global,
    events: &'e Events,
    tips: &Tips,
    front: &[u8],
    name: &[u8],
) -> Result<EventSet<'e>, NoMemory>
    requires { tips.now ≡ refs events.now.list }
    ensures events { IfOk result (λ set. set.events ≡ events.now.list) }
    ensures ids { IfOk result (λ set. set.ids ≡ tip (front.now ++ name.now) events.now.list) }
{
    let _count = events.count();
    let mut branch = Items::of(alloc, front)?;
    branch.push_all(name)?;
    match tips.tip(branch.as_slice()) {
        Some(commit) => EventSet::one(alloc, events, AnyId::Commit(commit)),
        None => EventSet::none(alloc, events),
    }
}

/// The first tag of a name, or the tip of a branch; or the refusal of the name.
pub fn tag_or_tip<'e>(alloc: Global, name: &[u8], events: &'e Events) -> Result<EventSet<'e>, Halt>
    ensures events { IfOk result (λ set. set.events ≡ events.now.list) }
    ensures ids { Returns (λ set. set.ids) result (tag_or_tip name.now events.now.list) }
{
    let tag = tag(alloc, name, events)?;
    if !tag.is_empty() {
        return Ok(tag);
    }
    let tips = tips_of(alloc, events)?;
    let head = tip(alloc, events, &tips, b"refs/heads/", name)?;
    if !head.is_empty() {
        return Ok(head);
    }
    let light = tip(alloc, events, &tips, b"refs/tags/", name)?;
    if !light.is_empty() {
        return Ok(light);
    }
    let other = tip(alloc, events, &tips, b"", name)?;
    if !other.is_empty() {
        return Ok(other);
    }
    Err(Halt::Refused(no_name(alloc, name)?))
}
