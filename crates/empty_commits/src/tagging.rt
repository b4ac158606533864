//! The tags that commits become, and the places of these.
ghost use Rattle.std.specs.Prelude.{
  ◌≡◌,
  ◌≤◌,
  ◌<◌,
  ◌+◌,
  ◌++◌,
  ◌^◌,
  None,
  Some,
  length,
  map,
  slice_get,
  IfOk,
  IsTrue,
  OnOk,
};
ghost use Rattle.empty_commits.specs.Tagging.{new_tags, with_tag_of};
ghost use Rattle.plain_model.specs.Lookups.{AreIdsBelow, find_event, id_of};
ghost use Rattle.plain_model.specs.declared.id.AnyId.TheVariants.{Tag};
ghost use Rattle.tagify_laws.specs.InPlace.{in_place, moved};
ghost use Rattle.tagify_laws.specs.Tagify.{becomes_tag, new_tag, tagged};

use crate::empties::Empties;
use crate::names::tag_name;
use event_arena::Plan;
use plain_model::{AnyId, Copied, IdList, NoMemory, PlainEvent, TagId};
use std::alloc::Global;
use tagify_laws::no_more_tags_come_than_numbers;

// The tag with a number that an event becomes.
fn new_tag(
    alloc: Global,
    empties: &Empties,
    event: &PlainEvent,
    number: u64,
) -> Result<PlainEvent, NoMemory>
    requires found { find_event (id_of event.now) empties.now.events ≡ Some event.now }
    requires becomes { IsTrue (becomes_tag empties.now.set event.now) }
    ensures { IfOk result (λ tag.
        tag ≡ new_tag empties.now.set empties.now.events number event.now) }
{
    let PlainEvent::Commit {
        id,
        mark,
        committer,
        comment,
        ..
    } = event
    else {
        unreachable!()
    };
    Ok(PlainEvent::Tag {
        id: TagId::new(number),
        name: tag_name(alloc, *mark)?,
        target: empties.base_of(*id),
        tagger: Some(committer.copied(alloc)?),
        comment: comment.copied(alloc)?,
        mark: None,
    })
}

// Puts the tag that the event at a place becomes at the end, if it becomes one.
fn append_at(
    alloc: Global,
    empties: &Empties,
    plan: &mut Plan,
    place: usize,
) -> Result<(), NoMemory>
    requires place { place < length empties.now.events }
    requires room { plan.old.next < 2 ^ 63 }
    requires later { plan.old.made_at ≤ plan.old.next }
    requires unknown { find_event (Tag plan.old.next) plan.old.after ≡ None }
    ensures { OnOk result ((event : _) → slice_get empties.now.events place ≡ Some event →
        plan.new ≡ with_tag_of empties.now.set empties.now.events event plan.old) }
{
    if !empties.becomes_tag(place) {
        return Ok(());
    }
    let number = plan.unused();
    let tag = new_tag(alloc, empties, empties.nth(place), number)?;
    plan.append(tag)
}

/// Puts the tags of all commits that become one at the end, with the next numbers.
pub fn append_all(alloc: Global, empties: &Empties, plan: &mut Plan) -> Result<(), NoMemory>
    requires moved { plan.old.after ≡ map (moved empties.now.set empties.now.events) empties.now.events }
    requires below { AreIdsBelow plan.old.next empties.now.events }
    requires low { plan.old.next < 2 ^ 62 }
    requires later { plan.old.made_at ≤ plan.old.next }
    ensures { OnOk result (plan.new ≡ record plan.old {
      after = plan.old.after
          ++ new_tags empties.now.set empties.now.events plan.old.next empties.now.events;
      next = plan.old.next + length (tagged empties.now.set empties.now.events);
    }) }
{
    no_more_tags_come_than_numbers();
    for place in 0..empties.count() {
        append_at(alloc, empties, plan, place)?;
    }
    Ok(())
}

/// The ids in their order, each tag's in the place of its commit's. The tags have the numbers from the next one on.
pub fn order_from(alloc: Global, empties: &Empties, next: u64) -> Result<IdList, NoMemory>
    requires below { AreIdsBelow next empties.now.events }
    requires low { next < 2 ^ 62 }
    ensures { IfOk result (λ ids. ids
        ≡ map id_of (in_place empties.now.set empties.now.events next empties.now.events)) }
{
    no_more_tags_come_than_numbers();
    let mut ids = IdList::new(alloc)?;
    let mut number = next;
    for place in 0..empties.count() {
        if empties.becomes_tag(place) {
            ids.push(AnyId::Tag(TagId::new(number)))?;
            number += 1;
        } else {
            ids.push(empties.nth(place).id())?;
        }
    }
    Ok(ids)
}
