//! The events of a plan become what they become where commits push forward.
ghost use Rattle.std.specs.Prelude.{◌≡◌, ◌<◌, Some, length, slice_get, OnOk};
ghost use Rattle.event_arena.specs.Changes.{changed, with_target};
ghost use Rattle.plain_model.specs.Lookups.{id_of};
ghost use Rattle.squash_delete.specs.Fates.{all_given, given};

use crate::fates::Fate;
use crate::moving::give;
use event_arena::Plan;
use plain_model::{AnyId, CommitId, NoMemory, OpList, ParentList, PlainEvent, Text};
use plan_steps::give_parents;

// Gives the commit at a place other parents, operations and another comment.
fn give_taken(
    plan: &mut Plan,
    place: usize,
    parents: &ParentList,
    ops: &OpList,
    comment: &Text,
) -> Result<(), NoMemory>
    requires { place < length plan.old.after }
    ensures { (event : _) → slice_get plan.old.after place ≡ Some event →
        OnOk result (plan.new ≡ record plan.old {
          after = changed (id_of event) (given (Fate.Taken parents.now ops.now comment.now)) plan.old.after;
        }) }
{
    let _count = plan.count();
    let PlainEvent::Commit { id, .. } = plan.nth(place) else {
        return Ok(());
    };
    let id = *id;
    let parents = parents.copy()?;
    let ops = ops.copy()?;
    let comment = comment.copy()?;
    give_parents(plan, id, parents)?;
    give(plan, id, ops, comment)
}

// Puts the tag or the reset at a place on another commit.
fn retarget_at(plan: &mut Plan, place: usize, target: CommitId) -> Result<(), NoMemory>
    requires { place < length plan.old.after }
    ensures { (event : _) → slice_get plan.old.after place ≡ Some event →
        OnOk result (plan.new ≡ record plan.old {
          after = changed (id_of event) (with_target target) plan.old.after;
        }) }
{
    let _count = plan.count();
    match plan.nth(place) {
        PlainEvent::Tag { id, .. } => {
            let id = AnyId::Tag(*id);
            plan.set_target(id, target)
        }
        PlainEvent::Reset { id, .. } => {
            let id = AnyId::Reset(*id);
            plan.set_target(id, target)
        }
        _ => Ok(()),
    }
}

// Lets the event at a place become what it becomes.
fn give_at(plan: &mut Plan, place: usize, fate: &Fate) -> Result<(), NoMemory>
    requires { place < length plan.old.after }
    ensures { (event : _) → slice_get plan.old.after place ≡ Some event →
        OnOk result (plan.new ≡ record plan.old {
          after = changed (id_of event) (given fate.now) plan.old.after;
        }) }
{
    let _count = plan.count();
    match fate {
        Fate::Same => Ok(()),
        Fate::Taken {
            parents,
            ops,
            comment,
        } => give_taken(plan, place, parents, ops, comment),
        Fate::Moved(target) => retarget_at(plan, place, *target),
    }
}

/// Lets all events become what they become, in one pass.
pub fn give_all(plan: &mut Plan, fates: &[Fate]) -> Result<(), NoMemory>
    requires { length fates.now ≡ length plan.old.after }
    ensures { OnOk result (plan.new ≡ record plan.old {
      after = all_given fates.now plan.old.after;
    }) }
{
    let _count = plan.count();
    for place in 0..fates.len() {
        give_at(plan, place, &fates[place])?;
    }
    Ok(())
}
