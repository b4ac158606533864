//! The events of a plan become what they become where its emptied commits give way.
ghost use Rattle.std.specs.Prelude.{◌≡◌, ◌<◌, Some, length, slice_get, OnOk};
ghost use Rattle.event_arena.specs.Changes.{changed, with_parents, with_target};
ghost use Rattle.path_expunge.specs.Fates.{all_given_way, begun_anew, given_way};
ghost use Rattle.plain_model.specs.Lookups.{id_of};

use crate::fates::Fate;
use event_arena::Plan;
use plain_model::{AnyId, CommitId, NoMemory, ParentList, PlainEvent};
use plan_steps::anew;
use std::alloc::Global;

// Gives the commit at a place other parents.
fn link(plan: &mut Plan, place: usize, parents: &ParentList) -> Result<(), NoMemory>
    requires { place < length plan.old.after }
    ensures { (event : _) → slice_get plan.old.after place ≡ Some event →
        OnOk result (plan.new ≡ record plan.old {
          after = changed (id_of event) (with_parents parents.now) plan.old.after;
        }) }
{
    let _count = plan.count();
    let PlainEvent::Commit { id, .. } = plan.nth(place) else {
        return Ok(());
    };
    let id = *id;
    plan.set_parents(id, parents.copy()?)
}

// Gives the commit at a place other parents, and lets it begin without files.
fn begin_anew(
    alloc: Global,
    plan: &mut Plan,
    place: usize,
    parents: &ParentList,
) -> Result<(), NoMemory>
    requires { place < length plan.old.after }
    ensures { (event : _) → slice_get plan.old.after place ≡ Some event →
        OnOk result (plan.new ≡ record plan.old {
          after = changed (id_of event) (λ e. begun_anew (with_parents parents.now e)) plan.old.after;
        }) }
{
    let _count = plan.count();
    let PlainEvent::Commit { id, ops, .. } = plan.nth(place) else {
        return Ok(());
    };
    let id = *id;
    let made = anew(alloc, ops.as_slice())?;
    plan.set_parents(id, parents.copy()?)?;
    plan.set_ops(id, made)
}

// Puts the tag or the reset at a place on another commit.
fn retarget(plan: &mut Plan, place: usize, target: CommitId) -> Result<(), NoMemory>
    requires { place < length plan.old.after }
    ensures { (event : _) → slice_get plan.old.after place ≡ Some event →
        OnOk result (plan.new ≡ record plan.old {
          after = changed (id_of event) (with_target target) plan.old.after;
        }) }
{
    let _count = plan.count();
    match plan.nth(place) {
        PlainEvent::Tag { id, .. } => {
            let id = AnyId::Tag(*id);
            plan.set_target(id, target)
        }
        PlainEvent::Reset { id, .. } => {
            let id = AnyId::Reset(*id);
            plan.set_target(id, target)
        }
        _ => Ok(()),
    }
}

// Lets the event at a place become what it becomes.
fn give_at(alloc: Global, plan: &mut Plan, place: usize, fate: &Fate) -> Result<(), NoMemory>
    requires { place < length plan.old.after }
    ensures { (event : _) → slice_get plan.old.after place ≡ Some event →
        OnOk result (plan.new ≡ record plan.old {
          after = changed (id_of event) (given_way fate.now) plan.old.after;
        }) }
{
    let _count = plan.count();
    match fate {
        Fate::Same => Ok(()),
        Fate::Linked(parents) => link(plan, place, parents),
        Fate::Anew(parents) => begin_anew(alloc, plan, place, parents),
        Fate::Moved(target) => retarget(plan, place, *target),
    }
}

/// Lets all events become what they become, in one pass.
pub fn give_all(alloc: Global, plan: &mut Plan, fates: &[Fate]) -> Result<(), NoMemory>
    requires { length fates.now ≡ length plan.old.after }
    ensures { OnOk result (plan.new ≡ record plan.old {
      after = all_given_way fates.now plan.old.after;
    }) }
{
    let _count = plan.count();
    for place in 0..fates.len() {
        give_at(alloc, plan, place, &fates[place])?;
    }
    Ok(())
}
