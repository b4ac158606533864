//! The plan of a coalescing.
ghost use Rattle.std.specs.Prelude.{
  ◌≡◌,
  ◌++◌,
  Some,
  map,
  slice_get,
  IfOk,
  IfSome,
  IsSome,
  IsTrue,
  OnOk,
};
ghost use Rattle.coalesce_laws.specs.Coalesce.{coalesce_of, joined_ones};
ghost use Rattle.coalesce_laws.specs.Remaining.{parents_of_oldest};
ghost use Rattle.coalesce_simplify.specs.Joining.{
  AreEndsFrom,
  AreJoined,
  end_of,
  joined_event,
  joins,
};
ghost use Rattle.event_arena.specs.Changes.{
  changed,
  has_target,
  with_ops,
  with_parents,
  with_target,
};
ghost use Rattle.event_arena.specs.Plans.{IsPlanOf, leaving};
ghost use Rattle.history_laws.specs.FirstParents.{ops_along};
ghost use Rattle.plain_model.specs.Lookups.{find_event, id_of};
ghost use Rattle.plain_model.specs.declared.id.AnyId.TheVariants.{Commit};
ghost use Rattle.squash_laws.specs.Removed.{without_set};
ghost use Rattle.squash_laws.specs.Takings.{links};

use crate::chains::{joined_before, ops_after};
use crate::ends::{end_of, ends};
use crate::joining::joined_ones;
use coalesce_laws::{a_coalescing_keeps_soundness, nothing_changes_where_none_is_joined};
use event_arena::{Events, Plan};
use plain_model::{AnyId, CommitId, FileOp, IdList, NoMemory, OpList, ParentList, PlainEvent};
use plan_steps::{Flagged, parents_of, put_in_order, sweep};
use std::alloc::Global;

// Gives a commit of the plan other parents and other operations.
fn set_both(
    plan: &mut Plan,
    commit: CommitId,
    parents: ParentList,
    ops: OpList,
) -> Result<(), NoMemory>
    requires { IsSome (find_event (Commit commit) plan.old.after) }
    ensures { OnOk result (plan.new ≡ record plan.old {
      after = changed (Commit commit) (λ event. with_parents parents (with_ops ops event)) plan.old.after;
    }) }
{
    plan.set_ops(commit, ops)?;
    plan.set_parents(commit, parents)
}

// Gives a commit of the plan that has these parents and operations the parents of the oldest joined one before it, and
// the operations of all of these before its own.
fn join_commit(
    alloc: Global,
    going: &Flagged,
    plan: &mut Plan,
    commit: CommitId,
    parents: &[CommitId],
    ops: &[FileOp],
) -> Result<(), NoMemory>
    requires there { IsSome (find_event (Commit commit) plan.old.after) }
    requires own { IfSome (find_event (Commit commit) plan.old.after)
        (λ event. with_parents parents.now (with_ops ops.now event) ≡ event) }
    ensures { OnOk result (plan.new ≡ record plan.old {
      after = (let before = links going.now.set going.now.events parents.now in
          changed (Commit commit) (λ event. with_parents (parents_of_oldest before parents.now)
          (with_ops (ops_along before ++ ops.now) event)) plan.old.after);
    }) }
{
    let commits = joined_before(alloc, going, parents)?;
    let Some(oldest) = commits.first() else {
        return Ok(());
    };
    let ops = ops_after(alloc, going.events(), &commits, ops)?;
    let parents = ParentList::of(alloc, parents_of(going.events(), *oldest))?;
    set_both(plan, commit, parents, ops)
}

// Puts a tag or a reset of the plan that has this target on the commit that stays after it.
fn move_target(
    going: &Flagged,
    ends: &[Option<CommitId>],
    plan: &mut Plan,
    id: AnyId,
    target: CommitId,
) -> Result<(), NoMemory>
    requires there { IsSome (find_event id plan.old.after) }
    requires field { IsTrue (has_target id) }
    requires own { IfSome (find_event id plan.old.after) (λ event. with_target target event ≡ event) }
    requires joined { AreJoined going.now.set going.now.events }
    requires ends { AreEndsFrom going.now.set going.now.events 0 ends.now }
    ensures { OnOk result (plan.new ≡ record plan.old {
      after = changed id (with_target (end_of going.now.set going.now.events target)) plan.old.after;
    }) }
{
    let end = end_of(going, ends, target);
    if end == target {
        return Ok(());
    }
    plan.set_target(id, end)
}

// Makes of the event at a place what becomes of it, if it isn't joined.
fn join_at(
    alloc: Global,
    going: &Flagged,
    ends: &[Option<CommitId>],
    plan: &mut Plan,
    event: &PlainEvent,
    place: usize,
) -> Result<(), NoMemory>
    requires event { slice_get going.now.events place ≡ Some event.now }
    requires found { find_event (id_of event.now) plan.old.after ≡ Some event.now }
    requires joined { AreJoined going.now.set going.now.events }
    requires ends { AreEndsFrom going.now.set going.now.events 0 ends.now }
    ensures { OnOk result (plan.new ≡ record plan.old {
      after = changed (id_of event.now) (joined_event going.now.set going.now.events) plan.old.after;
    }) }
{
    let _count = going.count();
    if going.has_at(place) {
        return Ok(());
    }
    match event {
        PlainEvent::Commit {
            id,
            parents,
            ops,
            ..
        } => join_commit(alloc, going, plan, *id, parents.as_slice(), ops.as_slice()),
        PlainEvent::Tag { id, target, .. } => {
            move_target(going, ends, plan, AnyId::Tag(*id), *target)
        }
        PlainEvent::Reset { id, target, .. } => match target {
            Some(target) => move_target(going, ends, plan, AnyId::Reset(*id), *target),
            None => Ok(()),
        },
        PlainEvent::Blob { .. } => Ok(()),
        PlainEvent::Pass { .. } => Ok(()),
    }
}

// Makes of all events what becomes of them; those that are joined are there yet.
fn join_all(
    alloc: Global,
    going: &Flagged,
    ends: &[Option<CommitId>],
    plan: &mut Plan,
) -> Result<(), NoMemory>
    requires joined { AreJoined going.now.set going.now.events }
    requires ends { AreEndsFrom going.now.set going.now.events 0 ends.now }
    requires whole { plan.old.after ≡ going.now.events }
    ensures { OnOk result (plan.new ≡ record plan.old {
      after = map (joined_event going.now.set going.now.events) going.now.events;
    }) }
{
    for place in 0..going.count() {
        join_at(alloc, going, ends, plan, going.nth(place), place)?;
    }
    Ok(())
}

// The ids of the commits that are joined to a next one.
fn ones_of(alloc: Global, events: &Events, set: &[AnyId], seconds: u64) -> Result<IdList, NoMemory>
    ensures { IfOk result (λ ids. ids ≡ joined_ones seconds set.now events.now.list) }
{
    let chosen = Flagged::new(alloc, events, set)?;
    joined_ones(alloc, &chosen, seconds)
}

// The plan in which joined commits are gone, and the others have what they had. It isn't settled yet.
fn joined_up(alloc: Global, events: &Events, ids: &IdList) -> Result<Plan, NoMemory>
    requires { AreJoined ids.now events.now.list }
    ensures { IfOk result (λ plan. plan
        ≡ leaving events.now
        (without_set ids.now events.now.list (joins ids.now events.now.list))) }
{
    let _count = events.count();
    let going = Flagged::new(alloc, events, ids.as_slice())?;
    let mut plan = Plan::new(alloc, events)?;
    let ends = ends(alloc, &going)?;
    join_all(alloc, &going, &ends, &mut plan)?;
    plan.remove_all(ids)?;
    sweep(alloc, &mut plan)?;
    Ok(plan)
}

/// The plan in which a selected commit becomes part of its only child, where that is selected too and has no other
/// parent, and branch, comment and committer agree, with at most so many seconds between the two. A chain of such commits
/// becomes its last one, with all operations, oldest first; tags and resets go to it. Nothing is refused. (reposurgeon
/// manual, `coalesce`; which commits are joined: own.)
pub fn coalesce(
    alloc: Global,
    events: &Events,
    set: &[AnyId],
    seconds: u64,
) -> Result<Plan, NoMemory>
    ensures plan { IfOk result (IsPlanOf events.now events.now.next_id) }
    ensures after { IfOk result (λ plan. plan.after ≡ coalesce_of seconds set.now events.now.list) }
{
    let _count = events.count();
    let ids = ones_of(alloc, events, set, seconds)?;
    if ids.as_slice().is_empty() {
        nothing_changes_where_none_is_joined();
        return Plan::new(alloc, events);
    }
    let mut plan = joined_up(alloc, events, &ids)?;
    put_in_order(alloc, &mut plan)?;
    a_coalescing_keeps_soundness();
    Ok(plan)
}
