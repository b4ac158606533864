//! What is on a commit goes onto its copy: its children, tags and resets.
ghost use Rattle.std.specs.Prelude.{◌≡◌, Some, map, IfOk, IfSome, IsSome, IsTrue, OnOk};
ghost use Rattle.event_arena.specs.Changes.{changed, has_target, with_parents, with_target};
ghost use Rattle.plain_model.specs.Lookups.{find_event, id_of};
ghost use Rattle.plain_model.specs.declared.id.AnyId.TheVariants.{Commit};
ghost use Rattle.split_laws.specs.Split.{onto};
ghost use Rattle.split_reorder.specs.Copies.{put_onto};

use event_arena::{Events, Plan};
use plain_model::{AnyId, CommitId, NoMemory, ParentList, PlainEvent};
use std::alloc::Global;

// A commit, or the copy where it is the one that is split.
fn onto(commit: CommitId, copy: CommitId, other: CommitId) -> CommitId
    ensures { result ≡ onto commit copy other }
{
    if other == commit { copy } else { other }
}

/// Parents with the copy for the commit.
pub fn parents_onto(
    alloc: Global,
    commit: CommitId,
    copy: CommitId,
    parents: &[CommitId],
) -> Result<ParentList, NoMemory>
    ensures { IfOk result (λ made. made ≡ map (onto commit copy) parents.now) }
{
    let mut made = ParentList::new(alloc)?;
    for parent in parents {
        made.push(onto(commit, copy, *parent))?;
    }
    Ok(made)
}

// Puts a commit of the plan that has these parents onto the copy, if it is a child of the commit.
fn move_child(
    alloc: Global,
    plan: &mut Plan,
    child: CommitId,
    parents: &[CommitId],
    commit: CommitId,
    copy: CommitId,
) -> Result<(), NoMemory>
    requires there { IsSome (find_event (Commit child) plan.old.after) }
    requires own { IfSome (find_event (Commit child) plan.old.after)
        (λ event. with_parents parents.now event ≡ event) }
    ensures { OnOk result (plan.new ≡ record plan.old {
      after = changed (Commit child) (with_parents (map (onto commit copy) parents.now)) plan.old.after;
    }) }
{
    if !parents.contains(&commit) {
        return Ok(());
    }
    plan.set_parents(child, parents_onto(alloc, commit, copy, parents)?)
}

// Puts a tag or a reset of the plan that has this target onto the copy, if it is on the commit.
fn move_target(
    plan: &mut Plan,
    id: AnyId,
    target: CommitId,
    commit: CommitId,
    copy: CommitId,
) -> Result<(), NoMemory>
    requires there { IsSome (find_event id plan.old.after) }
    requires field { IsTrue (has_target id) }
    requires own { IfSome (find_event id plan.old.after) (λ event. with_target target event ≡ event) }
    ensures { OnOk result (plan.new ≡ record plan.old {
      after = changed id (with_target (onto commit copy target)) plan.old.after;
    }) }
{
    if target != commit {
        return Ok(());
    }
    plan.set_target(id, copy)
}

// Puts an event of the plan onto the copy, if it is on the commit.
fn put_onto(
    alloc: Global,
    plan: &mut Plan,
    event: &PlainEvent,
    commit: CommitId,
    copy: CommitId,
) -> Result<(), NoMemory>
    requires { find_event (id_of event.now) plan.old.after ≡ Some event.now }
    ensures { OnOk result (plan.new ≡ record plan.old {
      after = changed (id_of event.now) (put_onto commit copy) plan.old.after;
    }) }
{
    match event {
        PlainEvent::Commit { id, parents, .. } => {
            move_child(alloc, plan, *id, parents.as_slice(), commit, copy)
        }
        PlainEvent::Tag { id, target, .. } => {
            move_target(plan, AnyId::Tag(*id), *target, commit, copy)
        }
        PlainEvent::Reset { id, target, .. } => match target {
            Some(target) => move_target(plan, AnyId::Reset(*id), *target, commit, copy),
            None => Ok(()),
        },
        PlainEvent::Blob { .. } => Ok(()),
        PlainEvent::Pass { .. } => Ok(()),
    }
}

/// Puts all that is on a commit onto its copy, in one pass over the events.
pub fn put_all_onto(
    alloc: Global,
    events: &Events,
    plan: &mut Plan,
    commit: CommitId,
    copy: CommitId,
) -> Result<(), NoMemory>
    requires { plan.old.after ≡ events.now.list }
    ensures { OnOk result
        (plan.new ≡ record plan.old { after = map (put_onto commit copy) events.now.list }) }
{
    for place in 0..events.count() {
        put_onto(alloc, plan, events.nth(place), commit, copy)?;
    }
    Ok(())
}
