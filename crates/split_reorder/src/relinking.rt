//! The parents that commits get in a reorder.
ghost use Rattle.std.specs.Prelude.{◌≡◌, ◌∷◌, OnOk, IsTrue};
ghost use Rattle.plain_model.specs.Lookups.{children_of};
ghost use Rattle.plain_model.specs.Soundness.{are_distinct};
ghost use Rattle.reorder_laws.specs.Reorder.{lined_up, relinked_all};
ghost use Rattle.split_reorder.specs.Parents.{moved_parents, with_all};

use crate::lines::last_of;
use crate::onto::parents_onto;
use event_arena::{Events, Plan};
use plain_model::{CommitId, NoMemory, ParentList};
use plan_steps::{give_parents, parents_of};
use std::alloc::Global;

// Gives the children of the old last commit of a line the new one as their parent.
fn move_children(
    alloc: Global,
    events: &Events,
    plan: &mut Plan,
    old: CommitId,
    new: CommitId,
) -> Result<(), NoMemory>
    ensures { OnOk result (plan.new ≡ record plan.old {
      after = with_all
          (moved_parents events.now.list old new (children_of old events.now.list)) plan.old.after;
    }) }
{
    for child in events.children(old) {
        let parents = parents_onto(alloc, old, new, parents_of(events, child))?;
        give_parents(plan, child, parents)?;
    }
    Ok(())
}

// Gives a commit these parents, and each of those after it the one before.
fn line_up(
    alloc: Global,
    plan: &mut Plan,
    parents: &[CommitId],
    first: CommitId,
    rest: &[CommitId],
) -> Result<(), NoMemory>
    ensures { OnOk result (plan.new ≡ record plan.old {
      after = with_all (lined_up parents.now (first ∷ rest.now)) plan.old.after;
    }) }
{
    give_parents(plan, first, ParentList::of(alloc, parents)?)?;
    let mut before = first;
    for commit in rest {
        give_parents(plan, *commit, ParentList::of(alloc, &[before])?)?;
        before = *commit;
    }
    Ok(())
}

/// Gives the commits of a line, which is its first commit and the rest, their parents in another order, from the head
/// on, and the children of its last one the new last one.
pub fn relink(
    alloc: Global,
    events: &Events,
    plan: &mut Plan,
    first: CommitId,
    rest: &[CommitId],
    head: CommitId,
    tail: &[CommitId],
) -> Result<(), NoMemory>
    requires after { plan.old.after ≡ events.now.list }
    requires once { IsTrue (are_distinct (head ∷ tail.now)) }
    ensures { OnOk result (plan.new ≡ record plan.old {
      after = relinked_all events.now.list first rest.now head tail.now;
    }) }
{
    let _count = events.count();
    let old = last_of(first, rest);
    let new = last_of(head, tail);
    move_children(alloc, events, plan, old, new)?;
    line_up(alloc, plan, parents_of(events, first), head, tail)
}
