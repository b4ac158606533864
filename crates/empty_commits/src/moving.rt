//! What was on commits that become tags moves to those in their places.
ghost use Rattle.std.specs.Prelude.{
  ◌≡◌,
  Some,
  map,
  slice_get,
  IfOk,
  IfSome,
  IsSome,
  IsTrue,
  OnOk,
};
ghost use Rattle.std.specs.List.{AllByRecursion};
ghost use Rattle.edit_laws.specs.Removal.{once_each};
ghost use Rattle.event_arena.specs.Changes.{changed, has_target, with_parents, with_target};
ghost use Rattle.plain_model.specs.Lookups.{find_event, id_of};
ghost use Rattle.plain_model.specs.declared.id.AnyId.TheVariants.{Commit};
ghost use Rattle.tagify_laws.specs.InPlace.{moved};
ghost use Rattle.tagify_laws.specs.Tagify.{base_of};

use crate::empties::Empties;
use event_arena::Plan;
use plain_model::{AnyId, CommitId, NoMemory, ParentList, PlainEvent};
use plan_steps::target_of;
use std::alloc::Global;

// The commits in the places of these, each once.
fn bases_of(alloc: Global, empties: &Empties, commits: &[CommitId]) -> Result<ParentList, NoMemory>
    requires { AllByRecursion (λ c. IsSome (find_event (Commit c) empties.now.events)) commits.now }
    ensures { IfOk result (λ made.
        made ≡ once_each (map (base_of empties.now.set empties.now.events) commits.now)) }
{
    let mut made = ParentList::new(alloc)?;
    for commit in commits {
        let base = empties.base_of(*commit);
        if !made.as_slice().contains(&base) {
            made.push(base)?;
        }
    }
    Ok(made)
}

// Gives a commit with these parents those in their places.
fn move_commit(
    alloc: Global,
    empties: &Empties,
    plan: &mut Plan,
    id: CommitId,
    parents: &[CommitId],
) -> Result<(), NoMemory>
    requires known { AllByRecursion
        (λ p. IsSome (find_event (Commit p) empties.now.events)) parents.now }
    requires there { IsSome (find_event (Commit id) plan.old.after) }
    requires parents { IfSome (find_event (Commit id) plan.old.after)
        (λ event. with_parents parents.now event ≡ event) }
    ensures { OnOk result (plan.new ≡ record plan.old {
      after = changed (Commit id) (with_parents
          (once_each (map (base_of empties.now.set empties.now.events) parents.now))) plan.old.after;
    }) }
{
    let made = bases_of(alloc, empties, parents)?;
    if made.as_slice() == parents {
        return Ok(());
    }
    plan.set_parents(id, made)
}

// Puts a tag or a reset that is on one commit on another.
fn retarget(plan: &mut Plan, id: AnyId, old: CommitId, new: CommitId) -> Result<(), NoMemory>
    requires there { IsSome (find_event id plan.old.after) }
    requires field { IsTrue (has_target id) }
    requires target { IfSome (find_event id plan.old.after) (λ event. with_target old event ≡ event) }
    ensures { OnOk result (plan.new ≡ record plan.old {
      after = changed id (with_target new) plan.old.after;
    }) }
{
    if old == new {
        return Ok(());
    }
    plan.set_target(id, new)
}

// Moves the event at a place to the commits in the places of its parents, or of its target.
fn move_at(
    alloc: Global,
    empties: &Empties,
    plan: &mut Plan,
    place: usize,
    event: &PlainEvent,
) -> Result<(), NoMemory>
    requires at { slice_get empties.now.events place ≡ Some event.now }
    requires found { find_event (id_of event.now) plan.old.after ≡ Some event.now }
    ensures { OnOk result (plan.new ≡ record plan.old {
      after = changed (id_of event.now) (moved empties.now.set empties.now.events) plan.old.after;
    }) }
{
    let _count = empties.count();
    if let PlainEvent::Commit { id, parents, .. } = event {
        return move_commit(alloc, empties, plan, *id, parents.as_slice());
    }
    match target_of(event) {
        Some(target) => retarget(plan, event.id(), target, empties.base_of(target)),
        None => Ok(()),
    }
}

/// Moves all events, in one pass; those that become tags too.
pub fn move_all(alloc: Global, empties: &Empties, plan: &mut Plan) -> Result<(), NoMemory>
    requires { plan.old.after ≡ empties.now.events }
    ensures { OnOk result (plan.new ≡ record plan.old {
      after = map (moved empties.now.set empties.now.events) empties.now.events;
    }) }
{
    for place in 0..empties.count() {
        move_at(alloc, empties, plan, place, empties.nth(place))?;
    }
    Ok(())
}
