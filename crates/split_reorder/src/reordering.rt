//! The plan of a reorder.
ghost use Rattle.std.specs.Prelude.{◌≡◌, ◌∷◌, None, IfOk, OnOk};
ghost use Rattle.commit_laws.specs.Selected.{chosen, listed};
ghost use Rattle.edit_laws.specs.Selecting.{IsSelection};
ghost use Rattle.event_arena.specs.Plans.{Plans};
ghost use Rattle.manifest_cache.specs.Kept.{AgreesWith};
ghost use Rattle.plain_model.specs.Faults.{Returns};
ghost use Rattle.reorder_laws.specs.Reorder.{
  filled,
  line_fault,
  relinked_all,
  reorder_of,
  reorder_these,
};

use crate::lines::line_fault;
use crate::placing::order;
use crate::relinking::relink;
use event_arena::{Events, Plan};
use graph_walk::settle;
use manifest_cache::Manifests;
use plain_model::{AnyId, CommitId, Fault, Halt, NoMemory};
use plan_steps::{Flagged, chosen, kind_fault};
use reorder_laws::a_reorder_keeps_soundness;
use std::alloc::Global;

// Puts a line, which is its first commit and the rest, into the order that is wanted, from the head on: parents, and
// then places. It isn't settled yet.
fn arrange(
    alloc: Global,
    places: &Flagged,
    plan: &mut Plan,
    first: CommitId,
    rest: &[CommitId],
    wanted: &[CommitId],
    head: CommitId,
    tail: &[CommitId],
) -> Result<(), NoMemory>
    requires selection { IsSelection places.now.events places.now.set }
    requires listed { listed places.now.set places.now.events ≡ first ∷ rest.now }
    requires wanted { chosen places.now.set ≡ wanted.now }
    requires from_head { wanted.now ≡ head ∷ tail.now }
    requires linear { line_fault places.now.events first rest.now ≡ None }
    requires whole { plan.old.after ≡ places.now.events }
    ensures { OnOk result (plan.new ≡ record plan.old {
      after = (let whole = relinked_all places.now.events first rest.now head tail.now in
          filled places.now.set whole (head ∷ tail.now) whole);
    }) }
{
    let events = places.events();
    let _count = events.count();
    relink(alloc, events, plan, first, rest, head, tail)?;
    let ids = order(alloc, places, wanted)?;
    plan.set_order(ids)
}

// The plan that puts a line into the order that is wanted, or the first fault.
fn reorder_these(
    alloc: Global,
    places: &Flagged,
    mut plan: Plan,
    manifests: &mut Manifests,
    line: &[CommitId],
    wanted: &[CommitId],
) -> Result<Plan, Halt>
    requires selection { IsSelection places.now.events places.now.set }
    requires listed { line.now ≡ listed places.now.set places.now.events }
    requires chosen { wanted.now ≡ chosen places.now.set }
    requires before { plan.before ≡ places.now.events }
    requires after { plan.after ≡ places.now.events }
    requires agrees { AgreesWith places.now.events manifests.old }
    ensures answer { Returns (λ made. made.after) result
        (reorder_these places.now.set places.now.events line.now wanted.now) }
    ensures made { IfOk result (λ made. made ≡ record plan { after = made.after }) }
    ensures kept { manifests.new ≡ manifests.old }
{
    let _count = plan.old_count();
    let Some((first, rest)) = line.split_first() else {
        return Err(Halt::Refused(Fault::WrongCount { found: 0 }));
    };
    let Some((head, tail)) = wanted.split_first() else {
        return Err(Halt::Refused(Fault::WrongCount { found: 0 }));
    };
    if let Some(fault) = line_fault(places.events(), *first, rest) {
        return Err(Halt::Refused(fault));
    }
    arrange(alloc, places, &mut plan, *first, rest, wanted, *head, tail)?;
    if let Err(halt) = settle(alloc, &mut plan) {
        return Err(halt);
    }
    match manifests.check(&plan) {
        Ok(()) => Ok(plan),
        Err(refused) => Err(refused),
    }
}

/// The plan that puts commits that are a line into the order of the list: the first gets the parents that the line's
/// first had, each further one the commit before it, and the children of the line's last one the new last one. Tags and
/// resets stay on their commits. Refused where it isn't two commits or more, where they are no line, and by the first
/// operation that a tree refuses. (reposurgeon manual, `reorder`.)
pub fn reorder(
    alloc: Global,
    events: &Events,
    manifests: &mut Manifests,
    list: &[AnyId],
) -> Result<Plan, Halt>
    requires selection { IsSelection events.now.list list.now }
    requires agrees { AgreesWith events.now.list manifests.old }
    ensures plans { Plans events.now events.now.next_id result
        (reorder_of list.now events.now.list) }
    ensures kept { manifests.new ≡ manifests.old }
{
    let _count = events.count();
    if list.len() < 2 {
        let found = list.len() as u64;
        return Err(Halt::Refused(Fault::WrongCount { found }));
    }
    if let Some(fault) = kind_fault(events, list) {
        return Err(Halt::Refused(fault));
    }
    let places = Flagged::new(alloc, events, list)?;
    let line = places.listed(alloc)?;
    let wanted = chosen(alloc, list)?;
    let plan = Plan::new(alloc, events)?;
    match reorder_these(
        alloc,
        &places,
        plan,
        manifests,
        line.as_slice(),
        wanted.as_slice(),
    ) {
        Ok(plan) => {
            a_reorder_keeps_soundness();
            Ok(plan)
        }
        Err(halt) => Err(halt),
    }
}
