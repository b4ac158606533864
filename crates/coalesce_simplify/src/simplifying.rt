//! The plan of a simplifying.
ghost use Rattle.std.specs.Prelude.{◌≡◌, Some, map, slice_get, IfOk, OnOk};
ghost use Rattle.event_arena.specs.Changes.{changed};
ghost use Rattle.event_arena.specs.Plans.{Plans, leaving};
ghost use Rattle.manifest_cache.specs.Kept.{AgreesWith};
ghost use Rattle.plain_model.specs.Lookups.{find_event, id_of};
ghost use Rattle.coalesce_simplify.specs.Voiding.{simple_event};
ghost use Rattle.simplify_laws.specs.Simplify.{simplified, simplified_event, simplify_of};

use crate::voiding::simpler;
use event_arena::{Events, Plan};
use manifest_cache::Manifests;
use plain_model::{AnyId, Halt, NoMemory, PlainEvent};
use plan_steps::{Flagged, sweep};
use simplify_laws::simplifying_keeps_soundness;
use std::alloc::Global;

// Takes the void operations of an event of the plan away, if it is a commit.
fn simplify_one(alloc: Global, plan: &mut Plan, event: &PlainEvent) -> Result<(), NoMemory>
    requires { find_event (id_of event.now) plan.old.after ≡ Some event.now }
    ensures { OnOk result (plan.new ≡ record plan.old {
      after = changed (id_of event.now) simple_event plan.old.after;
    }) }
{
    let PlainEvent::Commit { id, ops, .. } = event else {
        return Ok(());
    };
    let found = simpler(alloc, ops.as_slice())?;
    // Each setting copies the event, so none is set that stays as it is.
    match found {
        Some(left) => plan.set_ops(*id, left),
        None => Ok(()),
    }
}

// Takes the void operations of the event at a place away, if it is a commit of the set.
fn simplify_at(
    alloc: Global,
    chosen: &Flagged,
    plan: &mut Plan,
    event: &PlainEvent,
    place: usize,
) -> Result<(), NoMemory>
    requires event { slice_get chosen.now.events place ≡ Some event.now }
    requires found { find_event (id_of event.now) plan.old.after ≡ Some event.now }
    ensures { OnOk result (plan.new ≡ record plan.old {
      after = changed (id_of event.now) (simplified_event chosen.now.set) plan.old.after;
    }) }
{
    if chosen.has_at(place) {
        simplify_one(alloc, plan, event)
    } else {
        Ok(())
    }
}

// Takes the void operations of all commits of the set away.
fn simplify_all(alloc: Global, chosen: &Flagged, plan: &mut Plan) -> Result<(), NoMemory>
    requires { plan.old.after ≡ chosen.now.events }
    ensures { OnOk result (plan.new ≡ record plan.old {
      after = map (simplified_event chosen.now.set) chosen.now.events;
    }) }
{
    for place in 0..chosen.count() {
        simplify_at(alloc, chosen, plan, chosen.nth(place), place)?;
    }
    Ok(())
}

// The plan in which the commits of a set are without void operations, and the blobs are gone that only those named.
fn simplified(alloc: Global, events: &Events, set: &[AnyId]) -> Result<Plan, NoMemory>
    ensures { IfOk result (λ plan. plan ≡ leaving events.now (simplified set.now events.now.list)) }
{
    let chosen = Flagged::new(alloc, events, set)?;
    let mut plan = Plan::new(alloc, events)?;
    simplify_all(alloc, &chosen, &mut plan)?;
    sweep(alloc, &mut plan)?;
    Ok(plan)
}

/// The plan that drops the operations of selected commits that later ones of the same commit make void, and the blobs
/// that only they named. Refused by the first operation that a tree refuses then, which only the number of paths can
/// do. (own)
pub fn simplify(
    alloc: Global,
    events: &Events,
    manifests: &mut Manifests,
    set: &[AnyId],
) -> Result<Plan, Halt>
    requires agrees { AgreesWith events.now.list manifests.old }
    ensures plans { Plans events.now events.now.next_id result
        (simplify_of set.now events.now.list) }
    ensures kept { manifests.new ≡ manifests.old }
{
    let _count = events.count();
    let plan = simplified(alloc, events, set)?;
    match manifests.check(&plan) {
        Ok(()) => {
            simplifying_keeps_soundness();
            Ok(plan)
        }
        Err(halt) => Err(halt),
    }
}
