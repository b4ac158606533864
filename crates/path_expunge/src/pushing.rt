//! The emptied commits of a plan give way.
ghost use Rattle.std.specs.Prelude.{◌≡◌, false, filter, length, map, IfOk, OnOk};
ghost use Rattle.std.specs.List.{AllByRecursion};
ghost use Rattle.expunge_laws.specs.InLine.{IsInLine};
ghost use Rattle.expunge_laws.specs.PushForward.{forward_takes};
ghost use Rattle.path_expunge.specs.Fates.{FateIs, taken};
ghost use Rattle.plain_model.specs.Histories.{nodes};
ghost use Rattle.plain_model.specs.Lookups.{id_of};
ghost use Rattle.plain_model.specs.Soundness.{IsSound};
ghost use Rattle.plan_steps.specs.Leaving.{goes};
ghost use Rattle.plan_steps.specs.Near.{AreLinkedAlike};
ghost use Rattle.plan_steps.specs.Tables.{IsTable};
ghost use Rattle.squash_laws.specs.Removed.{all_left};
ghost use Rattle.plain_model.specs.declared.policy.Lean.TheVariants as lean;

use crate::fates::{Fate, fates};
use crate::giving::give_all;
use event_arena::{Events, Plan};
use plain_model::{AnyId, IdList, Lean, NoMemory};
use plan_steps::{Selected, leaving_ids, moved_targets, removed_ways_back};
use std::alloc::Global;

// Which events go, and what becomes of all.
#[derive(Drop)]
struct Prepared {
    ids: IdList,
    fates: Vec<Fate>,
}

// Finds them in a plan that is only looked at.
fn prepare(alloc: Global, events: &Events, plan: &Plan, set: &[AnyId]) -> Result<Prepared, NoMemory>
    requires sound { IsSound plan.now.after }
    requires alike { AreLinkedAlike events.now.list plan.now.after }
    requires line { AllByRecursion (IsInLine set.now plan.now.after) (nodes plan.now.after) }
    ensures ids { IfOk result (λ prepared. prepared.ids
        ≡ map id_of (filter (goes set.now (taken set.now plan.now.after)) plan.now.after)) }
    ensures fates { IfOk result (λ prepared.
        IsTable Fate.Same (FateIs set.now plan.now.after) plan.now.after prepared.fates.items) }
{
    let removal = Selected::linked_as(alloc, events, plan, set)?;
    let back = removed_ways_back(alloc, &removal)?;
    let targets = moved_targets(alloc, &removal, Lean::Forward)?;
    let ids = leaving_ids(alloc, &removal, &targets)?;
    let fates = fates(alloc, &removal, &back, &targets)?;
    Ok(Prepared { ids, fates })
}

/// Takes the commits of a set away, and lets what follows them hang on what stands for them. Nothing is taken over from
/// them but that a commit begins without files. Which events are near the set is known from the history.
pub fn give_way(
    alloc: Global,
    events: &Events,
    plan: &mut Plan,
    set: &[AnyId],
) -> Result<(), NoMemory>
    requires sound { IsSound plan.old.after }
    requires alike { AreLinkedAlike events.now.list plan.old.after }
    requires line { AllByRecursion (IsInLine set.now plan.old.after) (nodes plan.old.after) }
    ensures { OnOk result (plan.new ≡ record plan.old {
      after = all_left set.now plan.old.after
          (forward_takes set.now plan.old.after false lean.Forward);
    }) }
{
    let _count = plan.count();
    let prepared = prepare(alloc, events, plan, set)?;
    give_all(alloc, plan, &prepared.fates)?;
    plan.remove_all(&prepared.ids)
}
