//! A push forward in a plan, after whatever it has changed.
ghost use Rattle.std.specs.Prelude.{
  ◌≡◌,
  ◌≤◌,
  Err,
  None,
  Some,
  filter,
  length,
  map,
  IfOk,
  OnOk,
};
ghost use Rattle.edit_laws.specs.Sweeping.{swept};
ghost use Rattle.event_arena.specs.Changes.{without_all};
ghost use Rattle.expunge_laws.specs.PushForward.{push_forward_of};
ghost use Rattle.plain_model.specs.Faults.{Returns};
ghost use Rattle.plain_model.specs.Lookups.{alias_count, id_of};
ghost use Rattle.plain_model.specs.Soundness.{IsSound};
ghost use Rattle.plain_model.specs.declared.limit.TheConstants.{MAX_ALIASES, MAX_EVENTS};
ghost use Rattle.plan_steps.specs.Leaving.{goes};
ghost use Rattle.plan_steps.specs.Tables.{IsTable};
ghost use Rattle.squash_delete.specs.Fates.{FateIs, all_given, left_events, limit_left, taken};

use crate::fates::{Fate, Prepared, prepare};
use crate::giving::give_all;
use crate::judging::limit_left;
use event_arena::Plan;
use expunge_laws::{
    a_push_forward_finishes_an_edit, operations_and_parents_alone_refuse_a_push_forward,
};
use plain_model::{AnyId, Fault, Halt, Lean, NoMemory};
use plan_steps::{Selected, put_in_order, sweep};
use std::alloc::Global;

// Finds what becomes of the events of a plan, which is only looked at, if that passes no limit.
fn prepare_after(
    alloc: Global,
    plan: &Plan,
    set: &[AnyId],
    comments: bool,
    tags: Lean,
) -> Result<Prepared, Halt>
    requires { IsSound plan.now.after }
    ensures ids { IfOk result (λ made. made.ids
        ≡ map id_of (filter (goes set.now (taken set.now plan.now.after comments tags)) plan.now.after)) }
    ensures fates { IfOk result (λ made. IsTable Fate.Same
        (FateIs set.now plan.now.after comments tags) plan.now.after made.fates.items) }
    ensures within { OnOk result (limit_left (left_events set.now plan.now.after comments tags) ≡ None) }
    ensures passed { (fault : Fault) → result ≡ Err (Halt.Refused fault) →
        limit_left (left_events set.now plan.now.after comments tags) ≡ Some fault }
{
    let removal = Selected::after(alloc, plan, set)?;
    let made = prepare(alloc, &removal, comments, tags)?;
    match limit_left(&removal, &made.fates) {
        Some(fault) => Err(Halt::Refused(fault)),
        None => Ok(made),
    }
}

// Lets all events become what they become, and takes away those that go, and the blobs that nothing names any more.
fn carry(alloc: Global, plan: &mut Plan, prepared: &Prepared) -> Result<(), NoMemory>
    requires { length prepared.now.fates.items ≡ length plan.old.after }
    ensures { OnOk result (plan.new ≡ record plan.old {
      after = swept plan.old.before (without_all prepared.now.ids (all_given prepared.now.fates.items plan.old.after));
    }) }
{
    give_all(plan, &prepared.fates)?;
    plan.remove_all(&prepared.ids)?;
    sweep(alloc, plan)
}

/// Takes the commits, tags, resets and passed lines of a set out of what a plan leaves, as a squash that pushes forward
/// does: those that stay take over operations, and comments where that is wanted. Blobs go that the history before the plan
/// named, and nothing names any more. Refused by too many operations, or by a commit with too many parents, and then the
/// plan is as it was; after want of memory it may be anything.
pub fn push_forward(
    alloc: Global,
    plan: &mut Plan,
    set: &[AnyId],
    comments: bool,
    tags: Lean,
) -> Result<(), Halt>
    requires sound { IsSound plan.old.after }
    requires events { length plan.old.after ≤ MAX_EVENTS }
    requires aliases { alias_count plan.old.after ≤ MAX_ALIASES }
    ensures answer { Returns (λ done. plan.new.after) result
        (push_forward_of plan.old.before set.now plan.old.after comments tags) }
    ensures others { OnOk result (plan.new ≡ record plan.old { after = plan.new.after }) }
    ensures sound { OnOk result (IsSound plan.new.after) }
    ensures refused { (fault : Fault) → result ≡ Err (Halt.Refused fault) → plan.new ≡ plan.old }
{
    a_push_forward_finishes_an_edit();
    operations_and_parents_alone_refuse_a_push_forward();
    let prepared = match prepare_after(alloc, plan, set, comments, tags) {
        Ok(prepared) => prepared,
        Err(halt) => return Err(halt),
    };
    carry(alloc, plan, &prepared)?;
    put_in_order(alloc, plan)?;
    Ok(())
}
