//! The settled order of what is left.
ghost use Rattle.std.specs.Prelude.{◌≡◌, Ok, IfErr, OnErr, OnOk};
ghost use Rattle.edit_laws.specs.Parts.{AreComplete};
ghost use Rattle.edit_laws.specs.Settling.{settle};
ghost use Rattle.graph_walk.specs.Outcome.{IsCauseOf};
ghost use Rattle.squash_laws.specs.Removed.{without_set};
ghost use Rattle.squash_laws.specs.Takings.{takes};

use edit_laws::settling_orders;
use event_arena::Plan;
use graph_walk::settle;
use plain_model::{Halt, Policy, Push};
use plan_steps::{Selected, are_near_settled};
use std::alloc::Global;

/// Settles what a squash leaves. Where operations aren't pushed back, only near events refer to others than before, so that
/// mostly a look at them does.
pub fn settle_left(
    alloc: Global,
    removal: &Selected,
    plan: &mut Plan,
    how: Policy,
) -> Result<(), Halt>
    requires left { plan.old.after ≡ without_set removal.now.set removal.now.events
        (takes removal.now.set removal.now.events how) }
    requires complete { AreComplete plan.old.after }
    ensures settled { OnOk result (settle plan.old.after ≡ Ok plan.new.after) }
    ensures others { plan.new ≡ record plan.old { after = plan.new.after } }
    ensures cause { IfErr result (IsCauseOf plan.old.after) }
    ensures err { OnErr result (plan.new ≡ plan.old) }
{
    let _count = removal.count();
    let is_done = match how.push {
        Push::Forward | Push::Discard => are_near_settled(removal, plan),
        Push::Back => false,
    };
    if is_done {
        settling_orders();
        return Ok(());
    }
    settle(alloc, plan)
}
