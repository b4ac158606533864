//! The events of a plan are put in order.
ghost use Rattle.std.specs.Prelude.{
  ◌≡◌,
  ◌<◌,
  Ok,
  Some,
  [],
  length,
  slice_get,
  take,
  true,
  IsOk,
  OnOk,
};
ghost use Rattle.edit_laws.specs.Parts.{AreInOrder};
ghost use Rattle.edit_laws.specs.Settling.{is_ready, settle};
ghost use Rattle.plain_model.specs.Lookups.{id_of, place_of};
ghost use Rattle.plan_steps.specs.Near.{AreReadyNear};

use crate::selection::Selected;
use edit_laws::settling_orders;
use event_arena::Plan;
use graph_walk::{is_ready_at, settle};
use plain_model::{Halt, NoMemory};
use std::alloc::Global;

// Whether what is left of the event at a place is after all that it refers to.
fn is_settled_at(removal: &Selected, plan: &Plan, place: usize) -> bool
    requires { place < length removal.now.events }
    ensures { (event left : _) (at : _) → slice_get removal.now.events place ≡ Some event →
        place_of (id_of event) plan.now.after ≡ Some at → slice_get plan.now.after at ≡ Some left →
        result ≡ true → is_ready (take at plan.now.after) left ≡ true }
{
    let _count = removal.count();
    match plan.place(removal.nth(place).id()) {
        Some(at) => is_ready_at(plan, at),
        None => true,
    }
}

/// Whether what is left of each near event is after all that it refers to.
pub fn are_near_settled(removal: &Selected, plan: &Plan) -> bool
    ensures { result ≡ true → AreReadyNear removal.now.set removal.now.events plan.now.after }
{
    let count = removal.count();
    let mut place = removal.next_near(0);
    while place < count {
        if !is_settled_at(removal, plan, place) {
            return false;
        }
        place = removal.next_near(place + 1);
    }
    true
}

/// Puts each event of a plan after all that it refers to, where that can be done.
pub fn put_in_order(alloc: Global, plan: &mut Plan) -> Result<(), NoMemory>
    requires { IsOk (settle plan.old.after) }
    ensures settled { OnOk result (settle plan.old.after ≡ Ok plan.new.after) }
    ensures others { OnOk result (plan.new ≡ record plan.old { after = plan.new.after }) }
{
    match settle(alloc, plan) {
        Ok(()) => Ok(()),
        Err(Halt::Memory) => Err(NoMemory),
        Err(Halt::Refused(_)) => unreachable!(),
    }
}

/// The same where at most near events aren't after what they refer to, so that mostly a look at these does.
pub fn put_near_in_order(alloc: Global, removal: &Selected, plan: &mut Plan) -> Result<(), NoMemory>
    requires settles { IsOk (settle plan.old.after) }
    requires others { AreReadyNear removal.now.set removal.now.events plan.old.after →
        AreInOrder [] plan.old.after }
    ensures settled { OnOk result (settle plan.old.after ≡ Ok plan.new.after) }
    ensures others { OnOk result (plan.new ≡ record plan.old { after = plan.new.after }) }
{
    if are_near_settled(removal, plan) {
        settling_orders();
        return Ok(());
    }
    put_in_order(alloc, plan)
}
