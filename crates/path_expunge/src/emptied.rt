//! Which commits are emptied.
ghost use Rattle.std.specs.Prelude.{◌≡◌, ◌<◌, Bool, Some, length, map, slice_get, IfOk};
ghost use Rattle.expunge_laws.specs.Expunged.{
  emptied,
  is_emptied,
  replaced_event,
  replaced_events,
};
ghost use Rattle.expunge_laws.specs.Untouched.{may_be_touched};
ghost use Rattle.plain_model.specs.Paths.{Bytes};

use event_arena::Plan;
use plain_model::{IdList, NoMemory};
use std::alloc::Global;

// Whether the commit at a place had an operation, has none left, and is no merge.
fn is_emptied_at(plan: &Plan, place: usize) -> bool
    requires before { place < length plan.now.before }
    requires after { place < length plan.now.after }
    ensures { (matched : Bytes → Bool) (events : _) (old new : _) →
        slice_get plan.now.before place ≡ Some old → slice_get plan.now.after place ≡ Some new →
        new ≡ replaced_event matched events old →
        result ≡ is_emptied matched events old }
{
    let old = plan.before();
    let new = plan.after();
    if old.ops_at(place).is_empty() || !new.ops_at(place).is_empty() {
        return false;
    }
    match old.parents_at(place) {
        [] => true,
        [_] => true,
        _ => false,
    }
}

/// The ids of the emptied commits of a plan whose operations were replaced. Only those where a matched path may be
/// touched are looked at.
pub fn emptied(alloc: Global, plan: &Plan, touched: &[bool]) -> Result<IdList, NoMemory>
    requires after { length plan.now.after ≡ length plan.now.before }
    requires touched { length touched.now ≡ length plan.now.before }
    ensures { IfOk result (λ ids. (matched : Bytes → Bool) →
        plan.now.after ≡ replaced_events matched plan.now.before →
        touched.now ≡ map (may_be_touched matched) plan.now.before →
        ids ≡ emptied matched plan.now.before) }
{
    let mut ids = IdList::new(alloc)?;
    let old = plan.before();
    for place in 0..plan.old_count() {
        if touched[place] && is_emptied_at(plan, place) {
            ids.push(old.id_at(place))?;
        }
    }
    Ok(ids)
}
