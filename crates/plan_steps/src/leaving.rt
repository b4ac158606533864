//! Which events go.
ghost use Rattle.std.specs.Prelude.{
  ◌≡◌,
  ◌<◌,
  ◌&&◌,
  None,
  Some,
  filter,
  is_some,
  length,
  map,
  not,
  slice_get,
  slice_index_or,
  IfOk,
};
ghost use Rattle.plain_model.specs.Lookups.{id_of};
ghost use Rattle.plan_steps.specs.Leaving.{goes};
ghost use Rattle.plan_steps.specs.Targets.{AreMoves, lost_target};
ghost use Rattle.squash_laws.specs.Removed.{Takings};

use crate::selection::Selected;
use crate::targets::{lost_at, target_at};
use plain_model::{AnyId, CommitId, IdList, NoMemory};
use std::alloc::Global;

// Whether the tag or the reset at a place is on a removed commit, and no other is left for it.
fn is_lost(removal: &Selected, targets: &[Option<CommitId>], place: usize) -> bool
    requires { place < length removal.now.events }
    ensures { (event : _) → slice_get removal.now.events place ≡ Some event → result
        ≡ (is_some (lost_target removal.now.set event) && not (is_some (slice_index_or targets.now place None))) }
{
    lost_at(removal, place).is_some() && target_at(targets, place).is_none()
}

// Whether the event at a place goes: it is one of the set and no blob, or no commit is left for it.
fn goes(removal: &Selected, targets: &[Option<CommitId>], place: usize) -> bool
    requires { place < length removal.now.events }
    ensures { (takes : Takings) (event : _) → AreMoves removal.now.set takes.target removal.now.events targets.now →
        slice_get removal.now.events place ≡ Some event → result ≡ goes removal.now.set takes event }
{
    match removal.list().id_at(place) {
        AnyId::Blob(_) => false,
        _ => removal.has_at(place) || is_lost(removal, targets, place),
    }
}

/// The ids of the events that go, in the order of the list.
pub fn leaving_ids(
    alloc: Global,
    removal: &Selected,
    targets: &[Option<CommitId>],
) -> Result<IdList, NoMemory>
    ensures { IfOk result (λ ids. (takes : Takings) →
        AreMoves removal.now.set takes.target removal.now.events targets.now →
        ids ≡ map id_of (filter (goes removal.now.set takes) removal.now.events)) }
{
    let mut ids = IdList::new(alloc)?;
    let count = removal.count();
    let mut place = removal.next_near(0);
    while place < count {
        if goes(removal, targets, place) {
            ids.push(removal.list().id_at(place))?;
        }
        place = removal.next_near(place + 1);
    }
    Ok(ids)
}
