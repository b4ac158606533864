//! In which order a reorder puts the events.
ghost use Rattle.std.specs.Prelude.{◌≡◌, IfOk};
ghost use Rattle.split_reorder.specs.Ordered.{ordered};

use plain_model::{AnyId, CommitId, IdList, NoMemory};
use plan_steps::Flagged;
use std::alloc::Global;

/// The ids of all events, where at the places of the commits of the set these stand in turn.
pub fn order(alloc: Global, places: &Flagged, commits: &[CommitId]) -> Result<IdList, NoMemory>
    ensures { IfOk result (λ ids. ids ≡ ordered places.now.set commits.now places.now.events) }
{
    let mut ids = IdList::new(alloc)?;
    let mut left = commits;
    for place in 0..places.count() {
        match places.commit_at(place) {
            Some(_) => {
                if let Some((next, others)) = left.split_first() {
                    ids.push(AnyId::Commit(*next))?;
                    left = others;
                }
            }
            None => ids.push(places.nth(place).id())?,
        }
    }
    Ok(ids)
}
