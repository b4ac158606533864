//! The sample.
ghost use Rattle.std.specs.Prelude.{◌≡◌, ◌<◌, ◌≤◌, ◌^◌, IfOk};
ghost use Rattle.plain_model.specs.Lookups.{AreIdsBelow};
ghost use Rattle.plain_model.specs.Soundness.{IsSound};
ghost use Rattle.sample_history.specs.Sample.{drawn, sample, stepped};

use crate::parts::{blob_of, commit_of};
use plain_model::{EventList, MAX_SAMPLE_COMMITS, NoMemory};
use std::alloc::Global;

fn stepped(state: u64) -> u64
    ensures { result ≡ stepped state }
{
    state
        .wrapping_mul(6364136223846793005)
        .wrapping_add(1442695040888963407)
}

fn drawn(state: u64) -> u64
    ensures { result ≡ drawn state }
{
    state / (1 << 33)
}

/// A history of so many commits, but no more than `MAX_SAMPLE_COMMITS`, each with a blob of its own, on one branch. Some commits have a
/// second parent, and some delete a path. The same numbers give the same history. (own)
#[tactic(auto, unfolding(crate::specs::Sample::sample))]
pub fn sample_events(alloc: Global, count: u64, start: u64) -> Result<EventList, NoMemory>
    ensures list { IfOk result (λ list. list ≡ sample count start) }
    ensures sound { IfOk result (λ list. IsSound list) }
    ensures low { IfOk result (λ list. AreIdsBelow (2 ^ 62) list) }
{
    let mut list = EventList::new(alloc)?;
    let mut state = start;
    for before in 0..count.min(MAX_SAMPLE_COMMITS) {
        state = stepped(state);
        let drawn = drawn(state);
        list.push(blob_of(alloc, before + 1, drawn)?)?;
        list.push(commit_of(alloc, before + 1, drawn)?)?;
    }
    Ok(list)
}
