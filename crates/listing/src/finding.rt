//! Events of a history, found by their ids.
ghost use Rattle.std.specs.Prelude.{
  ◌≡◌,
  ◌<◌,
  Some,
  length,
  map,
  option_map,
  slice_get,
  IfOk,
  IfSome,
};
ghost use Rattle.listing.specs.Finding.{own_blob_mark, own_commit_mark};
ghost use Rattle.history_laws.specs.Finding.{IsDated};
ghost use Rattle.plain_model.specs.Lookups.{find_event, id_of};
ghost use Rattle.plain_model.specs.Snapshots.{commit_mark};
ghost use Rattle.plain_model.specs.Text.{blob_mark_in};

use event_arena::Events;
use plain_model::{AnyId, BlobId, CommitId, IdList, NoMemory, PlainEvent};
use std::alloc::Global;

/// The event with the id. Its dates are within their limit, since the history is sound.
pub fn event_of(events: &Events, id: AnyId) -> Option<&PlainEvent>
    ensures event { option_map (λ event. event.now) result ≡ find_event id events.now.list }
    ensures dated { IfSome result (λ event. IsDated event.now) }
{
    let _count = events.count();
    events.event(id)
}

/// The event at this place, from 0. Its dates are within their limit, since the history is
/// sound.
pub fn event_at(events: &Events, place: usize) -> &PlainEvent
    requires { place < length events.now.list }
    ensures event { slice_get events.now.list place ≡ Some result.now }
    ensures dated { IsDated result.now }
{
    let _count = events.count();
    events.nth(place)
}

fn own_mark(event: &PlainEvent) -> u64
    ensures { result ≡ own_commit_mark event.now }
{
    match event {
        PlainEvent::Commit { mark, .. } => mark.number(),
        _ => 0,
    }
}

/// The number of the commit's mark, or 0 where no commit has the id.
pub fn mark_of(events: &Events, id: CommitId) -> u64
    ensures { result ≡ commit_mark events.now.list id }
{
    match events.event(AnyId::Commit(id)) {
        Some(event) => own_mark(event),
        None => 0,
    }
}

fn own_blob_mark(event: &PlainEvent) -> u64
    ensures { result ≡ own_blob_mark event.now }
{
    match event {
        PlainEvent::Blob { mark, .. } => mark.number(),
        _ => 0,
    }
}

/// The number of the blob's mark, or 0 where no blob has the id.
#[tactic(auto, using(crate::proofs::Found::blob_found))]
pub fn blob_mark_of(events: &Events, id: BlobId) -> u64
    ensures { result ≡ blob_mark_in events.now.list events.now.list id }
{
    match events.event(AnyId::Blob(id)) {
        Some(event) => own_blob_mark(event),
        None => 0,
    }
}

/// The ids of all events, in their order.
pub fn all(alloc: Global, events: &Events) -> Result<IdList, NoMemory>
    ensures { IfOk result (λ ids. ids ≡ map id_of events.now.list) }
{
    let mut ids = IdList::new(alloc)?;
    for place in 0..events.count() {
        ids.push(events.nth(place).id())?;
    }
    Ok(ids)
}
