//! The marks of the blobs and the commits of a history, by id.
ghost use Rattle.std.specs.Prelude.{◌≡◌, option_map, unwrap_or};
ghost use Rattle.plain_model.specs.Lookups.{find_event};
ghost use Rattle.plain_model.specs.Snapshots.{commit_mark};
ghost use Rattle.plain_model.specs.Text.{blob_mark_in};
ghost use Rattle.stream_writer.specs.Marks.{main_mark};

use event_arena::Events;
use plain_model::{AnyId, BlobId, CommitId, PlainEvent};

fn main_mark(event: &PlainEvent) -> u64
    ensures { result ≡ main_mark event.now }
{
    match event {
        PlainEvent::Blob { mark, .. } => mark.number(),
        PlainEvent::Commit { mark, .. } => mark.number(),
        _ => 0,
    }
}

fn mark_of(history: &Events, id: AnyId) -> u64
    ensures { result ≡ unwrap_or (option_map main_mark (find_event id history.now.list)) 0 }
{
    match history.event(id) {
        Some(event) => main_mark(event),
        None => 0,
    }
}

/// The number of the blob's mark, or 0 where no blob has the id.
#[tactic(auto, using(crate::proofs::MarkLemmas::blob_found))]
pub fn blob_mark(history: &Events, id: BlobId) -> u64
    ensures { result ≡ blob_mark_in history.now.list history.now.list id }
{
    mark_of(history, AnyId::Blob(id))
}

/// The number of the commit's mark, or 0 where no commit has the id.
#[tactic(auto, using(crate::proofs::MarkLemmas::commit_found))]
pub fn commit_mark(history: &Events, id: CommitId) -> u64
    ensures { result ≡ commit_mark history.now.list id }
{
    mark_of(history, AnyId::Commit(id))
}
