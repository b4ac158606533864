//! What commits of a history have, by their ids.
ghost use Rattle.std.specs.Prelude.{◌≡◌, []};
ghost use Rattle.std.specs.Option.{option_map_or};
ghost use Rattle.commit_laws.specs.Selected.{node_of};
ghost use Rattle.manifest_cache.specs.Walks.{ops_at};
ghost use Rattle.plain_model.specs.Lookups.{event_parents, find_event};
ghost use Rattle.plain_model.specs.declared.id.AnyId.TheVariants.{Commit};

use event_arena::Events;
use plain_model::{AnyId, CommitId, FileOp};

/// The operations of a commit; none where it isn't there.
pub fn ops_of(events: &Events, commit: CommitId) -> &[FileOp]
    ensures found { result.now ≡ ops_at events.now.list commit }
    ensures node { result.now ≡ (node_of events.now.list commit).ops }
{
    let _count = events.count();
    match events.event(AnyId::Commit(commit)) {
        Some(event) => event.ops(),
        None => &[],
    }
}

/// The parents of a commit; none where it isn't there.
pub fn parents_of(events: &Events, commit: CommitId) -> &[CommitId]
    ensures found { result.now
        ≡ option_map_or event_parents (find_event (Commit commit) events.now.list) [] }
    ensures node { result.now ≡ (node_of events.now.list commit).parents }
{
    let _count = events.count();
    match events.event(AnyId::Commit(commit)) {
        Some(event) => event.parents(),
        None => &[],
    }
}
