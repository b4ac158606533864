//! From a commit back along first parents to one whose tree is kept, or to the root.
ghost use Rattle.std.specs.Prelude.{◌≡◌, IfOk, IsSome};
ghost use Rattle.plain_model.specs.Histories.{tree};
ghost use Rattle.manifest_cache.specs.Kept.{AgreesWith};
ghost use Rattle.manifest_cache.specs.Listed.{events_of};
ghost use Rattle.manifest_cache.specs.Walks.{Leads, first_parent, ops_at, parent_at};

use crate::listed::Listed;
use lru::LruCache;
use path_tree::PathTree;
use plain_model::{AnyId, CommitId, FileOp, Items, NoMemory, ParentList, PlainEvent};
use std::alloc::Global;

/// Kept trees, by the numbers of their commits' ids.
pub type Trees = LruCache<u64, PathTree>;

/// The first parent of an event that is a commit and has parents.
pub fn first_parent(event: &PlainEvent) -> Option<CommitId>
    ensures { result ≡ first_parent event.now }
{
    match event {
        PlainEvent::Commit { parents, .. } => parents.as_slice().first().copied(),
        _ => None,
    }
}

fn parent_at(listed: &Listed, commit: CommitId) -> Option<CommitId>
    ensures { result ≡ parent_at (events_of listed.now) commit }
{
    match listed.event(AnyId::Commit(commit)) {
        Some(event) => first_parent(event),
        None => None,
    }
}

/// The operations of a commit.
pub fn ops_at<'a>(listed: &'a Listed, commit: CommitId) -> &'a [FileOp]
    ensures { result.now ≡ ops_at (events_of listed.now) commit }
{
    match listed.event(AnyId::Commit(commit)) {
        Some(event) => event.ops(),
        None => &[],
    }
}

/// The commits to be folded for the tree of a commit, the newest first, and the tree on which the oldest hangs: the
/// kept one that is nearest on the line of first parents, or the empty one under the root.
pub fn walk_back(
    alloc: Global,
    kept: &Trees,
    listed: &Listed,
    commit: CommitId,
) -> Result<(ParentList, PathTree), NoMemory>
    requires agrees { AgreesWith (events_of listed.now) kept.now.entries }
    requires there { IsSome (tree (events_of listed.now) commit) }
    ensures { IfOk result
        (λ found. Leads kept.now.entries (events_of listed.now) commit found.0 found.1) }
{
    // Its contract says that no event is there twice.
    let _ = listed.count();
    let mut walk: ParentList = Items::empty(alloc);
    let mut at = commit;
    loop {
        if let Some(tree) = kept.peek(&at.number()) {
            return Ok((walk, tree.share()?));
        }
        walk.push(at)?;
        match parent_at(listed, at) {
            Some(parent) => at = parent,
            None => return Ok((walk, PathTree::new(alloc)?)),
        }
    }
}
