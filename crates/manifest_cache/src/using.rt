//! The tree of a commit is used: folded, where it isn't kept, and kept.
ghost use Rattle.std.specs.Prelude.{◌≡◌, ◌+◌, ◌≤◌, Some, IsSome, IsTrue, OnErr, OnOk, nat_eq};
ghost use Rattle.std.specs.Map.{lookup};
ghost use Rattle.lru.specs.LruCache.{lru_cache};
ghost use Rattle.plain_model.specs.Histories.{tree};
ghost use Rattle.plain_model.specs.Lookups.{find_event};
ghost use Rattle.plain_model.specs.Trees.{Tree};
ghost use Rattle.plain_model.specs.declared.id.AnyId.TheVariants.{Commit};
ghost use Rattle.manifest_cache.specs.Kept.{AgreesWith, is_kept, ops_to_fold, used};

use crate::folding::tree_of;
use crate::listed::Listed;
use crate::walk::Trees;
use event_arena::Events;
use path_tree::PathTree;
use plain_model::{CommitId, NoMemory, Steps};
use std::alloc::Global;

/// Folds the tree of a commit from the nearest one that is kept, and keeps it.
pub fn keep<L>(
    alloc: Global,
    kept: &mut Trees,
    events: &Events,
    commit: CommitId,
    steps: &mut Steps<L>,
) -> Result<(), NoMemory>
    requires agrees { AgreesWith events.now.list kept.old.entries }
    requires live { IsSome (find_event (Commit commit) events.now.list) }
    requires cap { kept.old.cap ≡ 64 }
    ensures ok { OnOk result ((t : Tree) × (tree events.now.list commit ≡ Some t)
        × (kept.new ≡ lru_cache (used commit t kept.old.entries) 64)) }
    ensures err { OnErr result (kept.new ≡ kept.old) }
    ensures counted { steps.new ≤ steps.old + ops_to_fold kept.old.entries events.now.list commit }
{
    if kept.contains(&commit.number()) {
        kept.promote(&commit.number());
        return Ok(());
    }
    // Its contract says that the history is sound.
    let _ = events.count();
    let tree = tree_of(alloc, kept, &Listed::History(events), commit, steps)?;
    kept.put(commit.number(), tree)?;
    Ok(())
}

/// The kept tree of a commit.
pub fn kept_tree(kept: &Trees, commit: CommitId) -> &PathTree
    requires { IsTrue (is_kept kept.now.entries commit) }
    ensures { lookup (nat_eq commit) kept.now.entries ≡ Some result.now }
{
    match kept.peek(&commit.number()) {
        Some(tree) => tree,
        None => unreachable!(),
    }
}
