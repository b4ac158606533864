//! The tree of a commit: operations one after another, each counted.
ghost use Rattle.std.specs.Prelude.{◌≡◌, ◌+◌, ◌≤◌, Some, length, IfOk, IsSome, OnOk};
ghost use Rattle.plain_model.specs.Histories.{folded, tree};
ghost use Rattle.manifest_cache.specs.Kept.{AgreesWith, ops_to_fold};
ghost use Rattle.manifest_cache.specs.Listed.{events_of};
ghost use Rattle.manifest_cache.specs.Walks.{ops_back};

use crate::listed::Listed;
use crate::walk::{Trees, ops_at, walk_back};
use path_tree::{ApplyFault, PathTree};
use plain_model::{CommitId, FileOp, NoMemory, Steps};
use std::alloc::Global;

// Applies the operations of a commit.
fn apply_all<L>(tree: &mut PathTree, ops: &[FileOp], steps: &mut Steps<L>) -> Result<(), NoMemory>
    requires { IsSome (folded ops.now (Some tree.old)) }
    ensures done { OnOk result (folded ops.now (Some tree.old) ≡ Some tree.new) }
    ensures counted { steps.new ≤ steps.old + length ops.now }
{
    for op in ops {
        match tree.apply(op, steps) {
            Ok(()) => {}
            Err(ApplyFault::Memory) => return Err(NoMemory),
            // A history in which an operation is refused isn't sound.
            Err(_) => unreachable!(),
        }
    }
    Ok(())
}

// The tree after the commits of a walk, the last of them first.
fn folded<L>(
    listed: &Listed,
    walk: &[CommitId],
    base: PathTree,
    steps: &mut Steps<L>,
) -> Result<PathTree, NoMemory>
    requires { IsSome (folded (ops_back (events_of listed.now) walk.now) (Some base)) }
    ensures tree { IfOk result
        (λ made. folded (ops_back (events_of listed.now) walk.now) (Some base) ≡ Some made) }
    ensures counted { steps.new ≤ steps.old + length (ops_back (events_of listed.now) walk.now) }
{
    let mut tree = base;
    for after in 0..walk.len() {
        let commit = walk[walk.len() - 1 - after];
        apply_all(&mut tree, ops_at(listed, commit), steps)?;
    }
    Ok(tree)
}

/// The tree of a commit, folded from the nearest one that is kept.
pub fn tree_of<L>(
    alloc: Global,
    kept: &Trees,
    listed: &Listed,
    commit: CommitId,
    steps: &mut Steps<L>,
) -> Result<PathTree, NoMemory>
    requires agrees { AgreesWith (events_of listed.now) kept.now.entries }
    requires there { IsSome (tree (events_of listed.now) commit) }
    ensures tree { IfOk result (λ made. tree (events_of listed.now) commit ≡ Some made) }
    ensures counted { steps.new
        ≤ steps.old + ops_to_fold kept.now.entries (events_of listed.now) commit }
{
    let (walk, base) = walk_back(alloc, kept, listed, commit)?;
    folded(listed, walk.as_slice(), base, steps)
}
