//! The joined commits before one that stays, and what it has of them.
ghost use Rattle.std.specs.Prelude.{◌≡◌, ◌++◌, flat_map, map, IfOk};
ghost use Rattle.coalesce_simplify.specs.Joining.{commit_node, first_joined};
ghost use Rattle.manifest_cache.specs.Walks.{ops_at};
ghost use Rattle.squash_laws.specs.Takings.{links};

use event_arena::Events;
use plain_model::{CommitId, FileOp, NoMemory, OpList};
use plan_steps::{Flagged, ops_of, parents_of, push_ops};
use std::alloc::Global;

// The first of these parents, if it is joined.
fn first_joined(going: &Flagged, parents: &[CommitId]) -> Option<CommitId>
    ensures { result ≡ first_joined going.now.set going.now.events parents.now }
{
    match parents.first() {
        Some(parent) => {
            if going.has(*parent) {
                Some(*parent)
            } else {
                None
            }
        }
        None => None,
    }
}

/// The joined commits before one with these parents, the oldest first.
pub fn joined_before(
    alloc: Global,
    going: &Flagged,
    parents: &[CommitId],
) -> Result<Vec<CommitId>, NoMemory>
    ensures { IfOk result (λ commits. links going.now.set going.now.events parents.now
        ≡ map (commit_node going.now.events) commits.items) }
{
    let _count = going.count();
    let mut commits = Vec::new(alloc);
    let mut at = first_joined(going, parents);
    while let Some(commit) = at {
        commits.push(commit)?;
        at = first_joined(going, parents_of(going.events(), commit));
    }
    commits.reverse();
    Ok(commits)
}

/// The operations of commits, one after another, and then these.
pub fn ops_after(
    alloc: Global,
    events: &Events,
    commits: &[CommitId],
    own: &[FileOp],
) -> Result<OpList, NoMemory>
    ensures { IfOk result (λ ops. ops ≡ flat_map (ops_at events.now.list) commits.now ++ own.now) }
{
    let mut ops = OpList::new(alloc)?;
    for commit in commits {
        push_ops(&mut ops, ops_of(events, *commit))?;
    }
    push_ops(&mut ops, own)?;
    Ok(ops)
}
