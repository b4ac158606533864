//! A commit or a reset is over.
ghost use Rattle.std.specs.Prelude.{◌≡◌, [], length, unwrap_or, IfOk, OnErr, OnOk, ◌+◌, ◌≤◌};
ghost use Rattle.stream_grammar.specs.Known.{closed, closed_commit};
ghost use Rattle.history_laws.specs.Counts.{ops_in as count_in};
ghost use Rattle.stream_builder.specs.Building.{commit_of, known_of, ops_in, parents_in};
ghost use Rattle.stream_builder.specs.Agreement.{HasAtMost, IsOpened, TreesAgree, open_tree};

use crate::known::{OpenTree, Trees};
use crate::open::{Open, OpenCommit};
use plain_model::{Copied, NoMemory, Shared, Signed};
use std::alloc::Global;
use stream_drafts::{CommitFields, Drafts};

/// How many operations the event has that is being read.
pub fn count_ops(current: &Open) -> u64
    ensures { result ≡ length (ops_in current.now) }
{
    match current {
        Open::Commit(commit) => commit.ops.as_slice().len() as u64,
        _ => 0,
    }
}

fn author_of(alloc: Global, author: Option<Signed>, committer: &Signed) -> Result<Signed, NoMemory>
    ensures { IfOk result (λ who. who ≡ unwrap_or author committer.now) }
{
    match author {
        Some(author) => Ok(author),
        None => committer.copied(alloc),
    }
}

// Puts a commit at the end, with its tree, and says how many operations it has. It has to have a committer; else there
// was none.
fn push_commit(
    alloc: Global,
    drafts: &mut Drafts,
    trees: &mut Trees,
    commit: OpenCommit,
    tree: OpenTree,
) -> Result<u64, NoMemory>
    ensures events { OnOk result
        (drafts.new ≡ closed_commit drafts.old (commit_of commit) commit.committer) }
    ensures count { IfOk result (λ n. count_in drafts.new ≡ count_in drafts.old + n) }
    ensures within { IfOk result (λ n. n ≤ length commit.ops) }
    ensures trees { OnOk result (TreesAgree trees.old drafts.old [] [] →
        IsOpened tree (open_tree drafts.old commit.parents commit.ops) →
        HasAtMost trees.old.most (open_tree drafts.old commit.parents commit.ops) →
        TreesAgree trees.new drafts.new [] []) }
    ensures err { OnErr result ((drafts.new ≡ drafts.old) × (trees.new ≡ trees.old)) }
{
    let OpenCommit {
        branch,
        mark,
        author,
        committer,
        encoding,
        comment,
        parents,
        ops,
    } = commit;
    let Some(committer) = committer else {
        return Ok(0);
    };
    let author = author_of(alloc, author, &committer)?;
    let count = ops.as_slice().len() as u64;
    let ops = Shared::new(alloc, ops)?;
    let fields = CommitFields {
        branch,
        author,
        committer,
        encoding,
        comment,
        parents,
        ops,
    };
    let id = drafts.push_commit(mark, fields)?;
    trees.keep(id, tree);
    Ok(count)
}

/// Puts the event that was read at the end, if it is a commit or a reset, and says how many operations it has. All others
/// are there already.
pub fn push_open(
    alloc: Global,
    drafts: &mut Drafts,
    trees: &mut Trees,
    current: Open,
    tree: OpenTree,
) -> Result<u64, NoMemory>
    ensures events { OnOk result (drafts.new ≡ closed (known_of drafts.old [] current)) }
    ensures count { IfOk result (λ n. count_in drafts.new ≡ count_in drafts.old + n) }
    ensures within { IfOk result (λ n. n ≤ length (ops_in current)) }
    ensures trees { OnOk result (TreesAgree trees.old drafts.old [] [] →
        IsOpened tree (open_tree drafts.old (parents_in current) (ops_in current)) →
        HasAtMost trees.old.most (open_tree drafts.old (parents_in current) (ops_in current)) →
        TreesAgree trees.new drafts.new [] []) }
    ensures err { OnErr result ((drafts.new ≡ drafts.old) × (trees.new ≡ trees.old)) }
{
    match current {
        Open::Commit(commit) => push_commit(alloc, drafts, trees, commit, tree),
        Open::Reset { branch, target } => {
            drafts.push_reset(branch, target)?;
            Ok(0)
        }
        _ => Ok(0),
    }
}
