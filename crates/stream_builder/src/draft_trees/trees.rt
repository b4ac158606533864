//! The tree of a commit.
ghost use Rattle.std.specs.Prelude.{◌≡◌, IfOk, List};
ghost use Rattle.plain_model.specs.declared.event.PlainEvent.{PlainEvent};
ghost use Rattle.stream_builder.specs.Keeping.{AreEarlier, IsEarlier};
ghost use Rattle.stream_builder.specs.Lines.{AreFolded, along, ops_at};
ghost use Rattle.plain_model.specs.Histories.{folded as tree_after};
ghost use Rattle.plain_model.specs.Histories.{tree};

use crate::draft_trees::folding::folded;
use crate::draft_trees::kept_trees::KeptTrees;
use crate::draft_trees::line::line_to;
use path_tree::PathTree;
use plain_model::{CommitId, NoMemory};
use std::alloc::Global;
use stream_drafts::Drafts;

// The tree after a commit, which hangs on another.
fn folded_after(
    drafts: &Drafts,
    commit: CommitId,
    base: Option<PathTree>,
) -> Result<Option<PathTree>, NoMemory>
    ensures { IfOk result (λ made. made ≡ tree_after (ops_at drafts.now commit) base) }
{
    match drafts.commit(commit) {
        Some(links) => folded(links.ops, base),
        None => Ok(base),
    }
}

// Keeps the tree of a commit at a place of a line of so many, the newest first, where it is the newest or half way to it: so
// for no commit that begins on the line later on is more than half of it folded again.
fn keep_on_way(
    kept: &mut KeptTrees,
    commit: CommitId,
    place: usize,
    count: usize,
    tree: &Option<PathTree>,
)
    ensures { (events : List PlainEvent) → AreEarlier events kept.old →
        IsEarlier events commit tree.now → AreEarlier events kept.new }
{
    if place == 0 || place == count / 2 {
        kept.put_share(commit, tree);
    }
}

// The tree after the commits of a line, the newest of them first, some of which are kept.
fn folded_along(
    drafts: &Drafts,
    line: &[CommitId],
    base: Option<PathTree>,
    kept: &mut KeptTrees,
) -> Result<Option<PathTree>, NoMemory>
    requires each { AreFolded drafts.now line.now base }
    requires earlier { AreEarlier drafts.now kept.old }
    ensures made { IfOk result (λ made. made ≡ along drafts.now line.now base) }
    ensures earlier { AreEarlier drafts.now kept.new }
{
    let mut made = base;
    for after in 0..line.len() {
        let place = line.len() - 1 - after;
        let commit = line[place];
        made = folded_after(drafts, commit, made)?;
        keep_on_way(kept, commit, place, line.len(), &made);
    }
    Ok(made)
}

/// The tree of a commit among drafts, folded along its first parents from the nearest that is kept, and else from the root.
/// There is none where an operation is refused, and where there is no such commit. (git-fast-import, `from`, file
/// operations.)
pub fn tree_of(
    alloc: Global,
    drafts: &Drafts,
    kept: &mut KeptTrees,
    commit: CommitId,
) -> Result<Option<PathTree>, NoMemory>
    requires { AreEarlier drafts.now kept.old }
    ensures made { IfOk result (λ made. made ≡ tree drafts.now commit) }
    ensures earlier { AreEarlier drafts.now kept.new }
{
    let (line, base) = line_to(alloc, drafts, kept, commit)?;
    folded_along(drafts, line.as_slice(), base, kept)
}
