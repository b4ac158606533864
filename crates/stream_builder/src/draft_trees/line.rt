//! The line of first parents, from a commit back.
ghost use Rattle.std.specs.Prelude.{◌≡◌, IfOk};
ghost use Rattle.stream_builder.specs.Keeping.{AreEarlier};
ghost use Rattle.stream_builder.specs.Lines.{IsLine, LeadsBack};

use crate::draft_trees::kept_trees::KeptTrees;
use path_tree::PathTree;
use plain_model::{CommitId, Items, NoMemory, ParentList};
use std::alloc::Global;
use stream_drafts::Drafts;

/// What a commit hangs on.
pub enum Back {
    Root,
    To(CommitId),
    Nowhere,
}

/// What a commit hangs on; a parent is an earlier commit.
pub fn step_back(drafts: &Drafts, commit: CommitId) -> Back
    ensures { LeadsBack drafts.now commit result }
{
    let Some(links) = drafts.commit(commit) else {
        return Back::Nowhere;
    };
    match links.parents {
        [] => Back::Root,
        [first, ..] => {
            if first.number() < commit.number() {
                Back::To(*first)
            } else {
                Back::Nowhere
            }
        }
    }
}

/// The commits from this one back along first parents, up to a root or to one whose tree is kept, which isn't among them;
/// and the tree on which the oldest of them hangs. There is none where that isn't there.
pub fn line_to(
    alloc: Global,
    drafts: &Drafts,
    kept: &KeptTrees,
    commit: CommitId,
) -> Result<(ParentList, Option<PathTree>), NoMemory>
    requires { AreEarlier drafts.now kept.now }
    ensures { IfOk result (λ line. IsLine drafts.now commit line.0 line.1) }
{
    let mut line: ParentList = Items::empty(alloc);
    let mut at = commit;
    loop {
        if let Some(tree) = kept.share(at)? {
            return Ok((line, Some(tree)));
        }
        match step_back(drafts, at) {
            Back::Root => {
                let root = PathTree::new(alloc)?;
                line.push(at)?;
                return Ok((line, Some(root)));
            }
            Back::To(parent) => {
                line.push(at)?;
                at = parent;
            }
            Back::Nowhere => return Ok((line, None)),
        }
    }
}
