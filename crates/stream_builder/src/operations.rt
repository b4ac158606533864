//! The operations of a commit.
ghost use Rattle.std.specs.Prelude.{◌≡◌, ◌∷◌, ◌++◌, [], codes};
ghost use Rattle.stream_fields.specs.Answers.{Gives};
ghost use Rattle.stream_grammar.specs.Known.{modify_after};
ghost use Rattle.stream_builder.specs.Agreement.{TreesAgree};
ghost use Rattle.stream_builder.specs.Operating.{PutsLast};

use crate::fault::LineFault;
use crate::known::Trees;
use crate::open::OpenCommit;
use crate::references::place;
use plain_model::{FileOp, Why};
use std::alloc::Global;
use stream_drafts::Drafts;
use stream_fields::{FieldFault, or_defect, read_content, read_last_path, read_mode, words};

/// `MODE CONTENT PATH`: what `M` puts at a path. (git-fast-import, `filemodify`.)
pub fn read_modify(alloc: Global, drafts: &Drafts, text: &[u8]) -> Result<FileOp, FieldFault>
    ensures { Gives (λ op. op) result (modify_after drafts.now text.now) }
{
    let (mode, fields) = words(text);
    let mode = read_mode(mode)?;
    let fields = or_defect(Why::BadMark, fields)?;
    let (content, path) = words(fields);
    let content = read_content(mode, content)?;
    let content = place(drafts, content)?;
    let path = read_last_path(alloc, path)?;
    Ok(FileOp::Modify {
        mode,
        content,
        path,
    })
}

/// Puts one more operation after those of a commit, unless it passes a limit of trees.
pub fn put_last(
    alloc: Global,
    drafts: &Drafts,
    trees: &mut Trees,
    commit: &mut OpenCommit,
    op: FileOp,
) -> Result<(), LineFault>
    requires { TreesAgree trees.old drafts.now commit.old.parents commit.old.ops }
    ensures { PutsLast drafts.now commit.old op result commit.new trees.new }
{
    let before = commit.ops.as_slice().len();
    commit.ops.push(op)?;
    let (earlier, last) = commit.ops.as_slice().split_at(before);
    let parents = commit.parents.as_slice();
    match trees.push(alloc, drafts, parents, earlier, &last[0]) {
        Ok(()) => Ok(()),
        Err(fault) => {
            commit.ops.truncate(before);
            Err(fault)
        }
    }
}
