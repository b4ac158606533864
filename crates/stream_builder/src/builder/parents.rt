//! The commits that `from` and `merge` name.
ghost use Rattle.std.specs.Prelude.{
  ◌≡◌,
  ◌==◌,
  ◌∷◌,
  ◌++◌,
  [],
  Ok,
  IfOk,
  IsTrue,
  OnErr,
  OnOk,
  if◌then◌else◌,
};
ghost use Rattle.std.specs.List.{list_any};
ghost use Rattle.plain_model.specs.declared.operation.FileOp.TheVariants.{DeleteAll};
ghost use Rattle.stream_grammar.specs.declared.lines.Word.TheVariants as word;
ghost use Rattle.stream_grammar.specs.Known.{with_parent};
ghost use Rattle.stream_grammar.specs.Limits.{after_judged, judged_within};
ghost use Rattle.stream_grammar.specs.Lines.{changed, with_commit, with_from};
ghost use Rattle.stream_builder.specs.Judging.{Judges};

use crate::builder::Builder;
use crate::fault::LineFault;
use crate::line_texts::text_of_from;
use crate::open::Open;
use crate::references::read_reference;
use plain_model::{
    CommitId, FileOp, Items, MAX_OPERATIONS, MAX_PARENTS, NoMemory, OpList, ParentList, Which,
};
use std::alloc::Global;
use stream_grammar::text_of;

fn delete_all(alloc: Global) -> Result<OpList, NoMemory>
    ensures { IfOk result (λ ops. ops ≡ DeleteAll ∷ []) }
{
    let mut ops = Items::empty(alloc);
    ops.push(FileOp::DeleteAll)?;
    Ok(ops)
}

fn has_parent(parents: &[CommitId], commit: CommitId) -> bool
    ensures { result ≡ list_any (λ q. q == commit) parents.now }
{
    parents.iter().any(|parent| *parent == commit)
}

// Whether the commit is the one parent.
fn is_only(parents: &[CommitId], commit: CommitId) -> bool
    ensures { IsTrue result → parents.now ≡ commit ∷ [] }
{
    match parents {
        [only] => *only == commit,
        _ => false,
    }
}

// One parent more, if it isn't there.
fn put_further(parents: &mut ParentList, commit: CommitId) -> Result<(), NoMemory>
    ensures ok { OnOk result (parents.new ≡
        (if list_any (λ q. q == commit) parents.old then parents.old
        else parents.old ++ commit ∷ [])) }
    ensures err { OnErr result (parents.new ≡ parents.old) }
{
    if has_parent(parents.as_slice(), commit) {
        Ok(())
    } else {
        parents.push(commit)
    }
}

impl Builder {
    // The line `from` names the first parent, the tag's target or the reset's.
    fn set_from(&mut self, alloc: Global, commit: CommitId) -> Result<(), NoMemory>
        ensures { OnOk result (self.new ≡ changed self.old (with_from commit)) }
    {
        match &mut self.current {
            Open::Commit(open) => {
                // Mostly it is the tip of the branch, with which the commit began.
                if is_only(open.parents.as_slice(), commit) {
                    return Ok(());
                }
                let parents = Items::of(alloc, &[commit])?;
                let ops = open.ops.as_slice();
                self.trees
                    .restart(alloc, &self.drafts, parents.as_slice(), ops)?;
                open.parents = parents;
            }
            Open::Tag { target, .. } => *target = commit,
            Open::Reset { target, .. } => *target = Some(commit),
            _ => {}
        }
        Ok(())
    }

    #[inline(never)]
    pub(crate) fn judge_from(&mut self, alloc: Global, line: &[u8]) -> Result<(), LineFault>
        ensures { Judges self.new result (judged_within word.From line.now self.old) }
    {
        let commit = read_reference(&self.drafts, &self.aliases, text_of_from(line))?;
        self.set_from(alloc, commit)?;
        Ok(())
    }

    // A merge puts one parent more after the others, if it isn't one of them.
    fn put_parent(&mut self, alloc: Global, commit: CommitId) -> Result<(), LineFault>
        ensures { Judges self.new result
            (after_judged word.Merge (Ok (changed self.old (with_commit (with_parent commit))))) }
    {
        if let Open::Commit(open) = &mut self.current {
            if open.parents.as_slice().is_empty() {
                let parents = Items::of(alloc, &[commit])?;
                let ops = delete_all(alloc)?;
                let count = self.ops - open.ops.as_slice().len() as u64 + 1;
                if count > MAX_OPERATIONS {
                    return Err(LineFault::Limit(Which::Operations));
                }
                self.trees.forget();
                open.parents = parents;
                open.ops = ops;
                self.ops = count;
            } else {
                put_further(&mut open.parents, commit)?;
                if open.parents.as_slice().len() as u64 > MAX_PARENTS {
                    return Err(LineFault::Limit(Which::Parents));
                }
            }
        }
        Ok(())
    }

    #[inline(never)]
    pub(crate) fn judge_merge(&mut self, alloc: Global, line: &[u8]) -> Result<(), LineFault>
        ensures { Judges self.new result (judged_within word.Merge line.now self.old) }
    {
        let commit = read_reference(&self.drafts, &self.aliases, text_of(line))?;
        self.put_parent(alloc, commit)
    }
}
