//! The operations of the commit that is being read.
ghost use Rattle.std.specs.Prelude.{◌≡◌, ◌≤◌, IfOk, IsFalse};
ghost use Rattle.stream_grammar.specs.declared.lines.Word.TheVariants as word;
ghost use Rattle.stream_fields.specs.Answers.{Gives};
ghost use Rattle.stream_grammar.specs.Known.{
  OpenCommit as KnownCommit,
  has_source,
  op_after,
  paths_after,
  tree_now,
};
ghost use Rattle.stream_grammar.specs.Known.Open.{ACommit};
ghost use Rattle.stream_grammar.specs.Limits.{judged_within, op_limit, within_limit};
ghost use Rattle.stream_grammar.specs.Lines.{with_operation};
ghost use Rattle.stream_builder.specs.Judging.{Judges};
ghost use Rattle.stream_builder.specs.Building.{after_operation, is_commit, with_op};

use crate::builder::Builder;
use crate::fault::LineFault;
use crate::open::Open;
use crate::operations::{put_last, read_modify};
use plain_model::{FileOp, MAX_EVENTS, MAX_OPERATIONS, NoMemory, Path, Place, Which, Why};
use std::alloc::Global;
use stream_fields::{FieldFault, or_defect, read_last_path, read_path, words};

impl Builder {
    // Whether the tree of the commit has something at or below the path. This folds it.
    fn has_source(&mut self, alloc: Global, source: &Path) -> Result<bool, NoMemory>
        ensures there { IfOk result (λ there. (c : KnownCommit) → self.old.current ≡ ACommit c →
            there ≡ has_source source.now (tree_now self.old.events c)) }
        ensures same { self.new ≡ self.old }
    {
        if let Open::Commit(open) = &self.current {
            let parents = open.parents.as_slice();
            self.trees
                .fold(alloc, &self.drafts, parents, open.ops.as_slice())?;
            self.trees.has(alloc, source)
        } else {
            Ok(false)
        }
    }

    // `SOURCE TARGET`, where the tree has the source.
    fn read_paths(&mut self, alloc: Global, text: &[u8]) -> Result<(Path, Path), FieldFault>
        ensures paths { (c : KnownCommit) → self.old.current ≡ ACommit c →
            Gives (λ x. (x.0, x.1)) result (paths_after (tree_now self.old.events c) text.now) }
        ensures same { self.new ≡ self.old }
    {
        let (source, taken) = read_path(alloc, text, Place::Source)?;
        if !self.has_source(alloc, &source)? {
            return Err(FieldFault::Bad(Why::MissingSource));
        }
        let target = read_last_path(alloc, words(&text[taken..]).1)?;
        Ok((source, target))
    }

    fn read_operation(&mut self, alloc: Global, line: &[u8]) -> Result<FileOp, FieldFault>
        ensures op { (c : KnownCommit) → self.old.current ≡ ACommit c →
            Gives (λ op. op) result (op_after self.old.events c line.now) }
        ensures same { self.new ≡ self.old }
    {
        let (word, text) = words(line);
        if word == b"M".as_slice() {
            return read_modify(alloc, &self.drafts, or_defect(Why::BadMode, text)?);
        }
        if word == b"D".as_slice() {
            let path = read_last_path(alloc, text)?;
            return Ok(FileOp::Delete { path });
        }
        if word == b"C".as_slice() {
            let (source, target) = self.read_paths(alloc, or_defect(Why::BadPath, text)?)?;
            return Ok(FileOp::Copy { source, target });
        }
        if word == b"R".as_slice() {
            let (source, target) = self.read_paths(alloc, or_defect(Why::BadPath, text)?)?;
            return Ok(FileOp::Rename { source, target });
        }
        Ok(FileOp::DeleteAll)
    }

    // Puts an operation after the others, with so many events that it brings along.
    fn put_operation(&mut self, alloc: Global, more: u64, op: FileOp) -> Result<(), LineFault>
        requires { more ≤ 1 }
        ensures { (c : KnownCommit) → self.old.current ≡ ACommit c →
            Judges self.new result (within_limit (op_limit more (with_op self.old c op))
            (with_op self.old c op)) }
    {
        if self.drafts.next_id() > MAX_EVENTS - more {
            return Err(LineFault::Limit(Which::Events));
        }
        if self.ops >= MAX_OPERATIONS {
            return Err(LineFault::Limit(Which::Operations));
        }
        if let Open::Commit(open) = &mut self.current {
            match put_last(alloc, &self.drafts, &mut self.trees, open, op) {
                Ok(()) => self.ops += 1,
                Err(fault) => return Err(fault),
            }
        }
        Ok(())
    }

    // The same as `within_events`, with so many events that a line brings along.
    fn within_events_and(&self, more: u64) -> Result<(), LineFault>
        requires { more ≤ 1 }
        ensures { IsFalse (is_commit self.now.current) →
            Judges self.now result (within_limit (op_limit more self.now) self.now) }
    {
        let before = self.drafts.next_id() - 1;
        let count = match self.current {
            Open::Nothing | Open::Alias { .. } => before,
            _ => before + 1,
        };
        if count > MAX_EVENTS - more {
            Err(LineFault::Limit(Which::Events))
        } else {
            Ok(())
        }
    }

    fn is_commit(&self) -> bool
        ensures { result ≡ is_commit self.now.current }
    {
        matches!(self.current, Open::Commit(_))
    }

    // The line of an operation, with so many events that it brings along.
    fn take_operation(&mut self, alloc: Global, more: u64, line: &[u8]) -> Result<(), LineFault>
        requires { more ≤ 1 }
        ensures { Judges self.new result
            (after_operation more (with_operation self.old line.now)) }
    {
        if self.is_commit() {
            let op = self.read_operation(alloc, line)?;
            self.put_operation(alloc, more, op)
        } else {
            self.within_events_and(more)
        }
    }

    pub(crate) fn judge_operation(&mut self, alloc: Global, line: &[u8]) -> Result<(), LineFault>
        ensures { Judges self.new result (judged_within word.Operation line.now self.old) }
    {
        self.take_operation(alloc, 0, line)
    }

    pub(crate) fn judge_inline_operation(
        &mut self,
        alloc: Global,
        line: &[u8],
    ) -> Result<(), LineFault>
        ensures { Judges self.new result (judged_within word.InlineOperation line.now self.old) }
    {
        self.take_operation(alloc, 1, line)
    }
}
