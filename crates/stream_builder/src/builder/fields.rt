//! Marks, people and encodings.
ghost use Rattle.std.specs.Prelude.{◌≡◌};
ghost use Rattle.stream_grammar.specs.declared.lines.Word.TheVariants as word;
ghost use Rattle.stream_grammar.specs.Limits.{judged_within};
ghost use Rattle.stream_grammar.specs.Lines.{changed, with_mark};
ghost use Rattle.stream_builder.specs.Judging.{Judges};

use crate::builder::Builder;
use crate::fault::LineFault;
use crate::line_texts::{text_of_author, text_of_committer, text_of_mark};
use crate::open::Open;
use plain_model::{Items, Mark, Shared, Why};
use std::alloc::Global;
use stream_fields::read_mark;
use stream_grammar::text_of;

impl Builder {
    fn set_mark(&mut self, mark: Mark)
        ensures { self.new ≡ changed self.old (with_mark mark) }
    {
        match &mut self.current {
            Open::Blob { mark: old } => *old = Some(mark),
            Open::Commit(commit) => commit.mark = Some(mark),
            Open::Tag { mark: old, .. } => *old = Some(mark),
            Open::Alias { mark: old } => *old = Some(mark),
            _ => {}
        }
    }

    pub(crate) fn judge_mark(&mut self, line: &[u8]) -> Result<(), LineFault>
        ensures { Judges self.new result (judged_within word.Mark line.now self.old) }
    {
        let mark = read_mark(text_of_mark(line))?;
        if self.drafts.is_marked(mark) || self.aliases.is_alias(mark) {
            return Err(LineFault::Bad(Why::RepeatedMark));
        }
        self.set_mark(mark);
        Ok(())
    }

    #[inline(never)]
    pub(crate) fn judge_author(&mut self, alloc: Global, line: &[u8]) -> Result<(), LineFault>
        ensures { Judges self.new result (judged_within word.Author line.now self.old) }
    {
        let who = self.people.read(alloc, text_of_author(line))?;
        if let Open::Commit(commit) = &mut self.current {
            commit.author = Some(who);
        }
        Ok(())
    }

    #[inline(never)]
    pub(crate) fn judge_committer(&mut self, alloc: Global, line: &[u8]) -> Result<(), LineFault>
        ensures { Judges self.new result (judged_within word.Committer line.now self.old) }
    {
        let who = self.people.read(alloc, text_of_committer(line))?;
        if let Open::Commit(commit) = &mut self.current {
            commit.committer = Some(who);
        }
        Ok(())
    }

    #[inline(never)]
    pub(crate) fn judge_encoding(&mut self, alloc: Global, line: &[u8]) -> Result<(), LineFault>
        ensures { Judges self.new result (judged_within word.Encoding line.now self.old) }
    {
        let encoding = Shared::new(alloc, Items::of(alloc, text_of(line))?)?;
        if let Open::Commit(commit) = &mut self.current {
            commit.encoding = Some(encoding);
        }
        Ok(())
    }

    #[inline(never)]
    pub(crate) fn judge_tagger(&mut self, alloc: Global, line: &[u8]) -> Result<(), LineFault>
        ensures { Judges self.new result (judged_within word.Tagger line.now self.old) }
    {
        let who = self.people.read(alloc, text_of(line))?;
        if let Open::Tag { tagger, .. } = &mut self.current {
            *tagger = Some(who);
        }
        Ok(())
    }
}
