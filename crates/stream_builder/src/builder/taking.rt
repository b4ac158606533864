//! The lines of a stream are taken, and the blocks after them.
ghost use Rattle.std.specs.Prelude.{◌≡◌, OnOk};
ghost use Rattle.stream_grammar.specs.Known.{with_data};
ghost use Rattle.stream_grammar.specs.Limits.{judged_within};
ghost use Rattle.stream_builder.specs.Judging.{Judges};

use crate::builder::Builder;
use crate::fault::LineFault;
use crate::open::Open;
use plain_model::{NoMemory, Shared, Text};
use std::alloc::Global;
use std::mem;
use stream_grammar::Word;

impl Builder {
    /// Takes a line that may be where it is. Its fields are judged from left to right, and then the limits.
    // Each case stays a function of its own, so that what it keeps on the stack isn't made ready for lines of other words.
    pub fn judge(&mut self, alloc: Global, word: Word, line: &[u8]) -> Result<(), LineFault>
        ensures { Judges self.new result (judged_within word line.now self.old) }
    {
        match word {
            Word::Blob => self.judge_blob(alloc, line),
            Word::Commit => self.judge_commit(alloc, line),
            Word::Tag => self.judge_tag(alloc, line),
            Word::Reset => self.judge_reset(alloc, line),
            Word::Mark => self.judge_mark(line),
            Word::Author => self.judge_author(alloc, line),
            Word::Committer => self.judge_committer(alloc, line),
            Word::Encoding => self.judge_encoding(alloc, line),
            Word::Tagger => self.judge_tagger(alloc, line),
            Word::From => self.judge_from(alloc, line),
            Word::Merge => self.judge_merge(alloc, line),
            Word::Operation => self.judge_operation(alloc, line),
            Word::InlineOperation => self.judge_inline_operation(alloc, line),
            Word::Alias => self.judge_alias(alloc, line),
            Word::To => self.judge_to(line),
            Word::Pass => self.judge_pass(alloc, line),
            Word::FeatureDone => self.judge_feature_done(alloc, line),
            Word::Empty | Word::Oid | Word::Data | Word::Done | Word::LeftOut | Word::Other => Ok(
                (),
            ),
        }
    }

    /// Takes the block after a line of data: a blob's bytes, a comment, or an operation's content where `inline` says so.
    pub fn take_block(&mut self, alloc: Global, inline: bool, bytes: Text) -> Result<(), NoMemory>
        ensures { OnOk result (self.new ≡ with_data inline bytes self.old) }
    {
        match &mut self.current {
            Open::Blob { mark } => {
                let mark = *mark;
                let bytes = Shared::new(alloc, bytes)?;
                self.drafts.push_blob(mark, bytes)?;
                self.current = Open::Nothing;
            }
            Open::Commit(commit) => {
                if inline {
                    let bytes = Shared::new(alloc, bytes)?;
                    self.drafts.push_blob(None, bytes)?;
                } else {
                    commit.comment = bytes;
                }
            }
            Open::Tag { .. } => {
                if let Open::Tag {
                    name,
                    target,
                    tagger,
                    mark,
                } = mem::replace(&mut self.current, Open::Nothing)
                {
                    self.drafts.push_tag(name, target, tagger, bytes, mark)?;
                }
            }
            _ => {}
        }
        Ok(())
    }
}
