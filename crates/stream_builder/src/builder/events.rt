//! The first lines of events, and lines that are passed through.
ghost use Rattle.std.specs.Prelude.{◌≡◌, IfOk, OnOk, option_to_list};
ghost use Rattle.plain_model.specs.Parts.{begins};
ghost use Rattle.plain_model.specs.Snapshots.{refs};
ghost use Rattle.plain_model.specs.Trees.{at};
ghost use Rattle.stream_grammar.specs.declared.lines.Word.TheVariants as word;
ghost use Rattle.stream_grammar.specs.Limits.{judged_within};
ghost use Rattle.stream_grammar.specs.Lines.{is_left_out_feature, passed};
ghost use Rattle.stream_builder.specs.Judging.{Judges};

use crate::builder::Builder;
use crate::fault::LineFault;
use crate::line_texts::text_of_commit;
use crate::open::{Open, OpenCommit};
use plain_model::{CommitId, Items, NoMemory, ParentList, Why};
use std::alloc::Global;
use stream_fields::{read_branch, read_name};
use stream_grammar::text_of;

fn begins_with(text: &[u8], word: &[u8]) -> bool
    ensures { result ≡ begins word.now text.now }
{
    text.starts_with(word)
}

// A feature that is left out.
fn is_left_out_feature(line: &[u8]) -> bool
    ensures { result ≡ is_left_out_feature line.now }
{
    begins_with(line, b"feature import-marks")
        || begins_with(line, b"feature date-format=")
            && line != b"feature date-format=raw".as_slice()
}

impl Builder {
    #[inline(never)]
    pub(crate) fn judge_blob(&mut self, alloc: Global, line: &[u8]) -> Result<(), LineFault>
        ensures { Judges self.new result (judged_within word.Blob line.now self.old) }
    {
        self.begin(alloc, Open::Blob { mark: None })?;
        self.within_events()
    }

    #[inline(never)]
    pub(crate) fn judge_tag(&mut self, alloc: Global, line: &[u8]) -> Result<(), LineFault>
        ensures { Judges self.new result (judged_within word.Tag line.now self.old) }
    {
        let name = read_name(alloc, text_of(line))?;
        let target = CommitId::new(0);
        let tagger = None;
        let mark = None;
        self.begin(
            alloc,
            Open::Tag {
                name,
                target,
                tagger,
                mark,
            },
        )?;
        self.within_events()
    }

    #[inline(never)]
    pub(crate) fn judge_reset(&mut self, alloc: Global, line: &[u8]) -> Result<(), LineFault>
        ensures { Judges self.new result (judged_within word.Reset line.now self.old) }
    {
        let branch = read_branch(alloc, &mut self.names, text_of(line))?;
        let target = None;
        self.begin(alloc, Open::Reset { branch, target })?;
        self.within_events()
    }

    #[inline(never)]
    pub(crate) fn judge_alias(&mut self, alloc: Global, line: &[u8]) -> Result<(), LineFault>
        ensures { Judges self.new result (judged_within word.Alias line.now self.old) }
    {
        self.begin(alloc, Open::Alias { mark: None })?;
        self.within_aliases()
    }

    // The commits that the next one on a branch begins with.
    fn tip_list(&self, alloc: Global, branch: &[u8]) -> Result<ParentList, NoMemory>
        ensures { IfOk result (λ list. list ≡ option_to_list (at (refs self.now.events) branch.now)) }
    {
        match self.drafts.tip(branch) {
            Some(tip) => Items::of(alloc, &[tip]),
            None => Ok(Items::empty(alloc)),
        }
    }

    #[inline(never)]
    pub(crate) fn judge_commit(&mut self, alloc: Global, line: &[u8]) -> Result<(), LineFault>
        ensures { Judges self.new result (judged_within word.Commit line.now self.old) }
    {
        let branch = read_branch(alloc, &mut self.names, text_of_commit(line))?;
        self.close(alloc)?;
        let parents = self.tip_list(alloc, branch.as_slice())?;
        let commit = OpenCommit {
            branch,
            mark: None,
            author: None,
            committer: None,
            encoding: None,
            comment: Items::empty(alloc),
            parents,
            ops: Items::empty(alloc),
        };
        self.begin(alloc, Open::Commit(commit))?;
        self.within_events()
    }

    // A line that is passed through is after the other events.
    fn pass(&mut self, alloc: Global, line: &[u8]) -> Result<(), NoMemory>
        ensures { OnOk result (self.new ≡ passed self.old line.now) }
    {
        let line = Items::of(alloc, line)?;
        self.close(alloc)?;
        self.drafts.push_pass(line)?;
        Ok(())
    }

    #[inline(never)]
    pub(crate) fn judge_pass(&mut self, alloc: Global, line: &[u8]) -> Result<(), LineFault>
        ensures { Judges self.new result (judged_within word.Pass line.now self.old) }
    {
        if is_left_out_feature(line) {
            return Err(LineFault::Bad(Why::LeftOut));
        }
        self.pass(alloc, line)?;
        self.within_events()
    }

    #[inline(never)]
    pub(crate) fn judge_feature_done(&mut self, alloc: Global, line: &[u8]) -> Result<(), LineFault>
        ensures { Judges self.new result (judged_within word.FeatureDone line.now self.old) }
    {
        self.pass(alloc, line)?;
        self.within_events()
    }
}
