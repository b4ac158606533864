//! The commit that an alias names.
ghost use Rattle.std.specs.Prelude.{◌≡◌, OnOk};
ghost use Rattle.stream_grammar.specs.declared.lines.Word.TheVariants as word;
ghost use Rattle.stream_grammar.specs.Limits.{judged_within};
ghost use Rattle.stream_grammar.specs.Lines.{aliased};
ghost use Rattle.stream_builder.specs.Judging.{Judges};

use crate::builder::Builder;
use crate::fault::LineFault;
use crate::open::Open;
use crate::references::read_reference;
use plain_model::{CommitId, NoMemory};
use stream_grammar::text_of;

impl Builder {
    // The alias that is being read names the commit.
    fn put_alias(&mut self, commit: CommitId) -> Result<(), NoMemory>
        ensures { OnOk result (self.new ≡ aliased commit self.old) }
    {
        let Open::Alias { mark } = &self.current else {
            return Ok(());
        };
        let Some(mark) = *mark else {
            return Ok(());
        };
        self.aliases.push(mark, commit)?;
        self.current = Open::Nothing;
        Ok(())
    }

    #[inline(never)]
    pub(crate) fn judge_to(&mut self, line: &[u8]) -> Result<(), LineFault>
        ensures { Judges self.new result (judged_within word.To line.now self.old) }
    {
        let commit = read_reference(&self.drafts, &self.aliases, text_of(line))?;
        self.put_alias(commit)?;
        Ok(())
    }
}
