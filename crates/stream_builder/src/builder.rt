//! The events that were read, and the one that is being read.
ghost use Rattle.std.specs.Prelude.{◌≡◌, [], None, Ok, Err, IfOk, OnOk};
ghost use Rattle.plain_model.specs.declared.fault.Fault.TheVariants.{MarksSpent};
ghost use Rattle.plain_model.specs.declared.fault.Which.TheVariants as which;
ghost use Rattle.plain_model.specs.declared.limit.TheConstants.{MAX_ALIASES, MAX_EVENTS};
ghost use Rattle.stream_grammar.specs.Known.Open.{Nothing as NoEvent};
ghost use Rattle.stream_grammar.specs.Limits.{known_aliases, event_count, limit_if, unless_spent, within_limit};
ghost use Rattle.stream_grammar.specs.Lines.{begun_with, nothing_known};
ghost use Rattle.stream_builder.specs.Judging.{Judges};
ghost use Rattle.stream_builder.specs.Building.{open_of, ops_in};

mod aliases;
mod changes;
mod events;
mod fields;
mod parents;
mod taking;

use crate::closing::{count_ops, push_open};
use crate::fault::LineFault;
use crate::known::Trees;
use crate::open::Open;
use crate::signed_reader::SignedReader;
use plain_model::{EventList, MAX_ALIASES, MAX_EVENTS, NoMemory, Which};
use std::alloc::Global;
use std::marker::Model;
use std::mem;
use stream_drafts::{Aliases, Drafts, FinishFault};
use stream_fields::Names;

/// Builds the events of a stream from its lines. Contracts see what is known of the stream.
#[derive(Drop)]
pub struct Builder {
    drafts: Drafts,
    aliases: Aliases,
    current: Open,
    trees: Trees,
    // Who and which branches were read, so that each is kept once.
    people: SignedReader,
    names: Names,
    // How many operations there are.
    ops: u64,
}

impl Model for Builder {
    ghost use Rattle.stream_grammar.specs.Known.{Known};
    ghost use Rattle.stream_builder.specs.Building.{IsBuilt, known_of};

    ghost Value = { Known };

    ghost view = { λ b. known_of b.drafts b.aliases b.current };

    ghost invariant = { λ b. IsBuilt b.drafts b.current b.trees b.ops };
}

impl Builder {
    /// Nothing is known.
    pub fn new(alloc: Global) -> Builder
        ensures { result ≡ nothing_known }
    {
        Builder {
            drafts: Drafts::new(alloc),
            aliases: Aliases::new(alloc),
            current: Open::Nothing,
            trees: Trees::new(alloc),
            people: SignedReader::new(alloc),
            names: Names::new(alloc),
            ops: 0,
        }
    }

    // The event that was read last is after the others.
    fn close(&mut self, alloc: Global) -> Result<(), NoMemory>
        ensures { OnOk result (self.new ≡ begun_with self.old NoEvent) }
    {
        // Mostly the event before was a blob, which is there already.
        if matches!(self.current, Open::Nothing) {
            return Ok(());
        }
        let current = mem::replace(&mut self.current, Open::Nothing);
        let tree = self.trees.take();
        self.ops -= count_ops(&current);
        let count = push_open(alloc, &mut self.drafts, &mut self.trees, current, tree)?;
        self.ops += count;
        Ok(())
    }

    // Another event begins, which has no operations yet. It is inlined, so that the event is made where it stays.
    #[inline(always)]
    fn begin(&mut self, alloc: Global, current: Open) -> Result<(), NoMemory>
        requires { ops_in current ≡ [] }
        ensures { OnOk result (self.new ≡ begun_with self.old (open_of current)) }
    {
        self.close(alloc)?;
        self.trees.forget();
        self.current = current;
        Ok(())
    }

    // Whether there are too many events.
    fn within_events(&self) -> Result<(), LineFault>
        ensures { Judges self.now result
            (within_limit (limit_if MAX_EVENTS (event_count self.now) which.Events None) self.now) }
    {
        let before = self.drafts.next_id() - 1;
        let count = match self.current {
            Open::Nothing | Open::Alias { .. } => before,
            _ => before + 1,
        };
        if count > MAX_EVENTS {
            Err(LineFault::Limit(Which::Events))
        } else {
            Ok(())
        }
    }

    // Whether there are too many aliases.
    fn within_aliases(&self) -> Result<(), LineFault>
        ensures { Judges self.now result
            (within_limit (limit_if MAX_ALIASES (known_aliases self.now) which.Aliases None) self.now) }
    {
        let most = match self.current {
            Open::Alias { .. } => MAX_ALIASES - 1,
            _ => MAX_ALIASES,
        };
        if self.aliases.count() > most {
            Err(LineFault::Limit(Which::Aliases))
        } else {
            Ok(())
        }
    }

    /// The history at the end of a stream, in which each blob and each commit has a mark.
    pub fn finish(mut self, alloc: Global) -> Result<EventList, FinishFault>
        ensures list { IfOk result (λ list. unless_spent self ≡ Ok list) }
        ensures spent { result ≡ Err FinishFault.MarksSpent → unless_spent self ≡ Err MarksSpent }
    {
        self.close(alloc)?;
        let Builder {
            drafts,
            aliases,
            ..
        } = self;
        drafts.finish(aliases)
    }
}
