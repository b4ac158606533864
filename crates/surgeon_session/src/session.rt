//! What a session holds, and one command. What changes the load list alone is a call of it. The parts: `loading` reads
//! and makes histories, `file_edits` reads what an edit is of, `showing` makes the texts that are written and listed.
ghost use Rattle.std.specs.Prelude.{◌≡◌, ◌≤◌, IfOk, OnErr, OnOk};
ghost use Rattle.byte_patterns.specs.Judging.{Judges};
ghost use Rattle.event_sets.specs.Once.{IsOnce};
ghost use Rattle.history_machine.specs.Sessions.{Scope, chosen, empty_session, in_scope, ready};
ghost use Rattle.history_machine.specs.Steps.{carried, defining, step};
ghost use Rattle.macro_lines.specs.Macros.{called};
ghost use Rattle.surgeon_session.specs.Commands.{CarriesOut, ReadsNoFile, no_calls};
ghost use Rattle.surgeon_session.specs.Denials.{Under};
ghost use Rattle.plain_model.specs.Faults.{Returns};
ghost use Rattle.load_list.specs.Entries.{AreLiveIn};
ghost use Rattle.load_list.specs.Lists.{all_in};
ghost use Rattle.surgeon_session.specs.Pieces.{
  CountsMissOf,
  LeavesNothing,
  StopsNear,
  bytes_read,
  refused,
};

mod file_edits;
mod loading;
mod showing;

use crate::halted::{Halted, of_answer};
use crate::subject::Subject;
use byte_patterns::Patterns;
use listing::all;
use load_list::{LoadList, matchers_of};
use macro_lines::{CalledLines, Macros};
use plain_model::{Halt, Items, NoMemory, Text};
use script_lines::{LineList, ScriptText};
use script_reader::{Call, Command, WrittenSelection};
use selection_eval::sound_histories_are_such;
use std::alloc::Global;
use std::marker::Model;
use surgeon_store::{Sink, Store};

/// The load list and the macros. (own)
#[derive(Drop)]
pub struct Session {
    alloc: Global,
    list: LoadList,
    macros: Macros,
}

impl Model for Session {
    ghost use Rattle.history_machine.specs.Sessions.{Session};

    ghost Value = { Session };

    ghost use Rattle.load_list.specs.Lists.{session_of};

    ghost view = { λ s. session_of s.list s.macros };
}

impl Session {
    /// Nothing is loaded, and nothing defined.
    pub fn new(alloc: Global) -> Result<Session, NoMemory>
        ensures { IfOk result (λ session. session ≡ empty_session) }
    {
        Ok(Session {
            alloc,
            list: LoadList::new(alloc),
            macros: Macros::new(alloc),
        })
    }

    pub(crate) fn allocator(&self) -> Global {
        self.alloc
    }

    /// Defines a macro, in the place of an older one of the name.
    pub(crate) fn define(&mut self, name: Text, body: LineList) -> Result<(), NoMemory>
        ensures ok { OnOk result (self.new ≡ defining self.old name body) }
        ensures err { OnErr result (self.new ≡ self.old) }
    {
        self.macros.define(name, body)
    }

    /// The lines that a `do` puts in its place, where its body is run at this depth.
    pub(crate) fn expand(&self, call: &Call, depth: u64) -> Result<CalledLines, Halt>
        ensures { Returns (λ lines. lines) result (called self.now.macros call.now depth) }
    {
        self.macros.expand(call, depth)
    }

    // All events of the chosen history, each once.
    #[tactic(auto, unfolding(history_machine::specs::Sessions::chosen))]
    fn all_events(&self) -> Result<Subject, Halt>
        ensures returns { Returns (λ subject. subject) result (all_in self.now) }
        ensures once { IfOk result (λ subject. IsOnce subject.ids) }
        ensures live { IfOk result (λ subject. AreLiveIn (chosen self.now) subject.ids) }
    {
        let (_, repository) = self.list.chosen()?;
        let _count = repository.events().count();
        sound_histories_are_such();
        let ids = all(self.alloc, repository.events())?;
        Ok(Subject::of_events(self.alloc, ids))
    }

    // The events of the chosen history for which a selection stands.
    #[tactic(auto, unfolding(history_machine::specs::Sessions::chosen))]
    fn selected_events<P: Patterns>(
        &mut self,
        selection: &WrittenSelection,
        patterns: &mut P,
    ) -> Result<Subject, Halt>
        ensures judged { Judges (λ subject. subject) (P.sizes patterns.old) (P.sizes patterns.new)
            result (in_scope self.old (Scope.selected selection.now)) }
        ensures once { IfOk result (λ subject. IsOnce subject.ids) }
        ensures live { IfOk result (λ subject. AreLiveIn (chosen self.old) subject.ids) }
        ensures same { self.new ≡ self.old }
        ensures grows { P.sizes patterns.old ≤ P.sizes patterns.new }
    {
        let ids = self.list.denoted(selection, patterns)?;
        Ok(Subject::of_events(self.alloc, ids))
    }

    // The paths that words say, where a repository is chosen.
    #[tactic(auto, unfolding(history_machine::specs::Sessions::chosen))]
    fn said_paths<P: Patterns>(
        &self,
        words: &[ScriptText],
        patterns: &mut P,
    ) -> Result<Subject, Halt>
        ensures judged { Judges (λ subject. subject) (P.sizes patterns.old) (P.sizes patterns.new)
            result (in_scope self.now (Scope.said_paths words.now)) }
        ensures once { IfOk result (λ subject. IsOnce subject.ids) }
        ensures live { IfOk result (λ subject. AreLiveIn (chosen self.now) subject.ids) }
        ensures grows { P.sizes patterns.old ≤ P.sizes patterns.new }
    {
        let _ = self.list.chosen()?;
        let matchers = matchers_of(self.alloc, words, patterns)?;
        Ok(Subject::of_paths(self.alloc, matchers))
    }

    // What a command speaks of, each event once, after the checks that come before its own.
    #[tactic(auto, unfolding(history_machine::specs::Sessions::ready))]
    fn ready<P: Patterns>(&mut self, command: &Command, patterns: &mut P) -> Result<Subject, Halt>
        ensures judged { Judges (λ subject. subject) (P.sizes patterns.old) (P.sizes patterns.new)
            result (ready self.old command.now) }
        ensures once { IfOk result (λ subject. IsOnce subject.ids) }
        ensures live { IfOk result (λ subject. AreLiveIn (chosen self.old) subject.ids) }
        ensures same { self.new ≡ self.old }
        ensures grows { P.sizes patterns.old ≤ P.sizes patterns.new }
    {
        match command {
            Command::Show {
                selection: Some(selection),
                ..
            }
            | Command::Edit {
                selection: Some(selection),
                ..
            } => self.selected_events(selection, patterns),
            Command::Show {
                selection: None,
                ..
            }
            | Command::Edit {
                selection: None,
                ..
            } => self.all_events(),
            Command::Assign { selection, .. }
            | Command::Graft { selection, .. }
            | Command::Divide { selection } => self.selected_events(selection, patterns),
            Command::Expunge { words } => self.said_paths(words.as_slice(), patterns),
            _ => Ok(Subject::of_events(self.alloc, Items::empty(self.alloc))),
        }
    }

    // What a command does with what it speaks of.
    #[tactic(auto, unfolding(history_machine::specs::Steps::carried))]
    fn carry<S: Store, T: Sink>(
        &mut self,
        command: &Command,
        subject: &Subject,
        store: &mut S,
        out: &mut T,
    ) -> Result<(), Halted>
        requires once { IsOnce subject.now.ids }
        requires live { AreLiveIn (chosen self.old) subject.now.ids }
        ensures carries { CarriesOut no_calls (S.state store.old) (T.state out.old) self.old
            (ReadsNoFile command.now) (λ files. carried self.old files subject.now command.now)
            result self.new (S.state store.new) (T.state out.new) }
        ensures near { StopsNear (bytes_read (S.state store.old).files command.now)
            (refused result) (S.state store.new).rest }
        ensures whole { OnOk result (LeavesNothing (bytes_read (S.state store.old).files command.now)
            (S.state store.new).rest) }
        ensures missed { CountsMissOf command.now (refused result) (S.state store.old)
            (S.state store.new) }
    {
        match command {
            Command::Read { file, name } => Ok(self.read(store, file, name)?),
            Command::Write { to } => self.write(store, out, to),
            Command::Choose { name } => of_answer(self.list.choose(name.as_slice())),
            Command::ShowRepos => self.show_repositories(store, out),
            Command::Drop { name } => of_answer(self.list.forget(name.as_slice())),
            Command::DropChosen => of_answer(self.list.forget_chosen()),
            Command::Renumber => of_answer(self.list.renumber()),
            Command::Show { what, to, .. } => self.show(*what, subject.ids(), store, out, to),
            Command::Assign { name, .. } => {
                of_answer(self.list.assign(subject.ids(), name.as_slice()))
            }
            Command::Edit { what, .. } => of_answer(self.list.edit(what, subject.ids())),
            Command::Expunge { .. } => of_answer(self.list.expunge(subject.matchers())),
            Command::EditBy { what, file } => Ok(self.edit_by(store, *what, file)?),
            Command::Graft { name, prune, .. } => {
                of_answer(self.list.graft(name.as_bytes(), subject.ids(), *prune))
            }
            Command::Unite { names, prune } => {
                of_answer(self.list.unite(names.as_slice(), *prune))
            }
            Command::Divide { .. } => of_answer(self.list.divide(subject.ids())),
            Command::Sample { count, start } => Ok(self.sample(*count, *start)?),
            Command::Names { to } => self.names(store, out, to),
            Command::Summary { to } => self.summary(store, out, to),
        }
    }

    /// Carries out one command, or refuses it and leaves session and files as they were. A fault of the outside and out of
    /// memory leave the session as it was, and a first part of what the command writes or prints may be there.
    #[tactic(auto, unfolding(history_machine::specs::Steps::step))]
    pub fn step<S: Store, T: Sink, P: Patterns>(
        &mut self,
        command: &Command,
        store: &mut S,
        out: &mut T,
        patterns: &mut P,
    ) -> Result<(), Halted>
        ensures carries { Under (P.sizes patterns.old) (P.sizes patterns.new)
            (λ denial. CarriesOut no_calls (S.state store.old) (T.state out.old) self.old
            (ReadsNoFile command.now) (λ files. step denial self.old files command.now)
            result self.new (S.state store.new) (T.state out.new)) }

        // A refused `read` takes at most one piece of the file past the line that is refused, and no byte past the limit but the one
        // that shows that the file is too long. An edit that a file says takes all of the file, within the same limit.
        ensures near { StopsNear (bytes_read (S.state store.old).files command.now)
            (refused result) (S.state store.new).rest }
        ensures whole { OnOk result (LeavesNothing (bytes_read (S.state store.old).files command.now)
            (S.state store.new).rest) }

        // One that is refused since its file is missing has looked for it.
        ensures missed { CountsMissOf command.now (refused result) (S.state store.old)
            (S.state store.new) }
        ensures grows { P.sizes patterns.old ≤ P.sizes patterns.new }
    {
        let subject = self.ready(command, patterns)?;
        self.carry(command, &subject, store, out)
    }
}
