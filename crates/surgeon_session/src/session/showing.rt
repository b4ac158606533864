//! Texts of the chosen repository and of the load list, and where they go.
ghost use Rattle.std.specs.Prelude.{◌≡◌, ◌++◌, IfOk, None, Ok, OnOk};
ghost use Rattle.history_machine.specs.Sessions.{of_chosen, repo_line, repos_text, shown};
ghost use Rattle.history_machine.specs.Steps.{reports};
ghost use Rattle.listing.specs.Listings.{names_text};
ghost use Rattle.listing.specs.Summaries.{summary_text};
ghost use Rattle.plain_model.specs.Text.{text};
ghost use Rattle.surgeon_session.specs.Commands.{CarriesOut, no_calls};
ghost use Rattle.plain_model.specs.Faults.{Returns};

use super::Session;
use crate::halted::Halted;
use crate::sending::send;
use listing::{names, summary};
use plain_model::{AnyId, Halt, Items, NoMemory, Text};
use script_lines::ScriptText;
use script_reader::Listing;
use stream_writer::Stream;
use surgeon_store::{Sink, Store};

// Puts the line of a repository, by the name that is chosen.
fn push_repository(out: &mut Text, choice: &Option<Text>, name: &[u8]) -> Result<(), NoMemory>
    ensures { OnOk result (out.new ≡ out.old ++ repo_line choice.now name.now) }
{
    let is_chosen = match choice {
        Some(choice) => choice.as_slice() == name,
        None => false,
    };
    if is_chosen {
        out.push_all(b"* ")?;
    } else {
        out.push_all(b"  ")?;
    }
    out.push_all(name)?;
    out.push(b'\n')
}

impl Session {
    // The stream of the chosen history.
    #[tactic(auto, unfolding(history_machine::specs::Sessions::chosen))]
    fn stream(&self) -> Result<Stream<'_>, Halt>
        ensures { Returns (λ bytes. bytes) result
            (of_chosen self.now (λ repo. text repo.history)) }
    {
        let (_, repository) = self.list.chosen()?;
        Ok(Stream::of(self.alloc, repository.events()))
    }

    // The branches and tags of the chosen history.
    #[tactic(auto, unfolding(history_machine::specs::Sessions::chosen))]
    fn named(&self) -> Result<Text, Halt>
        ensures { Returns (λ bytes. bytes) result
            (of_chosen self.now (λ repo. names_text repo.history)) }
    {
        let (_, repository) = self.list.chosen()?;
        let mut text = Items::new(self.alloc)?;
        names(repository.events(), &mut text)?;
        Ok(text)
    }

    // The counts of the events of the chosen history.
    #[tactic(auto, unfolding(history_machine::specs::Sessions::chosen))]
    fn summed(&self) -> Result<Text, Halt>
        ensures { Returns (λ bytes. bytes) result
            (of_chosen self.now (λ repo. summary_text repo.name repo.history)) }
    {
        let (name, repository) = self.list.chosen()?;
        let mut text = Items::new(self.alloc)?;
        summary(name, repository.events(), &mut text)?;
        Ok(text)
    }

    // The load list.
    #[tactic(auto, unfolding(history_machine::specs::Sessions::repos_text))]
    fn load_list_text(&self) -> Result<Text, NoMemory>
        ensures { IfOk result (λ bytes. bytes ≡ repos_text self.now) }
    {
        let mut text = Items::new(self.alloc)?;
        for place in 0..self.list.count() {
            push_repository(&mut text, self.list.choice(), self.list.name(place))?;
        }
        Ok(text)
    }

    // `write [>FILE]`
    pub(super) fn write<S: Store, T: Sink>(
        &self,
        store: &mut S,
        out: &mut T,
        to: &Option<ScriptText>,
    ) -> Result<(), Halted>
        ensures { CarriesOut no_calls (S.state store.old) (T.state out.old) self.now (Unit {0})
            (λ _. reports self.now to.now (of_chosen self.now (λ repo. text repo.history)))
            result self.now (S.state store.new) (T.state out.new) }
    {
        let text = self.stream()?;
        send(store, out, to, &text)
    }

    // `[sel] list [>FILE]`, and so on
    #[tactic(auto, unfolding(history_machine::specs::Sessions::chosen))]
    pub(super) fn show<S: Store, T: Sink>(
        &mut self,
        what: Listing,
        ids: &[AnyId],
        store: &mut S,
        out: &mut T,
        to: &Option<ScriptText>,
    ) -> Result<(), Halted>
        ensures { CarriesOut no_calls (S.state store.old) (T.state out.old) self.old (Unit {0})
            (λ _. reports self.old to.now (of_chosen self.old (shown what ids.now)))
            result self.new (S.state store.new) (T.state out.new) }
    {
        let text = self.list.shown(what, ids)?;
        send(store, out, to, &text)
    }

    // `names [>FILE]`
    pub(super) fn names<S: Store, T: Sink>(
        &self,
        store: &mut S,
        out: &mut T,
        to: &Option<ScriptText>,
    ) -> Result<(), Halted>
        ensures { CarriesOut no_calls (S.state store.old) (T.state out.old) self.now (Unit {0})
            (λ _. reports self.now to.now (of_chosen self.now (λ repo. names_text repo.history)))
            result self.now (S.state store.new) (T.state out.new) }
    {
        let text = self.named()?;
        send(store, out, to, &text)
    }

    // `summary [>FILE]`
    pub(super) fn summary<S: Store, T: Sink>(
        &self,
        store: &mut S,
        out: &mut T,
        to: &Option<ScriptText>,
    ) -> Result<(), Halted>
        ensures { CarriesOut no_calls (S.state store.old) (T.state out.old) self.now (Unit {0})
            (λ _. reports self.now to.now (of_chosen self.now (λ repo. summary_text repo.name repo.history)))
            result self.now (S.state store.new) (T.state out.new) }
    {
        let text = self.summed()?;
        send(store, out, to, &text)
    }

    // `choose` alone
    pub(super) fn show_repositories<S: Store, T: Sink>(
        &self,
        store: &mut S,
        out: &mut T,
    ) -> Result<(), Halted>
        ensures { CarriesOut no_calls (S.state store.old) (T.state out.old) self.now (Unit {0})
            (λ _. reports self.now None (Ok (repos_text self.now)))
            result self.now (S.state store.new) (T.state out.new) }
    {
        let text = self.load_list_text()?;
        send(store, out, &None, &text)
    }
}
