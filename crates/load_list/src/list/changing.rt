//! What is done to the chosen repository, and what is looked up in it.
ghost use Rattle.std.specs.Prelude.{◌≡◌, ◌≤◌, IfOk, OnErr};
ghost use Rattle.byte_patterns.specs.Judging.{Judges};
ghost use Rattle.event_sets.specs.Once.{IsOnce};
ghost use Rattle.history_machine.specs.Sessions.{
  after_assign,
  after_edit,
  after_renumber,
  remade,
  said_by,
  shown,
  without_paths,
};
ghost use Rattle.plain_model.specs.Faults.{Returns};
ghost use Rattle.load_list.specs.Entries.{AreLiveIn};
ghost use Rattle.load_list.specs.Lists.{Changes, chosen_in, selected_in, text_in};

use super::LoadList;
use byte_patterns::Patterns;
use path_expunge::Matcher;
use plain_model::{AnyId, Halt, IdList, Text};
use script_reader::{Edit, FileEdit, Listing, WrittenSelection};

impl LoadList {
    /// The events for which a selection stands, each once.
    pub fn denoted<P: Patterns>(
        &mut self,
        selection: &WrittenSelection,
        patterns: &mut P,
    ) -> Result<IdList, Halt>
        ensures judged { Judges (λ ids. ids) (P.sizes patterns.old) (P.sizes patterns.new) result
            (selected_in selection.now self.old) }
        ensures once { IfOk result IsOnce }
        ensures live { IfOk result (AreLiveIn (chosen_in self.old)) }
        ensures same { self.new ≡ self.old }
        ensures grows { P.sizes patterns.old ≤ P.sizes patterns.new }
    {
        let place = self.chosen_place()?;
        self.by_name[place].denoted(selection, patterns)
    }

    /// A text of some of its events.
    pub fn shown(&mut self, what: Listing, ids: &[AnyId]) -> Result<Text, Halt>
        ensures text { Returns (λ text. text) result (text_in (shown what ids.now) self.old) }
        ensures same { self.new ≡ self.old }
    {
        let place = self.chosen_place()?;
        Ok(self.by_name[place].shown(what, ids)?)
    }

    /// Gives its marks anew.
    #[tactic(auto, unfolding(history_machine::specs::Sessions::after_renumber, history_machine::specs::Sessions::chosen))]
    pub fn renumber(&mut self) -> Result<(), Halt>
        ensures changes { Changes after_renumber self.old result self.new }
        ensures kept { OnErr result (self.new ≡ self.old) }
    {
        let place = self.chosen_place()?;
        Ok(self.by_name[place].renumber()?)
    }

    /// Edits some of its events.
    #[tactic(auto, unfolding(history_machine::specs::Sessions::after_edit, history_machine::specs::Sessions::chosen))]
    pub fn edit(&mut self, what: &Edit, ids: &[AnyId]) -> Result<(), Halt>
        requires once { IsOnce ids.now }
        requires live { AreLiveIn (chosen_in self.old) ids.now }
        ensures changes { Changes (λ s. after_edit s (remade what.now ids.now)) self.old result
            self.new }
        ensures kept { OnErr result (self.new ≡ self.old) }
    {
        let place = self.chosen_place()?;
        self.by_name[place].edit(what, ids)
    }

    /// Takes the matched paths out of its history.
    #[tactic(auto, unfolding(history_machine::specs::Sessions::after_edit, history_machine::specs::Sessions::chosen))]
    pub fn expunge(&mut self, matchers: &[Matcher]) -> Result<(), Halt>
        ensures changes { Changes (λ s. after_edit s (without_paths matchers.now)) self.old result
            self.new }
        ensures kept { OnErr result (self.new ≡ self.old) }
    {
        let place = self.chosen_place()?;
        self.by_name[place].expunge(matchers)
    }

    /// Edits its history as the lines of a file say.
    #[tactic(auto, unfolding(history_machine::specs::Sessions::after_edit, history_machine::specs::Sessions::chosen))]
    pub fn edit_by(&mut self, what: FileEdit, bytes: &[u8]) -> Result<(), Halt>
        ensures changes { Changes (λ s. after_edit s (said_by what bytes.now)) self.old result
            self.new }
        ensures kept { OnErr result (self.new ≡ self.old) }
    {
        let place = self.chosen_place()?;
        self.by_name[place].edit_by(what, bytes)
    }

    /// Gives a list of its events a name, unless another has it.
    #[tactic(auto, unfolding(history_machine::specs::Sessions::after_assign, history_machine::specs::Sessions::chosen))]
    pub fn assign(&mut self, ids: &[AnyId], given: &[u8]) -> Result<(), Halt>
        requires { IsOnce ids.now }
        ensures changes { Changes (λ s. after_assign s ids.now given.now) self.old result self.new }
        ensures kept { OnErr result (self.new ≡ self.old) }
    {
        let place = self.chosen_place()?;
        self.by_name[place].assign(given, ids)
    }
}
