//! The chosen repository becomes two.
ghost use Rattle.std.specs.Prelude.{◌≡◌, ◌++◌, ◌∷◌, [], None, Some, bytes_eq, false, IfOk, IsSome, OnErr, OnOk};
ghost use Rattle.event_sets.specs.Once.{IsOnce};
ghost use Rattle.graft_laws.specs.Joined.{AreNameBytes};
ghost use Rattle.history_machine.specs.Sessions.{find_repo, read_repo, unused, without_repo};
ghost use Rattle.history_machine.specs.Several.{after_dividing, early_name, halves_of, late_name};
ghost use Rattle.plain_model.specs.Faults.{Returns};
ghost use Rattle.plain_model.specs.Lookups.{next_number};
ghost use Rattle.load_list.specs.Entries.{AreLiveIn};
ghost use Rattle.load_list.specs.Lists.{
  Changes,
  IfChosen,
  IsChosenAt,
  chosen_in,
  divided_in,
  divided_under,
};

use super::LoadList;
use crate::faults::{taken, too_many};
use event_arena::Events;
use plain_model::{AnyId, Halt, Items, NoMemory, Text};
use std::alloc::Global;

// A name with an ending.
fn ended(alloc: Global, name: &[u8], ending: &[u8]) -> Result<Text, NoMemory>
    ensures { IfOk result (λ text. text ≡ name.now ++ ending.now) }
{
    let mut text = Items::of(alloc, name)?;
    text.push_all(ending)?;
    Ok(text)
}

impl LoadList {
    // The name of the chosen repository.
    fn chosen_name(&self, place: usize) -> Result<Text, NoMemory>
        requires { IsChosenAt self.now place }
        ensures name { IfOk result (λ name. IfChosen (λ repo. repo.name ≡ name) self.now) }
        ensures bytes { IfOk result AreNameBytes }
    {
        let (name, _) = self.by_name.get_index(place).unwrap();
        Items::of(self.alloc, name.as_slice())
    }

    // Both halves of the chosen history.
    fn halves(&mut self, place: usize, ids: &[AnyId]) -> Result<(Events, Events), Halt>
        requires at { IsChosenAt self.old place }
        requires once { IsOnce ids.now }
        requires live { AreLiveIn (chosen_in self.old) ids.now }
        ensures returns { IfChosen (λ repo. Returns (λ both. (both.0.list, both.1.list)) result
            (halves_of ids.now repo.history)) self.old }
        ensures early { IfOk result (λ both. both.0.next_id ≡ next_number both.0.list) }
        ensures late { IfOk result (λ both. both.1.next_id ≡ next_number both.1.list) }
        ensures same { self.new ≡ self.old }
    {
        self.by_name[place].halves(ids)
    }

    // Loads both halves after the others.
    fn add_both(
        &mut self,
        early: &[u8],
        late: &[u8],
        halves: (Events, Events),
    ) -> Result<(), NoMemory>
        requires early { find_repo early.now self.old.repos ≡ None }
        requires late { find_repo late.now self.old.repos ≡ None }
        requires apart { bytes_eq late.now early.now ≡ false }
        requires early_bytes { AreNameBytes early.now }
        requires late_bytes { AreNameBytes late.now }
        requires early_next { halves.0.next_id ≡ next_number halves.0.list }
        requires late_next { halves.1.next_id ≡ next_number halves.1.list }
        ensures ok { OnOk result (self.new ≡ record self.old {
          repos = (self.old.repos ++ read_repo early.now halves.0.list ∷ [])
              ++ read_repo late.now halves.1.list ∷ [];
        }) }
        ensures err { OnErr result (self.new ≡ self.old) }
    {
        let (first, second) = halves;
        self.add(early, first)?;
        match self.add(late, second) {
            Ok(()) => Ok(()),
            Err(NoMemory) => {
                self.remove(early);
                Err(NoMemory)
            }
        }
    }

    // Loads both halves in the place of the repository of a name, and chooses the first.
    fn split(
        &mut self,
        name: &[u8],
        early: &[u8],
        late: &[u8],
        halves: (Events, Events),
    ) -> Result<(), NoMemory>
        requires there { IsSome (find_repo name.now self.old.repos) }
        requires early { find_repo early.now self.old.repos ≡ None }
        requires late { find_repo late.now self.old.repos ≡ None }
        requires apart { bytes_eq late.now early.now ≡ false }
        requires early_bytes { AreNameBytes early.now }
        requires late_bytes { AreNameBytes late.now }
        requires early_next { halves.0.next_id ≡ next_number halves.0.list }
        requires late_next { halves.1.next_id ≡ next_number halves.1.list }
        ensures ok { OnOk result (self.new ≡ record {
          repos = (without_repo name.now self.old.repos ++ read_repo early.now halves.0.list ∷ [])
              ++ read_repo late.now halves.1.list ∷ [];
          choice = Some early.now;
        }) }
        ensures err { OnErr result (self.new ≡ self.old) }
    {
        let choice = Items::of(self.alloc, early)?;
        self.add_both(early, late, halves)?;
        self.remove(name);
        self.choice = Some(choice);
        Ok(())
    }

    // A name with an ending, which no repository has.
    fn free_ending(&self, name: &[u8], ending: &[u8]) -> Result<Text, Halt>
        ensures { Returns (λ text. text) result
            (unused (name.now ++ ending.now) (find_repo (name.now ++ ending.now) self.now.repos)) }
    {
        let text = ended(self.alloc, name, ending)?;
        if self.has(text.as_slice()) {
            return Err(Halt::Refused(taken(self.alloc, text.as_slice())?));
        }
        Ok(text)
    }

    // Divides the chosen repository, which has this name, where its halves may have theirs.
    fn divide_into(
        &mut self,
        place: usize,
        name: &[u8],
        early: &[u8],
        late: &[u8],
        ids: &[AnyId],
    ) -> Result<(), Halt>
        requires at { IsChosenAt self.old place }
        requires name { IfChosen (λ repo. repo.name ≡ name.now) self.old }
        requires bytes { AreNameBytes name.now }
        requires early { early.now ≡ early_name name.now }
        requires late { late.now ≡ late_name name.now }
        requires early_free { find_repo early.now self.old.repos ≡ None }
        requires late_free { find_repo late.now self.old.repos ≡ None }
        requires once { IsOnce ids.now }
        requires live { AreLiveIn (chosen_in self.old) ids.now }
        ensures divides { IfChosen (λ repo. Returns (λ _. self.new) result
            (divided_in name.now self.old (halves_of ids.now repo.history))) self.old }
        ensures kept { OnErr result (self.new ≡ self.old) }
    {
        let halves = self.halves(place, ids)?;
        Ok(self.split(name, early, late, halves)?)
    }

    // Divides the chosen repository, which has this name, where there is room.
    fn divide_named(&mut self, place: usize, name: &[u8], ids: &[AnyId]) -> Result<(), Halt>
        requires at { IsChosenAt self.old place }
        requires name { IfChosen (λ repo. repo.name ≡ name.now) self.old }
        requires bytes { AreNameBytes name.now }
        requires once { IsOnce ids.now }
        requires live { AreLiveIn (chosen_in self.old) ids.now }
        ensures divides { IfChosen (λ repo. Returns (λ _. self.new) result
            (divided_under name.now self.old (halves_of ids.now repo.history))) self.old }
        ensures kept { OnErr result (self.new ≡ self.old) }
    {
        let early = self.free_ending(name, b"-early")?;
        let late = self.free_ending(name, b"-late")?;
        self.divide_into(place, name, early.as_slice(), late.as_slice(), ids)
    }

    /// Divides the chosen repository. It leaves the list only after both halves and all memory for them are there.
    #[tactic(auto, unfolding(history_machine::specs::Several::after_dividing, history_machine::specs::Sessions::chosen))]
    pub fn divide(&mut self, ids: &[AnyId]) -> Result<(), Halt>
        requires once { IsOnce ids.now }
        requires live { AreLiveIn (chosen_in self.old) ids.now }
        ensures changes { Changes (λ s. after_dividing s (halves_of ids.now)) self.old result self.new }
        ensures kept { OnErr result (self.new ≡ self.old) }
    {
        let place = self.chosen_place()?;
        if !self.has_room() {
            return Err(Halt::Refused(too_many()));
        }
        let name = self.chosen_name(place)?;
        self.divide_named(place, name.as_slice(), ids)
    }
}
