//! The load list with its choice: calls by name, and the chosen repository, found by its place. `choosing` chooses and
//! forgets, `changing` is what is done to the chosen one, `joining` takes others in, `uniting` makes one of several, and `dividing`
//! makes two of it.
ghost use Rattle.std.specs.Prelude.{
  ◌≡◌,
  ◌<◌,
  ◌++◌,
  ◌∷◌,
  [],
  None,
  Some,
  is_some,
  length,
  nat_lt,
  option_map,
  slice_get,
  IfOk,
  OnErr,
  OnOk,
};
ghost use Rattle.graft_laws.specs.Joined.{AreNameBytes};
ghost use Rattle.history_machine.specs.Sessions.{find_repo, read_repo, without_repo};
ghost use Rattle.plain_model.specs.Faults.{Returns};
ghost use Rattle.plain_model.specs.Lookups.{next_number};
ghost use Rattle.plain_model.specs.declared.limit.TheConstants.{MAX_REPOSITORIES};
ghost use Rattle.load_list.specs.Entries.{repo_under};
ghost use Rattle.load_list.specs.Lists.{FindsChosen, chosen_in};

mod changing;
mod choosing;
mod dividing;
mod joining;
mod uniting;

use crate::repository::Repository;
use event_arena::Events;
use indexmap::IndexMap;
use plain_model::{Fault, Halt, Items, MAX_REPOSITORIES, NoMemory, Text};
use std::alloc::Global;
use std::marker::Model;

/// The loaded histories under their names, in the order in which they were loaded, and the name of the one that is
/// chosen, if one is. (own)
#[derive(Drop)]
pub struct LoadList {
    alloc: Global,
    by_name: IndexMap<Vec<u8>, Repository>,
    choice: Option<Text>,
}

impl Model for LoadList {
    ghost use Rattle.load_list.specs.Entries.{AreNamed, repos_of};
    ghost use Rattle.load_list.specs.Lists.{LoadList};

    ghost Value = { LoadList };

    ghost view = { λ l. record { repos = repos_of l.by_name.entries; choice = l.choice } };

    ghost invariant = { λ l. AreNamed l.by_name.entries };
}

impl LoadList {
    /// Nothing is loaded, and so nothing chosen.
    pub fn new(alloc: Global) -> LoadList
        ensures { result ≡ record { repos = []; choice = None } }
    {
        LoadList {
            alloc,
            by_name: IndexMap::new(alloc),
            choice: None,
        }
    }

    /// How many are loaded.
    pub fn count(&self) -> usize
        ensures { result ≡ length self.now.repos }
    {
        self.by_name.len()
    }

    /// Whether one more may be loaded.
    pub fn has_room(&self) -> bool
        ensures { result ≡ nat_lt (length self.now.repos) MAX_REPOSITORIES }
    {
        (self.count() as u64) < MAX_REPOSITORIES
    }

    /// The name of the one at this place, from 0.
    pub fn name(&self, place: usize) -> &[u8]
        requires { place < length self.now.repos }
        ensures { option_map (λ repo. repo.name) (slice_get self.now.repos place)
            ≡ Some result.now }
    {
        let (name, _) = self.by_name.get_index(place).unwrap();
        name.as_slice()
    }

    /// The name that is chosen.
    pub fn choice(&self) -> &Option<Text>
        ensures { result.now ≡ self.now.choice }
    {
        &self.choice
    }

    /// The one with the name.
    pub fn repository(&self, name: &[u8]) -> Option<&Repository>
        ensures { option_map (λ found. repo_under name.now found.now) result
            ≡ find_repo name.now self.now.repos }
    {
        match self.by_name.get(name) {
            Some(found) => Some(found),
            None => None,
        }
    }

    /// Whether one has the name.
    pub fn has(&self, name: &[u8]) -> bool
        ensures { result ≡ is_some (find_repo name.now self.now.repos) }
    {
        self.repository(name).is_some()
    }

    /// Loads a history under a name that none has, after the others.
    pub fn add(&mut self, name: &[u8], events: Events) -> Result<(), NoMemory>
        requires named { AreNameBytes name.now }
        requires free { find_repo name.now self.old.repos ≡ None }
        requires next { events.next_id ≡ next_number events.list }
        ensures ok { OnOk result
            (self.new ≡ record self.old {
              repos = self.old.repos ++ read_repo name.now events.list ∷ [];
            }) }
        ensures err { OnErr result (self.new ≡ self.old) }
    {
        let name = Vec::from_slice(self.alloc, name)?;
        let _ = self
            .by_name
            .insert(name, Repository::of(self.alloc, events)?)?;
        Ok(())
    }

    /// The same, and the history is chosen.
    pub fn add_chosen(&mut self, name: &[u8], events: Events) -> Result<(), NoMemory>
        requires named { AreNameBytes name.now }
        requires free { find_repo name.now self.old.repos ≡ None }
        requires next { events.next_id ≡ next_number events.list }
        ensures ok { OnOk result
            (self.new ≡ record {
              repos = self.old.repos ++ read_repo name.now events.list ∷ [];
              choice = Some name.now;
            }) }
        ensures err { OnErr result (self.new ≡ self.old) }
    {
        let choice = Items::of(self.alloc, name)?;
        self.add(name, events)?;
        self.choice = Some(choice);
        Ok(())
    }

    /// Takes the one with the name out, whether it is chosen or not. The others keep their order.
    pub fn remove(&mut self, name: &[u8])
        ensures { self.new ≡ record self.old { repos = without_repo name.now self.old.repos } }
    {
        let _ = self.by_name.shift_remove(name);
    }

    // The place of the chosen repository.
    fn chosen_place(&self) -> Result<usize, Halt>
        ensures { FindsChosen self.now result }
    {
        let Some(name) = &self.choice else {
            return Err(Halt::Refused(Fault::NoRepo));
        };
        match self.by_name.get_index_of(name.as_slice()) {
            Some(place) => Ok(place),
            None => Err(Halt::Refused(Fault::NoRepo)),
        }
    }

    /// The chosen repository, after its name.
    pub fn chosen(&self) -> Result<(&[u8], &Repository), Halt>
        ensures { Returns (λ found. repo_under found.0.now found.1.now) result
            (chosen_in self.now) }
    {
        let place = self.chosen_place()?;
        let (name, repository) = self.by_name.get_index(place).unwrap();
        Ok((name.as_slice(), repository))
    }
}
