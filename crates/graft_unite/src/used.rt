//! The names that branches and tags have.
ghost use Rattle.std.specs.Prelude.{◌≡◌, ◌∷◌, ◌||◌, [], bytes_eq, IfOk, OnOk};
ghost use Rattle.std.specs.List.{list_any};
ghost use Rattle.graft_laws.specs.Names.{is_used};
ghost use Rattle.graft_unite.specs.Used.{AreNamesOf};

use event_arena::Events;
use plain_model::{NoMemory, PlainEvent};
use std::alloc::Global;
use std::collections::HashSet;
use std::marker::Model;

/// Names, each once.
#[derive(Drop)]
pub struct Names {
    set: HashSet<Vec<u8>>,
}

impl Model for Names {
    ghost use Rattle.std.specs.Prelude.{List, ℕ, map};

    ghost Value = { List (List ℕ) };

    ghost view = { λ n. map (λ key. key.items) n.set.keys };
}

impl Names {
    /// No names yet.
    pub fn new(alloc: Global) -> Names
        ensures { result ≡ [] }
    {
        Names {
            set: HashSet::new(alloc),
        }
    }

    /// Whether a name is one of them.
    pub fn has(&self, name: &[u8]) -> bool
        ensures { result ≡ list_any (bytes_eq name.now) self.now }
    {
        self.set.contains(name)
    }

    // Puts a name among them.
    fn add(&mut self, alloc: Global, name: &[u8]) -> Result<(), NoMemory>
        ensures { OnOk result ((other : _) → list_any (bytes_eq other) self.new
            ≡ (bytes_eq other name.now || list_any (bytes_eq other) self.old)) }
    {
        if self.has(name) {
            return Ok(());
        }
        let _ = self.set.insert(Vec::from_slice(alloc, name)?)?;
        Ok(())
    }

    /// Puts the name of an event among them, if it has one.
    pub fn note(&mut self, alloc: Global, event: &PlainEvent) -> Result<(), NoMemory>
        ensures { OnOk result ((other : _) → list_any (bytes_eq other) self.new
            ≡ (is_used (event.now ∷ []) other || list_any (bytes_eq other) self.old)) }
    {
        match event {
            PlainEvent::Commit { branch, .. } => self.add(alloc, branch.as_slice()),
            PlainEvent::Tag { name, .. } => self.add(alloc, name.as_slice()),
            PlainEvent::Reset { branch, .. } => self.add(alloc, branch.as_slice()),
            PlainEvent::Blob { .. } => Ok(()),
            PlainEvent::Pass { .. } => Ok(()),
        }
    }

    /// The names of a history.
    pub fn of(alloc: Global, events: &Events) -> Result<Names, NoMemory>
        ensures { IfOk result (AreNamesOf events.now.list) }
    {
        let mut names = Names::new(alloc);
        for place in 0..events.count() {
            names.note(alloc, events.nth(place))?;
        }
        Ok(names)
    }
}
