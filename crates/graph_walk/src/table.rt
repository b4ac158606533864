//! Expansions place by place, of which only those of removed events take room.
ghost use Rattle.std.specs.Prelude.{
  ◌≡◌,
  ◌<◌,
  ◌+◌,
  ◌^◌,
  ◌∷◌,
  ◌++◌,
  [],
  if◌then◌else◌,
  is_ok,
  length,
  slice_index_or,
};
ghost use Rattle.graph_walk.specs.declared.expansion.Expansion.TheVariants.{At};

use crate::expansion::Expansion;
use plain_model::NoMemory;
use std::alloc::Global;
use std::marker::Model;

// What the event at a place expands to.
#[derive(Clone, Copy)]
struct Entry {
    place: usize,
    expansion: Expansion,
}

/// The expansions of the first events, so many of them. One that isn't noted is that of an event that stays: the place itself.
#[derive(Drop)]
pub struct ExpansionTable {
    count: usize,
    // In the order of their places.
    entries: Vec<Entry>,
}

impl Model for ExpansionTable {
    ghost use Rattle.std.specs.Prelude.{List};
    ghost use Rattle.graph_walk.specs.Table.{expansions_to, AreNoted};
    ghost use Rattle.graph_walk.specs.declared.expansion.Expansion.{Expansion};

    ghost Value = { List Expansion };

    ghost view = { λ t. expansions_to t.count t.entries.items };

    ghost invariant = { λ t. AreNoted t.count t.entries.items };
}

impl ExpansionTable {
    /// Those of no events.
    pub fn empty(alloc: Global) -> ExpansionTable
        ensures { result ≡ [] }
    {
        ExpansionTable {
            count: 0,
            entries: Vec::new(alloc),
        }
    }

    /// The next event stays.
    pub fn push_itself(&mut self)
        requires { length self.old + 1 < 2 ^ 64 }
        ensures { self.new ≡ self.old ++ At (length self.old) ∷ [] }
    {
        self.count += 1;
    }

    /// The next event expands to this.
    pub fn push(&mut self, expansion: Expansion) -> Result<(), NoMemory>
        ensures { self.new ≡ (if is_ok result then self.old ++ expansion ∷ [] else self.old) }
    {
        let Some(count) = self.count.checked_add(1) else {
            return Err(NoMemory);
        };
        self.entries.push(Entry {
            place: self.count,
            expansion,
        })?;
        self.count = count;
        Ok(())
    }

    /// What the event at a place expands to.
    pub fn at(&self, place: usize) -> Expansion
        requires { place < length self.now }
        ensures { result ≡ slice_index_or self.now place result }
    {
        let index = self.entries.partition_point(|entry| entry.place < place);
        match self.entries.get(index) {
            Some(entry) if entry.place == place => entry.expansion,
            _ => Expansion::At(place),
        }
    }
}
