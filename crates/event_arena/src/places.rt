//! The places of events, noted under their ids.
ghost use Rattle.std.specs.Prelude.{◌≡◌, ◌==◌, ◌≤◌, [], slice_index_or, if◌then◌else◌, IfOk, OnErr, OnOk};
ghost use Rattle.std.specs.List.{Contains};
ghost use Rattle.event_arena.specs.Pointers.{AreAmong, HasNotedResets, HasNotedTags};
ghost use Rattle.event_arena.specs.Rows.{IsNoted, IsNotedAt, noted};
ghost use Rattle.plain_model.specs.declared.id.AnyId.{AnyId};

use plain_model::{AnyId, IdList, NoMemory, ResetId, TagId};
use std::alloc::{AllocError, Global};
use std::marker::Model;

/// Places under the numbers of the ids of one kind, where the ids can be listed for which one is noted. Contracts see the place under
/// each number.
#[derive(Drop)]
pub struct ListedPlaces {
    alloc: Global,
    places: Vec<u32>,
    // All numbers under which another place than the first is noted, and perhaps others.
    numbers: Vec<u64>,
}

impl Model for ListedPlaces {
    ghost use Rattle.std.specs.Prelude.{List, ℕ};

    ghost Value = { List ℕ };

    ghost use Rattle.event_arena.specs.Pointers.{AreNumbered};

    ghost view = { λ s. s.places.items };

    ghost invariant = { AreNumbered };
}

impl ListedPlaces {
    fn new(alloc: Global) -> ListedPlaces
        ensures { result ≡ [] }
    {
        ListedPlaces {
            alloc,
            places: Vec::new(alloc),
            numbers: Vec::new(alloc),
        }
    }

    // The place under a number, or 0.
    fn noted(&self, number: u64) -> usize
        ensures { result ≡ slice_index_or self.now number 0 }
    {
        noted_at(&self.places, number)
    }

    // Notes a place under a number.
    fn note(&mut self, number: u64, place: usize) -> Result<(), NoMemory>
        ensures ok { OnOk result (IsNotedAt number place self.old self.new) }
        ensures err { OnErr result (self.new ≡ self.old) }
    {
        if self.noted(number) == 0 {
            self.numbers.push(number)?;
        }
        note_at(&mut self.places, number, place)
    }

    // The numbers under which another place than the first is noted. Others may be among them.
    fn numbers(&self) -> &[u64]
        ensures { (n : _) → 1 ≤ slice_index_or self.now n 0 → Contains result.now n }
    {
        self.numbers.as_slice()
    }

    // Equal places, and the same numbers.
    fn copied(&self) -> Result<ListedPlaces, AllocError>
        ensures { IfOk result (λ made. made ≡ self.now) }
    {
        let alloc = self.alloc;
        Ok(ListedPlaces {
            alloc,
            places: Vec::from_slice(alloc, self.places.as_slice())?,
            numbers: Vec::from_slice(alloc, self.numbers.as_slice())?,
        })
    }
}

/// For each id the place that was noted for it last, or 0. Ids of each kind have numbers of their own. A place that wants more
/// than 32 bits counts as out of memory.
#[derive(Drop)]
pub struct Places {
    alloc: Global,
    blobs: Vec<u32>,
    commits: Vec<u32>,
    tags: ListedPlaces,
    resets: ListedPlaces,
    passes: Vec<u32>,
}

// The place under a number.
fn noted_at(places: &Vec<u32>, number: u64) -> usize
    ensures { result ≡ slice_index_or places.now.items number 0 }
{
    let number = number as usize;
    if number < places.len() {
        places[number] as usize
    } else {
        0
    }
}

// Notes a place under a number.
fn note_at(places: &mut Vec<u32>, number: u64, place: usize) -> Result<(), NoMemory>
    ensures ok { OnOk result (IsNotedAt number place places.old.items places.new.items) }
    ensures err { OnErr result (places.new.items ≡ places.old.items) }
{
    let Ok(place) = u32::try_from(place) else {
        return Err(NoMemory);
    };
    let number = number as usize;
    if number >= places.len() {
        let Some(count) = number.checked_add(1) else {
            return Err(NoMemory);
        };
        places.resize(count, 0)?;
    }
    places[number] = place;
    Ok(())
}

impl Places {
    pub fn new(alloc: Global) -> Places {
        Places {
            alloc,
            blobs: Vec::new(alloc),
            commits: Vec::new(alloc),
            tags: ListedPlaces::new(alloc),
            resets: ListedPlaces::new(alloc),
            passes: Vec::new(alloc),
        }
    }

    /// The place that was noted for the id, or 0.
    pub fn noted(&self, id: AnyId) -> usize
        ensures { result ≡ noted self.now id }
    {
        match id {
            AnyId::Blob(id) => noted_at(&self.blobs, id.number()),
            AnyId::Commit(id) => noted_at(&self.commits, id.number()),
            AnyId::Tag(id) => self.tags.noted(id.number()),
            AnyId::Reset(id) => self.resets.noted(id.number()),
            AnyId::Pass(id) => noted_at(&self.passes, id.number()),
        }
    }

    /// Puts the ids of the tags at the end for which another place than the first is noted.
    pub fn push_tags(&self, list: &mut IdList) -> Result<(), NoMemory>
        ensures old { OnOk result (AreAmong list.old list.new) }
        ensures all { OnOk result (HasNotedTags self.now list.new) }
    {
        for number in self.tags.numbers() {
            list.push(AnyId::Tag(TagId::new(*number)))?;
        }
        Ok(())
    }

    /// Puts the ids of the resets at the end for which another place than the first is noted.
    pub fn push_resets(&self, list: &mut IdList) -> Result<(), NoMemory>
        ensures old { OnOk result (AreAmong list.old list.new) }
        ensures all { OnOk result (HasNotedResets self.now list.new) }
    {
        for number in self.resets.numbers() {
            list.push(AnyId::Reset(ResetId::new(*number)))?;
        }
        Ok(())
    }

    /// Notes the place of an id.
    pub fn note(&mut self, id: AnyId, place: usize) -> Result<(), NoMemory>
        ensures ok { OnOk result (IsNoted id place self.old self.new) }
        ensures err { OnErr result ((other : AnyId) → noted self.new other ≡ noted self.old other) }
    {
        match id {
            AnyId::Blob(id) => note_at(&mut self.blobs, id.number(), place),
            AnyId::Commit(id) => note_at(&mut self.commits, id.number(), place),
            AnyId::Tag(id) => self.tags.note(id.number(), place),
            AnyId::Reset(id) => self.resets.note(id.number(), place),
            AnyId::Pass(id) => note_at(&mut self.passes, id.number(), place),
        }
    }
}

impl Clone for Places {
    ghost is_clone = { λ old new. (id : AnyId) → noted new id ≡ noted old id };

    fn clone(&self) -> Result<Places, AllocError> {
        let alloc = self.alloc;
        Ok(Places {
            alloc,
            blobs: Vec::from_slice(alloc, self.blobs.as_slice())?,
            commits: Vec::from_slice(alloc, self.commits.as_slice())?,
            tags: self.tags.copied()?,
            resets: self.resets.copied()?,
            passes: Vec::from_slice(alloc, self.passes.as_slice())?,
        })
    }
}
