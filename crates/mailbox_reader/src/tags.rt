//! Tags by their names.
ghost use Rattle.std.specs.Prelude.{◌≡◌, ◌++◌, ◌∷◌, [], ◌<◌, None, Some, length, slice_get, IfOk, OnOk, option_map};
ghost use Rattle.mailbox_laws.specs.Landing.{tag_meant};
ghost use Rattle.mailbox_reader.specs.FirstTags.{AreFirst, place_in, tag_named, with_first};

use event_arena::Events;
use indexmap::IndexMap;
use plain_model::{NoMemory, PlainEvent};
use std::alloc::Global;
use std::marker::Model;

// The name of a tag.
fn name_of(event: &PlainEvent) -> Option<&[u8]>
    ensures { option_map (λ name. name.now) result ≡ tag_named event.now }
{
    match event {
        PlainEvent::Tag { name, .. } => Some(name.as_slice()),
        _ => None,
    }
}

/// The place of the first tag of each name, from 0, in the order of the history.
#[derive(Drop)]
pub struct FirstTags {
    alloc: Global,
    by_name: IndexMap<Vec<u8>, usize>,
}

impl Model for FirstTags {
    ghost use Rattle.std.specs.Prelude.{List, ℕ};
    ghost use Rattle.mailbox_reader.specs.FirstTags.{places_in};

    ghost Value = { List (List ℕ × ℕ) };

    ghost view = { λ tags. places_in tags.by_name.entries };
}

impl FirstTags {
    fn none(alloc: Global) -> FirstTags
        ensures { result ≡ [] }
    {
        FirstTags {
            alloc,
            by_name: IndexMap::new(alloc),
        }
    }

    // The place that is known for a name.
    fn place(&self, name: &[u8]) -> Option<usize>
        ensures { result ≡ place_in name.now self.now }
    {
        self.by_name.get(name).copied()
    }

    // Notes the place of a tag whose name isn't there.
    fn put(&mut self, name: &[u8], place: usize) -> Result<(), NoMemory>
        requires { place_in name.now self.old ≡ None }
        ensures { OnOk result (self.new ≡ self.old ++ (name.now, place) ∷ []) }
    {
        let key = Vec::from_slice(self.alloc, name)?;
        let _ = self.by_name.insert(key, place)?;
        Ok(())
    }

    // Notes the place of an event, if it is a tag whose name isn't there.
    fn note(&mut self, event: &PlainEvent, place: usize) -> Result<(), NoMemory>
        ensures { OnOk result (self.new ≡ with_first event.now place self.old) }
    {
        match name_of(event) {
            Some(name) => {
                if self.place(name).is_some() {
                    return Ok(());
                }
                self.put(name, place)
            }
            None => Ok(()),
        }
    }

    /// The tags of a history, in one pass over it.
    pub fn of(alloc: Global, events: &Events) -> Result<FirstTags, NoMemory>
        ensures { IfOk result (λ tags. AreFirst events.now.list tags) }
    {
        let mut first = FirstTags::none(alloc);
        for place in 0..events.count() {
            first.note(events.nth(place), place)?;
        }
        Ok(first)
    }

    /// The first tag of the name.
    pub fn tag<'e>(&self, events: &'e Events, name: &[u8]) -> Option<&'e PlainEvent>
        requires { AreFirst events.now.list self.now }
        ensures { option_map (λ event. event.now) result ≡ tag_meant events.now.list name.now }
    {
        match self.place(name) {
            Some(place) => Some(events.nth(place)),
            None => None,
        }
    }
}
