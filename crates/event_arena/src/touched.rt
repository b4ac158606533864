//! Which events a plan has touched, as long as they are few.
ghost use Rattle.std.specs.Prelude.{◌≡◌, ◌∷◌, [], None, Some, option_map, IfOk};
ghost use Rattle.event_arena.specs.Touched.{HasMore};

use plain_model::{AnyId, NoMemory};
use std::alloc::Global;
use std::marker::Model;

// So many ids are kept at most. Where there are more, indices are filled anew.
const MOST: usize = 64;

/// The ids of the events that a plan has touched, each as often as it was. Contracts see `None` where there are too many to
/// tell, or where the order of the events has changed.
#[derive(Drop)]
pub struct Touched {
    ids: Vec<AnyId>,
    are_few: bool,
}

impl Model for Touched {
    ghost use Rattle.std.specs.Prelude.{List, None, Option, Some, if◌then◌else◌};
    ghost use Rattle.plain_model.specs.declared.id.AnyId.{AnyId};

    ghost Value = { Option (List AnyId) };

    ghost view = { λ t. if t.are_few then Some t.ids.items else None };
}

impl Touched {
    /// No event.
    pub fn none(alloc: Global) -> Result<Touched, NoMemory>
        ensures { IfOk result (λ touched. touched ≡ Some []) }
    {
        let ids = Vec::with_capacity(alloc, MOST)?;
        Ok(Touched { ids, are_few: true })
    }

    /// Adds the id of an event.
    pub fn add(&mut self, id: AnyId)
        ensures { HasMore (id ∷ []) self.old self.new }
    {
        if self.ids.len() < self.ids.capacity() {
            self.ids.push_reserved(id);
        } else {
            self.are_few = false;
        }
    }

    /// Adds the ids of some events.
    pub fn add_all(&mut self, ids: &[AnyId])
        ensures { HasMore ids.now self.old self.new }
    {
        for id in ids {
            self.add(*id);
        }
    }

    /// Gives up telling.
    pub fn give_up(&mut self)
        ensures { self.new ≡ None }
    {
        self.are_few = false;
    }

    /// The ids, if they are few.
    pub fn ids(&self) -> Option<&[AnyId]>
        ensures { option_map (λ ids. ids.now) result ≡ self.now }
    {
        if self.are_few {
            Some(self.ids.as_slice())
        } else {
            None
        }
    }
}
