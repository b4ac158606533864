//! Events in no order, which the rows of a table name by number.
ghost use Rattle.std.specs.Prelude.{◌≡◌, ◌<◌, ◌∷◌, ◌++◌, [], Some, length, slice_get, IfOk, OnErr, OnOk};
ghost use Rattle.event_arena.specs.Rows.{events_of};
ghost use Rattle.plain_model.specs.Lookups.{id_of};

use plain_model::{AnyId, NoMemory, PlainEvent};
use std::alloc::Global;
use std::marker::Model;
use std::rc::Rc;

/// A row of a table: the id of an event, and its number in the store. Whoever looks for an id reads the rows alone.
#[derive(Clone, Copy)]
pub struct Row {
    pub id: AnyId,
    pub at: usize,
}

/// Events, each under a number from 0. The common ones are those of many tables, and never change. Beside them stand those
/// that one table has changed or added; tables that are equal share these, too.
#[derive(Drop)]
pub struct Store {
    common: Rc<Vec<Rc<PlainEvent>>>,
    own: Rc<Vec<Rc<PlainEvent>>>,
}

impl Model for Store {
    ghost use Rattle.std.specs.Prelude.{◌++◌, List};
    ghost use Rattle.plain_model.specs.declared.event.PlainEvent.{PlainEvent};
    ghost use Rattle.event_arena.specs.Rows.{events_of};

    ghost Value = { List PlainEvent };

    ghost view = { λ s. events_of s.common.value.items ++ events_of s.own.value.items };
}

impl Store {
    /// The store of these events.
    pub fn new(alloc: Global, events: Vec<Rc<PlainEvent>>) -> Result<Store, NoMemory>
        ensures { IfOk result (λ store. store ≡ events_of events.items) }
    {
        let common = Rc::new(alloc, events)?;
        let own = Rc::new(alloc, Vec::new(alloc))?;
        Ok(Store { common, own })
    }

    /// An equal store over the same events.
    pub fn share(&self) -> Result<Store, NoMemory>
        ensures { IfOk result (λ store. store ≡ self.now) }
    {
        let common = self.common.clone()?;
        let own = self.own.clone()?;
        Ok(Store { common, own })
    }

    /// The event with the number.
    pub fn event(&self, at: usize) -> &Rc<PlainEvent>
        requires { at < length self.now }
        ensures { slice_get self.now at ≡ Some result.now.value }
    {
        let common = self.common.as_ref();
        if at < common.len() {
            &common[at]
        } else {
            &self.own.as_ref()[at - common.len()]
        }
    }

    /// Puts an event beside the others, and gives a row that names it.
    pub fn push(&mut self, event: Rc<PlainEvent>) -> Result<Row, NoMemory>
        ensures number { IfOk result (λ row. row.at ≡ length self.old) }
        ensures id { IfOk result (λ row. row.id ≡ id_of event.value) }
        ensures ok { OnOk result (self.new ≡ self.old ++ event.value ∷ []) }
        ensures err { OnErr result (self.new ≡ self.old) }
    {
        let common = self.common.as_ref().len();
        let Some(at) = common.checked_add(self.own.as_ref().len()) else {
            return Err(NoMemory);
        };
        let id = event.as_ref().id();
        push_event(&mut self.own, event)?;
        Ok(Row { id, at })
    }

    /// Whether a table of so many events does better with a store of its own: there are many that it doesn't name, or many
    /// to copy before it can change one.
    pub fn is_worn(&self, count: usize) -> bool {
        let few = (count / 8).saturating_add(64);
        let own = self.own.as_ref().len();
        let most = count.saturating_add(few);
        own > few || self.common.as_ref().len().saturating_add(own) > most
    }
}

// Puts an event at the end; of a copy, where the list has another owner.
fn push_event(events: &mut Rc<Vec<Rc<PlainEvent>>>, event: Rc<PlainEvent>) -> Result<(), NoMemory>
    ensures ok { OnOk result (events_of events.new.value.items ≡ events_of events.old.value.items ++ event.value ∷ []) }
    ensures err { OnErr result (events_of events.new.value.items ≡ events_of events.old.value.items) }
{
    Rc::make_mut(events)?.push(event)?;
    Ok(())
}
