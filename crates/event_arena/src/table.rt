//! Events in order, found by place and by id.
ghost use Rattle.std.specs.Prelude.{
  ◌≡◌,
  ◌≤◌,
  ◌<◌,
  ◌∷◌,
  ◌++◌,
  [],
  None,
  Some,
  false,
  length,
  map,
  option_map,
  slice_get,
  slice_index_or,
  slice_set,
  true,
  IfOk,
  IfSome,
  IsSome,
  OnErr,
  OnOk,
};
ghost use Rattle.plain_model.specs.declared.id.AnyId.{AnyId};
ghost use Rattle.event_arena.specs.Changes.{
  IsOrderOf,
  changed,
  in_order,
  put_after,
  with_field,
  without,
  without_all,
};
ghost use Rattle.event_arena.specs.Numbers.{numbered};
ghost use Rattle.history_laws.specs.Once.{AreDistinct};
ghost use Rattle.event_arena.specs.Pointers.{HasPointers};
ghost use Rattle.event_arena.specs.Rows.{AreRows, IsNoted, events_of, in_rows, noted};
ghost use Rattle.event_arena.specs.Spent.{AddsNone, AddsOnly};
ghost use Rattle.event_arena.specs.Weights.{weight_of};
ghost use Rattle.plain_model.specs.Lookups.{
  commit_id,
  event_at,
  event_ops,
  event_parents,
  find_event,
  id_of,
  is_listed,
  number_of,
  place_of,
  same_id,
};

use crate::field::{Field, with_field};
use crate::places::Places;
use crate::store::{Row, Store};
use crate::weight::{heavier, lighter};
use plain_model::{
    AnyId, CommitId, EventList, FileOp, IdList, Items, NoMemory, PlainEvent, Shared,
};
use std::alloc::Global;
use std::marker::Model;
use std::rc::Rc;

/// A list of events that can be looked up, no two with one id. A history and a plan change theirs; whoever else has one reads it.
/// Tables share all that they hold, rows and places and events, until one of them
/// changes it. Rows alone answer what is asked of ids and their order, so that events are read only for what they say.
#[derive(Drop)]
pub struct EventTable {
    alloc: Global,
    rows: Rc<Vec<Row>>,
    // May have events that no row names any more: `renewed` leaves them behind.
    store: Store,
    // A place counts for an id only where the row there has that very id. So places of events that are gone may stay.
    places: Rc<Places>,
    // A bound of what the events weigh, kept up with each change, so that the room that they need is known without a walk.
    weight: Option<usize>,
}

impl Model for EventTable {
    ghost use Rattle.std.specs.Prelude.{List};
    ghost use Rattle.plain_model.specs.declared.event.PlainEvent.{PlainEvent};
    ghost use Rattle.event_arena.specs.Rows.{in_rows, IsTable};

    ghost Value = { List PlainEvent };

    ghost view = { λ t. in_rows t.store t.rows.value.items };

    ghost invariant = { λ t. IsTable t.store t.rows.value.items t.places.value t.weight (in_rows t.store t.rows.value.items) };
}

impl EventTable {
    // The table of these rows of a store.
    fn of_rows(
        alloc: Global,
        store: Store,
        rows: Vec<Row>,
        weight: Option<usize>,
    ) -> Result<EventTable, NoMemory>
        requires { AreRows store rows.items weight (in_rows store rows.items) }
        ensures { IfOk result (λ table. table ≡ in_rows store rows.items) }
    {
        let mut places = Places::new(alloc);
        for place in 0..rows.len() {
            places.note(rows[place].id, place)?;
        }
        let rows = Rc::new(alloc, rows)?;
        let places = Rc::new(alloc, places)?;
        Ok(EventTable {
            alloc,
            rows,
            store,
            places,
            weight,
        })
    }

    /// The table of a list whose ids are distinct, with a store of just its events.
    pub(crate) fn from_list(alloc: Global, list: EventList) -> Result<EventTable, NoMemory>
        requires { AreDistinct list }
        ensures { IfOk result (λ table. table ≡ list) }
    {
        let events = list.into_rows();
        let mut stored = Vec::with_capacity(alloc, events.len())?;
        let mut rows = Vec::with_capacity(alloc, events.len())?;
        let mut weight: Option<usize> = Some(0);
        for event in events {
            let shared = event.into_rc();
            let at = stored.len();
            weight = heavier(weight, shared.as_ref());
            rows.push(Row {
                id: shared.as_ref().id(),
                at,
            })?;
            stored.push(shared)?;
        }
        let store = Store::new(alloc, stored)?;
        EventTable::of_rows(alloc, store, rows, weight)
    }

    /// The list, over the same events.
    pub(crate) fn to_list(&self) -> Result<EventList, NoMemory>
        ensures { IfOk result (λ list. list ≡ self.now) }
    {
        let mut list = Items::empty(self.alloc);
        for place in 0..self.count() {
            list.push(Shared::of_rc(self.row(place).clone()?))?;
        }
        Ok(EventList::of_rows(list))
    }

    /// An equal table over the same rows.
    pub(crate) fn share(&self, alloc: Global) -> Result<EventTable, NoMemory>
        ensures { IfOk result (λ table. table ≡ self.now) }
    {
        let rows = self.rows.clone()?;
        let store = self.store.share()?;
        let places = self.places.clone()?;
        let weight = self.weight;
        Ok(EventTable {
            alloc,
            rows,
            store,
            places,
            weight,
        })
    }

    /// An equal table that is to be changed: over the same rows, or with a store of its own where too much of this one has
    /// gone out of use.
    pub(crate) fn renewed(&self, alloc: Global) -> Result<EventTable, NoMemory>
        ensures { IfOk result (λ table. table ≡ self.now) }
    {
        let count = self.count();
        if !self.store.is_worn(count) {
            return self.share(alloc);
        }
        EventTable::from_list(alloc, self.to_list()?)
    }

    /// A bound of what the events weigh. `None` where none is known below 2^64.
    pub fn weight(&self) -> Option<usize>
        ensures { IfSome result (λ most. weight_of self.now ≤ most) }
    {
        self.weight
    }

    /// How many events there are. No two have one id.
    pub fn count(&self) -> usize
        ensures count { result ≡ length self.now }
        ensures once { AreDistinct self.now }
    {
        self.rows.as_ref().len()
    }

    fn row(&self, place: usize) -> &Rc<PlainEvent>
        requires { place < length self.now }
        ensures { slice_get self.now place ≡ Some result.now.value }
    {
        self.store.event(self.rows.as_ref()[place].at)
    }

    /// The event at this place, from 0.
    pub fn nth(&self, place: usize) -> &PlainEvent
        requires { place < length self.now }
        ensures event { slice_get self.now place ≡ Some result.now }
        ensures found { find_event (id_of result.now) self.now ≡ Some result.now }
    {
        let _count = self.count();
        self.row(place).as_ref()
    }

    /// The id of the event at this place, from 0, without a look at the event.
    pub fn id_at(&self, place: usize) -> AnyId
        requires { place < length self.now }
        ensures { (event : _) × (slice_get self.now place ≡ Some event) × (result ≡ id_of event) }
    {
        let _count = self.count();
        self.rows.as_ref()[place].id
    }

    /// The id of the commit at this place, from 0; none where the event there is no commit. It looks at no event.
    pub fn commit_at(&self, place: usize) -> Option<CommitId>
        requires { place < length self.now }
        ensures { (event : _) × (slice_get self.now place ≡ Some event) × (result ≡ commit_id event) }
    {
        match self.id_at(place) {
            AnyId::Commit(id) => Some(id),
            _ => None,
        }
    }

    /// The parents of the commit at this place, from 0; none where the event there is no commit, at which it doesn't look.
    pub fn parents_at(&self, place: usize) -> &[CommitId]
        requires { place < length self.now }
        ensures { (event : _) × (slice_get self.now place ≡ Some event) × (result.now ≡ event_parents event) }
    {
        match self.id_at(place) {
            AnyId::Commit(_) => self.nth(place).parents(),
            _ => &[],
        }
    }

    /// The operations of the commit at this place, from 0; none where the event there is no commit, at which it doesn't look.
    pub fn ops_at(&self, place: usize) -> &[FileOp]
        requires { place < length self.now }
        ensures { (event : _) × (slice_get self.now place ≡ Some event) × (result.now ≡ event_ops event) }
    {
        match self.id_at(place) {
            AnyId::Commit(_) => self.nth(place).ops(),
            _ => &[],
        }
    }

    /// The event with the number, from 1. `None` exactly where the list has no such number.
    pub fn event_numbered(&self, number: u64) -> Option<&PlainEvent>
        ensures event { option_map (λ event. event.now) result ≡ numbered number self.now }
        ensures found { IfSome result
            (λ event. find_event (id_of event.now) self.now ≡ Some event.now) }
    {
        if number == 0 || number > self.count() as u64 {
            return None;
        }
        Some(self.nth((number - 1) as usize))
    }

    /// The event with the id.
    pub fn event(&self, id: AnyId) -> Option<&PlainEvent>
        ensures { option_map (λ event. event.now) result ≡ find_event id self.now }
    {
        match self.place(id) {
            Some(place) => Some(self.nth(place)),
            None => None,
        }
    }

    /// How many events are before the one with the id.
    pub fn place(&self, id: AnyId) -> Option<usize>
        ensures place { result ≡ place_of id self.now }
        ensures within { IfSome result (λ place. place < length self.now) }
    {
        let place = self.places.as_ref().noted(id);
        if place >= self.count() {
            return None;
        }
        if has_id(&self.rows.as_ref()[place], &id) {
            Some(place)
        } else {
            None
        }
    }

    /// The ids of all tags and resets, found without a look at other events. Others, which are gone, may be among them.
    pub fn tags_and_resets(&self) -> Result<IdList, NoMemory>
        ensures { IfOk result (λ ids. HasPointers ids self.now) }
    {
        let mut ids = IdList::empty(self.alloc);
        // The first place is noted for each id that isn't there, too.
        if self.count() > 0 {
            ids.push(self.nth(0).id())?;
        }
        self.places.as_ref().push_tags(&mut ids)?;
        self.places.as_ref().push_resets(&mut ids)?;
        Ok(ids)
    }

    /// The number of the event with the id, from 1.
    pub fn number_of(&self, id: AnyId) -> Option<usize>
        ensures { result ≡ number_of id self.now }
    {
        let _count = self.count();
        match self.place(id) {
            Some(place) => Some(place + 1),
            None => None,
        }
    }

    /// The id of the event with the number, from 1.
    pub fn id_numbered(&self, number: usize) -> Option<AnyId>
        ensures { result ≡ event_at number self.now }
    {
        match self.event_numbered(number as u64) {
            Some(event) => Some(event.id()),
            None => None,
        }
    }

    /// Puts an event at the end.
    pub(crate) fn append(&mut self, event: PlainEvent) -> Result<(), NoMemory>
        requires { find_event (id_of event) self.old ≡ None }
        ensures ok { OnOk result (self.new ≡ self.old ++ event ∷ []) }
        ensures err { OnErr result (self.new ≡ self.old) }
        ensures adds { AddsOnly (id_of event) self.old self.new }
    {
        let place = self.count();
        let id = event.id();
        let weight = heavier(self.weight, &event);
        let event = Rc::new(self.alloc, event)?;
        note_place(&mut self.places, id, place)?;
        let Row { id, at } = self.store.push(event)?;
        push_row(&mut self.rows, id, at)?;
        self.weight = weight;
        Ok(())
    }

    // The table with an event right after the one with the id.
    fn table_with(&self, id: AnyId, event: PlainEvent) -> Result<EventTable, NoMemory>
        requires there { IsSome (find_event id self.now) }
        requires unknown { find_event (id_of event) self.now ≡ None }
        ensures { IfOk result (λ table. table ≡ put_after id event self.now) }
    {
        let _count = self.count();
        let place = self.place(id).unwrap();
        let weight = heavier(self.weight, &event);
        let event = Rc::new(self.alloc, event)?;
        let mut store = self.store.share()?;
        let row = store.push(event)?;
        let mut rows = self.rows.as_ref().clone()?;
        rows.insert(place + 1, row)?;
        EventTable::of_rows(self.alloc, store, rows, weight)
    }

    /// Puts an event right after the one with the id.
    pub(crate) fn insert_after(&mut self, id: AnyId, event: PlainEvent) -> Result<(), NoMemory>
        requires there { IsSome (find_event id self.old) }
        requires unknown { find_event (id_of event) self.old ≡ None }
        ensures ok { OnOk result (self.new ≡ put_after id event self.old) }
        ensures err { OnErr result (self.new ≡ self.old) }
        ensures adds { AddsOnly (id_of event) self.old self.new }
    {
        *self = self.table_with(id, event)?;
        Ok(())
    }

    /// Puts a value into a field of the event with the id.
    pub(crate) fn set(&mut self, id: AnyId, field: Field) -> Result<(), NoMemory>
        requires { IsSome (find_event id self.old) }
        ensures ok { OnOk result (self.new ≡ changed id (with_field field) self.old) }
        ensures err { OnErr result (self.new ≡ self.old) }
        ensures adds { AddsNone self.old self.new }
    {
        let place = self.place(id).unwrap();
        let old = self.nth(place);
        let event = with_field(self.alloc, old, field)?;
        let others = lighter(self.weight, old);
        let weight = heavier(others, &event);
        let shared = Rc::new(self.alloc, event)?;
        let row = self.store.push(shared)?;
        put_row(&mut self.rows, place, row)?;
        self.weight = weight;
        Ok(())
    }

    /// Takes the event with the id away. The later ones move up, which costs a move of each.
    pub(crate) fn remove(&mut self, id: AnyId) -> Result<(), NoMemory>
        ensures ok { OnOk result (self.new ≡ without id self.old) }
        ensures err { OnErr result (self.new ≡ self.old) }
        ensures adds { AddsNone self.old self.new }
    {
        let _count = self.count();
        *self = self.table_without(&[id])?;
        Ok(())
    }

    // For each place whether the id of the event there is one of these.
    fn listed(&self, ids: &[AnyId]) -> Result<Vec<bool>, NoMemory>
        ensures { IfOk result (λ listed. listed.items ≡ map (λ event. is_listed (id_of event) ids.now) self.now) }
    {
        let mut listed = Vec::new(self.alloc);
        listed.resize(self.count(), false)?;
        for id in ids {
            if let Some(place) = self.place(*id) {
                listed[place] = true;
            }
        }
        Ok(listed)
    }

    // The table without the events with these ids. At those that stay it doesn't look, and up to the first that goes rows
    // and places stay as they are.
    fn table_without(&self, ids: &[AnyId]) -> Result<EventTable, NoMemory>
        ensures { IfOk result (λ table. table ≡ without_all ids.now self.now) }
    {
        let count = self.count();
        let gone = self.listed(ids)?;
        let first = first_flagged(&gone);
        let mut rows = Vec::with_capacity(self.alloc, count)?;
        rows.extend_from_slice(&self.rows.as_ref()[..first])?;
        // The places of events that go may stay.
        let mut places = self.places.as_ref().clone()?;
        let mut weight = self.weight;
        for place in first..count {
            if gone[place] {
                weight = lighter(weight, self.nth(place));
            } else {
                let row = self.rows.as_ref()[place];
                places.note(row.id, rows.len())?;
                rows.push(row)?;
            }
        }
        let rows = Rc::new(self.alloc, rows)?;
        let places = Rc::new(self.alloc, places)?;
        let store = self.store.share()?;
        Ok(EventTable {
            alloc: self.alloc,
            rows,
            store,
            places,
            weight,
        })
    }

    /// Takes away the events with these ids, in one pass.
    pub(crate) fn remove_all(&mut self, ids: &[AnyId]) -> Result<(), NoMemory>
        ensures ok { OnOk result (self.new ≡ without_all ids.now self.old) }
        ensures err { OnErr result (self.new ≡ self.old) }
        ensures adds { AddsNone self.old self.new }
    {
        *self = self.table_without(ids)?;
        Ok(())
    }

    // The table in another order, in which only the rows move.
    fn table_in(&self, order: &[AnyId]) -> Result<EventTable, NoMemory>
        requires { IsOrderOf order.now self.now }
        ensures { IfOk result (λ table. table ≡ in_order order.now self.now) }
    {
        let _count = self.count();
        let mut rows = Vec::with_capacity(self.alloc, order.len())?;
        for id in order {
            if let Some(place) = self.place(*id) {
                rows.push(self.rows.as_ref()[place])?;
            }
        }
        let store = self.store.share()?;
        EventTable::of_rows(self.alloc, store, rows, self.weight)
    }

    /// Puts the events in another order.
    pub(crate) fn set_order(&mut self, order: &[AnyId]) -> Result<(), NoMemory>
        requires { IsOrderOf order.now self.old }
        ensures ok { OnOk result (self.new ≡ in_order order.now self.old) }
        ensures err { OnErr result (self.new ≡ self.old) }
        ensures adds { AddsNone self.old self.new }
    {
        *self = self.table_in(order)?;
        Ok(())
    }
}

fn has_id(row: &Row, id: &AnyId) -> bool
    ensures { result ≡ same_id row.now.id id.now }
{
    row.id == *id
}

// Notes a place; in a copy, where the places have another owner.
fn note_place(places: &mut Rc<Places>, id: AnyId, place: usize) -> Result<(), NoMemory>
    ensures ok { OnOk result (IsNoted id place places.old.value places.new.value) }
    ensures err { OnErr result
        ((other : AnyId) → noted places.new.value other ≡ noted places.old.value other) }
{
    Rc::make_mut(places)?.note(id, place)
}

// The first place that has a flag; the end, where none has.
fn first_flagged(flags: &[bool]) -> usize
    ensures within { result ≤ length flags.now }
    ensures none { (k : _) → k < result → slice_index_or flags.now k false ≡ false }
    ensures flagged { result < length flags.now → slice_index_or flags.now result false ≡ true }
{
    let mut place = 0;
    while place < flags.len() && !flags[place] {
        place += 1;
    }
    place
}

// Puts a row at the end; of a copy, where the rows have another owner.
fn push_row(rows: &mut Rc<Vec<Row>>, id: AnyId, at: usize) -> Result<(), NoMemory>
    ensures ok { OnOk result (rows.new.value.items ≡ rows.old.value.items ++ record { id = id; at = at } ∷ []) }
    ensures err { OnErr result (rows.new.value.items ≡ rows.old.value.items) }
{
    Rc::make_mut(rows)?.push(Row { id, at })?;
    Ok(())
}

// Puts a row in the place of another; in a copy, where the rows have another owner.
fn put_row(rows: &mut Rc<Vec<Row>>, place: usize, row: Row) -> Result<(), NoMemory>
    requires { place < length rows.old.value.items }
    ensures ok { OnOk result (rows.new.value.items ≡ slice_set rows.old.value.items place row) }
    ensures err { OnErr result (rows.new.value.items ≡ rows.old.value.items) }
{
    let rows = Rc::make_mut(rows)?;
    rows[place] = row;
    Ok(())
}
