//! Sets of events.
ghost use Rattle.std.specs.Prelude.{
  ◌≡◌,
  ◌≢◌,
  ◌∷◌,
  [],
  length,
  map,
  option_to_list,
  Bool,
  List,
  IfOk,
  IsSome,
  OnOk,
};
ghost use Rattle.std.specs.Bool.{OnFalse, OnTrue};
ghost use Rattle.event_sets.specs.Bits.{bits_of, picks};
ghost use Rattle.event_sets.specs.Once.{AreLive};
ghost use Rattle.event_sets.specs.Sets.{common, live, numbered, passing, range, rest, union};
ghost use Rattle.plain_model.specs.declared.event.PlainEvent.{PlainEvent};
ghost use Rattle.plain_model.specs.Lookups.{find_event, find_mark, id_of, is_listed};

use crate::bits::{bits_of, both, is_any_set, is_set, others, picked};
use event_arena::Events;
use plain_model::{AnyId, IdList, Mark, NoMemory};
use std::alloc::Global;
use std::marker::Model;

/// Some events of a history. Contracts see the events of the history, and the list of ids. It keeps a
/// bit for each place of the history, and an order only where that isn't the order of the history.
#[derive(Drop)]
pub struct EventSet<'e> {
    events: &'e Events,
    bits: Vec<bool>,
    order: Option<IdList>,
}

impl<'e> Model for EventSet<'e> {
    ghost use Rattle.event_sets.specs.Subsets.{Subset};

    ghost Value = { Subset };

    ghost use Rattle.event_sets.specs.Tied.{IsTied, subset};

    ghost view = { subset };

    ghost invariant = { IsTied };
}

impl<'e> EventSet<'e> {
    /// The events at whose places a bit is set, ascending. A test that is asked of each event in turn
    /// gives the events that pass it.
    pub fn of_bits(events: &'e Events, bits: Vec<bool>) -> EventSet<'e>
        requires { length bits.items ≡ length events.now.list }
        ensures events { result.events ≡ events.now.list }
        ensures ids { result.ids ≡ picks bits.items events.now.list }
        ensures passing { (test : PlainEvent → Bool) → bits.items ≡ map test events.now.list →
            result.ids ≡ passing test events.now.list }
    {
        let _count = events.count();
        EventSet {
            events,
            bits,
            order: None,
        }
    }

    // The events of a list, in its order.
    fn of_order(alloc: Global, events: &'e Events, order: IdList) -> Result<EventSet<'e>, NoMemory>
        requires { AreLive events.now.list order }
        ensures events { IfOk result (λ set. set.events ≡ events.now.list) }
        ensures ids { IfOk result (λ set. set.ids ≡ order) }
    {
        let bits = bits_of(alloc, events, order.as_slice())?;
        Ok(EventSet {
            events,
            bits,
            order: Some(order),
        })
    }

    /// No event.
    pub fn none(alloc: Global, events: &'e Events) -> Result<EventSet<'e>, NoMemory>
        ensures events { IfOk result (λ set. set.events ≡ events.now.list) }
        ensures ids { IfOk result (λ set. set.ids ≡ []) }
    {
        EventSet::of_order(alloc, events, IdList::empty(alloc))
    }

    /// All events, ascending.
    pub fn all(alloc: Global, events: &'e Events) -> Result<EventSet<'e>, NoMemory>
        ensures events { IfOk result (λ set. set.events ≡ events.now.list) }
        ensures ids { IfOk result (λ set. set.ids ≡ map id_of events.now.list) }
    {
        let bits = vec![in alloc; true; events.count()]?;
        Ok(EventSet::of_bits(events, bits))
    }

    /// The events of a list that are still there, in the order of the list. What is in it twice stays so.
    pub fn listed(
        alloc: Global,
        events: &'e Events,
        ids: &[AnyId],
    ) -> Result<EventSet<'e>, NoMemory>
        ensures events { IfOk result (λ set. set.events ≡ events.now.list) }
        ensures ids { IfOk result (λ set. set.ids ≡ live events.now.list ids.now) }
    {
        let mut order = IdList::new(alloc)?;
        for id in ids {
            if events.place(*id).is_some() {
                order.push(*id)?;
            }
        }
        EventSet::of_order(alloc, events, order)
    }

    /// One event.
    pub fn one(alloc: Global, events: &'e Events, id: AnyId) -> Result<EventSet<'e>, NoMemory>
        requires { IsSome (find_event id events.now.list) }
        ensures events { IfOk result (λ set. set.events ≡ events.now.list) }
        ensures ids { IfOk result (λ set. set.ids ≡ id ∷ []) }
    {
        let mut order = IdList::new(alloc)?;
        order.push(id)?;
        EventSet::of_order(alloc, events, order)
    }

    /// The event of a number, from 1, if there is one.
    pub fn numbered(
        alloc: Global,
        events: &'e Events,
        number: u64,
    ) -> Result<EventSet<'e>, NoMemory>
        ensures events { IfOk result (λ set. set.events ≡ events.now.list) }
        ensures ids { IfOk result (λ set. set.ids ≡ numbered events.now.list number) }
    {
        match events.event_numbered(number) {
            Some(event) => EventSet::one(alloc, events, event.id()),
            None => EventSet::none(alloc, events),
        }
    }

    /// The event with a mark, if there is one.
    pub fn marked(alloc: Global, events: &'e Events, mark: Mark) -> Result<EventSet<'e>, NoMemory>
        ensures events { IfOk result (λ set. set.events ≡ events.now.list) }
        ensures ids { IfOk result (λ set. set.ids
            ≡ option_to_list (find_mark mark events.now.list)) }
    {
        match events.by_mark(mark) {
            Some(id) => EventSet::one(alloc, events, id),
            None => EventSet::none(alloc, events),
        }
    }

    /// The events from one number to another, ascending.
    pub fn range(
        alloc: Global,
        events: &'e Events,
        first: usize,
        last: usize,
    ) -> Result<EventSet<'e>, NoMemory>
        ensures events { IfOk result (λ set. set.events ≡ events.now.list) }
        ensures ids { IfOk result (λ set. set.ids ≡ range events.now.list first last) }
    {
        let mut bits = Vec::with_capacity(alloc, events.count())?;
        for place in 0..events.count() {
            bits.push((first <= place + 1) & (place + 1 <= last))?;
        }
        Ok(EventSet::of_bits(events, bits))
    }

    /// The history.
    pub fn events(&self) -> &'e Events
        ensures { result.now.list ≡ self.now.events }
    {
        self.events
    }

    /// For each place whether the event there is in the set.
    pub fn bits(&self) -> &[bool]
        ensures count { length result.now ≡ length self.now.events }
        ensures tied { result.now ≡ bits_of self.now.events self.now.ids }
        ensures live { AreLive self.now.events self.now.ids }
    {
        self.bits.as_slice()
    }

    /// Whether an event is in the set.
    pub fn holds(&self, id: AnyId) -> bool
        ensures { result ≡ is_listed id self.now.ids }
    {
        is_set(self.events(), id, self.bits())
    }

    /// Whether no event is in it.
    pub fn is_empty(&self) -> bool
        ensures empty { OnTrue result (self.now.ids ≡ []) }
        ensures filled { OnFalse result (self.now.ids ≢ []) }
    {
        let bits = self.bits();
        match &self.order {
            None => !is_any_set(bits),
            Some(order) => order.as_slice().is_empty(),
        }
    }

    /// Its list.
    pub fn ids(&self, alloc: Global) -> Result<IdList, NoMemory>
        ensures { IfOk result (λ ids. ids ≡ self.now.ids) }
    {
        match &self.order {
            None => picked(alloc, self.events, self.bits.as_slice()),
            Some(order) => order.copy(),
        }
    }

    /// Its list, which takes memory only where it has no order of its own.
    pub fn into_ids(self, alloc: Global) -> Result<IdList, NoMemory>
        ensures { IfOk result (λ ids. ids ≡ self.entry.ids) }
    {
        let EventSet {
            events,
            bits,
            order,
        } = self;
        match order {
            None => picked(alloc, events, bits.as_slice()),
            Some(order) => Ok(order),
        }
    }

    // The list of this set, and then those of some ids that aren't in it.
    fn joined(&self, alloc: Global, ids: &[AnyId]) -> Result<IdList, NoMemory>
        ensures { IfOk result (λ joined. joined ≡ union self.now.ids ids.now) }
    {
        let mut joined = self.ids(alloc)?;
        for id in ids {
            if !self.holds(*id) {
                joined.push(*id)?;
            }
        }
        Ok(joined)
    }

    /// `a|b`: the events of this set, and then what the right one has besides.
    pub fn union(&self, alloc: Global, right: &EventSet<'e>) -> Result<EventSet<'e>, NoMemory>
        requires { right.now.events ≡ self.now.events }
        ensures events { IfOk result (λ set. set.events ≡ self.now.events) }
        ensures ids { IfOk result (λ set. set.ids ≡ union self.now.ids right.now.ids) }
    {
        let ids = right.ids(alloc)?;
        let order = self.joined(alloc, ids.as_slice())?;
        let _bits = self.bits();
        let _right_bits = right.bits();
        EventSet::of_order(alloc, self.events(), order)
    }

    // Those of some ids that are in this set, in their order.
    fn kept(&self, alloc: Global, ids: &[AnyId]) -> Result<IdList, NoMemory>
        ensures { IfOk result (λ kept. kept ≡ common ids.now self.now.ids) }
    {
        let mut kept = IdList::new(alloc)?;
        for id in ids {
            if self.holds(*id) {
                kept.push(*id)?;
            }
        }
        Ok(kept)
    }

    /// `a&b`: the events of this set that the right one has too, in the order of this one.
    pub fn common(&self, alloc: Global, right: &EventSet<'e>) -> Result<EventSet<'e>, NoMemory>
        requires { right.now.events ≡ self.now.events }
        ensures events { IfOk result (λ set. set.events ≡ self.now.events) }
        ensures ids { IfOk result (λ set. set.ids ≡ common self.now.ids right.now.ids) }
    {
        match &self.order {
            None => {
                let bits = both(alloc, self.bits.as_slice(), right.bits())?;
                Ok(EventSet::of_bits(self.events, bits))
            }
            Some(order) => {
                let kept = right.kept(alloc, order.as_slice())?;
                let _right_bits = right.bits();
                EventSet::of_order(alloc, self.events, kept)
            }
        }
    }

    /// `~a`: all other events, ascending.
    pub fn rest(&self, alloc: Global) -> Result<EventSet<'e>, NoMemory>
        ensures events { IfOk result (λ set. set.events ≡ self.now.events) }
        ensures ids { IfOk result (λ set. set.ids ≡ rest self.now.events self.now.ids) }
    {
        let bits = others(alloc, self.bits())?;
        Ok(EventSet::of_bits(self.events(), bits))
    }
}
