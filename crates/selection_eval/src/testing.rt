//! Tests of events, and the events that pass one.
ghost use Rattle.std.specs.Prelude.{◌≡◌, ◌<◌, bytes_eq, length, slice_get, Some, IfOk};
ghost use Rattle.event_sets.specs.Sets.{passing};
ghost use Rattle.plain_model.specs.declared.event.PlainEvent.{PlainEvent};
ghost use Rattle.history_laws.specs.Finding.{IsDated};

use event_arena::Events;
use event_sets::EventSet;
use plain_model::{NoMemory, PlainEvent};
use std::alloc::Global;

/// The same bytes.
pub fn are_equal(bytes: &[u8], others: &[u8]) -> bool
    ensures { result ≡ bytes_eq bytes.now others.now }
{
    bytes == others
}

/// A test of events. It may take memory, and may keep what it takes.
pub trait EventTest {
    ghost use Rattle.std.specs.Prelude.{Bool};
    ghost use Rattle.plain_model.specs.declared.event.PlainEvent.{PlainEvent};

    /// Which events pass.
    ghost test: { Self → PlainEvent → Bool };

    /// Whether an event passes.
    fn passes(&mut self, event: &PlainEvent) -> Result<bool, NoMemory>
        requires { IsDated event.now }
        ensures passes { IfOk result (λ passes. passes ≡ test self.old event.now) }
        ensures same { test self.new ≡ test self.old };
}

/// The event at a place. Its dates are within their limit, since the history is sound.
#[tactic(auto, using(crate::proofs::Found::dated_at))]
pub fn event_at(events: &Events, place: usize) -> &PlainEvent
    requires { place < length events.now.list }
    ensures event { slice_get events.now.list place ≡ Some result.now }
    ensures dated { IsDated result.now }
{
    let _count = events.count();
    events.nth(place)
}

/// The events that pass a test, ascending.
pub fn passing<'e, T: EventTest>(
    alloc: Global,
    events: &'e Events,
    test: &mut T,
) -> Result<EventSet<'e>, NoMemory>
    ensures events { IfOk result (λ set. set.events ≡ events.now.list) }
    ensures ids { IfOk result (λ set. set.ids ≡ passing (T.test test.old) events.now.list) }
    ensures same { T.test test.new ≡ T.test test.old }
{
    let mut bits = Vec::with_capacity(alloc, events.count())?;
    for place in 0..events.count() {
        bits.push(test.passes(event_at(events, place))?)?;
    }
    Ok(EventSet::of_bits(events, bits))
}
