//! The lists of events whose commits are walked.
ghost use Rattle.std.specs.Prelude.{◌≡◌, length, option_map};
ghost use Rattle.history_laws.specs.Once.{AreDistinct};
ghost use Rattle.plain_model.specs.Lookups.{find_event};
ghost use Rattle.manifest_cache.specs.Listed.{events_of};

use event_arena::{Events, Plan};
use plain_model::{AnyId, PlainEvent};

/// A history, or the list of a plan before or after it.
#[derive(Clone, Copy)]
pub enum Listed<'a> {
    History(&'a Events),
    Before(&'a Plan),
    After(&'a Plan),
}

impl Listed<'_> {
    /// The event with the id.
    pub fn event(&self, id: AnyId) -> Option<&PlainEvent>
        ensures { option_map (λ event. event.now) result ≡ find_event id (events_of self.now) }
    {
        match self {
            Listed::History(events) => events.event(id),
            Listed::Before(plan) => plan.old_event(id),
            Listed::After(plan) => plan.event(id),
        }
    }

    /// How many events there are. None is there twice.
    pub fn count(&self) -> usize
        ensures count { result ≡ length (events_of self.now) }
        ensures once { AreDistinct (events_of self.now) }
    {
        match self {
            Listed::History(events) => events.count(),
            Listed::Before(plan) => plan.old_count(),
            Listed::After(plan) => plan.count(),
        }
    }
}
