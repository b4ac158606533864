//! What a command speaks of.
ghost use Rattle.std.specs.Prelude.{◌≡◌};
ghost use Rattle.history_machine.specs.Sessions.{of_events, of_paths};

use path_expunge::Matcher;
use plain_model::{AnyId, IdList, Items};
use std::alloc::Global;
use std::marker::Model;

/// The events of which a command speaks, and what matches the paths of which it speaks. (own)
#[derive(Drop)]
pub struct Subject {
    ids: IdList,
    matchers: Items<Matcher>,
}

impl Model for Subject {
    ghost use Rattle.history_machine.specs.Sessions.{Subject};

    ghost Value = { Subject };

    ghost view = { λ s. record { ids = s.ids; matchers = s.matchers } };
}

impl Subject {
    /// Events alone.
    pub fn of_events(alloc: Global, ids: IdList) -> Subject
        ensures { result ≡ of_events ids }
    {
        Subject {
            ids,
            matchers: Items::empty(alloc),
        }
    }

    /// Paths alone.
    pub fn of_paths(alloc: Global, matchers: Items<Matcher>) -> Subject
        ensures { result ≡ of_paths matchers }
    {
        Subject {
            ids: Items::empty(alloc),
            matchers,
        }
    }

    pub fn ids(&self) -> &[AnyId]
        ensures { result.now ≡ self.now.ids }
    {
        self.ids.as_slice()
    }

    pub fn matchers(&self) -> &[Matcher]
        ensures { result.now ≡ self.now.matchers }
    {
        self.matchers.as_slice()
    }
}
