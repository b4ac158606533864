//! A history that is joined to another.
ghost use Rattle.std.specs.Prelude.{◌≡◌};

use event_arena::Events;
use std::marker::Model;

/// A loaded history under the name of its repository.
#[derive(Drop)]
pub struct Part<'a> {
    name: &'a [u8],
    events: &'a Events,
}

impl<'a> Model for Part<'a> {
    ghost use Rattle.graft_laws.specs.Unite.{Part};

    ghost Value = { Part };

    ghost view = { λ p. record { name = p.name.now; events = p.events.now.list } };
}

impl<'a> Part<'a> {
    /// A history under a name.
    pub fn new(name: &'a [u8], events: &'a Events) -> Part<'a>
        ensures name { result.name ≡ name.now }
        ensures events { result.events ≡ events.now.list }
    {
        Part { name, events }
    }

    /// The name.
    pub fn name(&self) -> &[u8]
        ensures { result.now ≡ self.now.name }
    {
        self.name
    }

    /// The history. Every history is sound.
    pub fn events(&self) -> &Events
        ensures { result.now.list ≡ self.now.events }
    {
        self.events
    }
}
