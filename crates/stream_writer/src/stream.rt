//! The stream of a history, as what can be sent.
ghost use Rattle.std.specs.Prelude.{◌≡◌};
ghost use Rattle.plain_model.specs.Text.{text};

use crate::writer::write_stream;
use event_arena::Events;
use std::alloc::Global;
use std::marker::Model;
use surgeon_store::{Output, Sink, WriteEnd};

/// The stream of a history. It is seen as its bytes, which are made while they are sent. (own)
#[derive(Drop)]
pub struct Stream<'a> {
    alloc: Global,
    events: &'a Events,
}

impl<'a> Model for Stream<'a> {
    ghost use Rattle.plain_model.specs.Paths.{Bytes};
    ghost use Rattle.plain_model.specs.Text.{text};

    ghost Value = { Bytes };

    ghost view = { λ s. text s.events.now.list };
}

impl<'a> Stream<'a> {
    pub fn of(alloc: Global, events: &'a Events) -> Stream<'a>
        ensures { result ≡ text events.now.list }
    {
        Stream { alloc, events }
    }
}

impl<'a> Output for Stream<'a> {
    ghost bytes = { λ stream. stream };

    fn send<W: Sink>(&self, sink: &mut W) -> Result<(), WriteEnd> {
        write_stream(self.alloc, self.events, sink)
    }
}
