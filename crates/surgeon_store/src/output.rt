//! What is sent to a sink, whole or in pieces.
ghost use Rattle.std.specs.Prelude.{◌≡◌, ◌≤◌, OnOk, IsErrOf};
ghost use Rattle.plain_model.specs.Counts.{Rose};
ghost use Rattle.plain_model.specs.Paths.{Bytes};
ghost use Rattle.surgeon_store.specs.Outside.{Puts, PutsSome};

use crate::outside::Sink;
use crate::writing::{WriteEnd, write_all};
use plain_model::Text;

/// Bytes that a call of their own sends. They need not be in memory all at once. (own)
pub trait Output {
    ghost bytes: { Self → Bytes };

    /// Sends all of the bytes, or after a fault or out of memory a first part of them.
    fn send<W: Sink>(&self, sink: &mut W) -> Result<(), WriteEnd>
        ensures ok { OnOk result (Puts (W.state sink.old) (bytes self.now) (W.state sink.new)) }
        ensures part { PutsSome (W.state sink.old) (bytes self.now) (W.state sink.new) }
        ensures later { (W.state sink.old).faults ≤ (W.state sink.new).faults }
        ensures failed { IsErrOf result WriteEnd.SinkFault
            → Rose (W.state sink.old).faults (W.state sink.new).faults }
        ensures quiet { OnOk result ((W.state sink.new).faults ≡ (W.state sink.old).faults) }
        ensures around { (W.state sink.new).around ≡ (W.state sink.old).around };
}

impl Output for Text {
    ghost bytes = { λ text. text };

    fn send<W: Sink>(&self, sink: &mut W) -> Result<(), WriteEnd> {
        write_all(sink, self.as_slice())
    }
}
