//! All of some bytes into a sink.
ghost use Rattle.std.specs.Prelude.{◌≡◌, ◌≤◌, OnOk, IsErrOf};
ghost use Rattle.plain_model.specs.Counts.{Rose};
ghost use Rattle.surgeon_store.specs.Outside.{Puts, PutsSome};
ghost use Rattle.surgeon_store.specs.declared.writing.WriteEnd.TheVariants.{Memory};

use crate::outside::{Sink, WriteFault};
use plain_model::NoMemory;

/// Why not all bytes are written.
#[derive(Clone, Copy, Debug, PartialEq, Eq)]
pub enum WriteEnd {
    SinkFault,
    Memory,
}

impl From<NoMemory> for WriteEnd {
    ghost from_gives = { λ _ end. end ≡ Memory };

    fn from(_error: NoMemory) -> WriteEnd {
        WriteEnd::Memory
    }
}

/// Writes all of the bytes, or after a fault a first part of them.
pub fn write_all<W: Sink>(sink: &mut W, bytes: &[u8]) -> Result<(), WriteEnd>
    ensures ok { OnOk result (Puts (W.state sink.old) bytes.now (W.state sink.new)) }
    ensures part { PutsSome (W.state sink.old) bytes.now (W.state sink.new) }
    ensures later { (W.state sink.old).faults ≤ (W.state sink.new).faults }
    ensures failed { IsErrOf result WriteEnd.SinkFault
        → Rose (W.state sink.old).faults (W.state sink.new).faults }
    ensures quiet { OnOk result ((W.state sink.new).faults ≡ (W.state sink.old).faults) }
    ensures around { (W.state sink.new).around ≡ (W.state sink.old).around }
{
    let mut at = 0;
    // Each write takes a byte or more, so there are no more of them than bytes.
    for _ in 0..bytes.len() {
        if at == bytes.len() {
            break;
        }
        match sink.write(&bytes[at..]) {
            Ok(count) => at += count,
            Err(WriteFault::Failed) => return Err(WriteEnd::SinkFault),
            Err(WriteFault::Memory) => return Err(WriteEnd::Memory),
        }
    }
    Ok(())
}
