//! The file that a store writes, as a sink.
ghost use Rattle.std.specs.Prelude.{◌≡◌, IsSome};
ghost use Rattle.surgeon_store.specs.Outside.{sink_of};

use crate::outside::{Sink, Store, WriteFault};

/// The file that a store has begun to write, as a sink: its bytes are written, and all else of the store,
/// but the count of what went wrong in writing, is around it.
#[derive(Drop)]
pub struct StoreSink<'a, S: Store> {
    store: &'a mut S,
    ghost begun: { IsSome (S.state store.now).writing },
}

impl<'a, S: Store> StoreSink<'a, S> {
    pub fn new(store: &'a mut S) -> StoreSink<'a, S>
        requires { IsSome (S.state store.old).writing }
        ensures same { result.store.ghost_name ≡ store.entry.ghost_name }
        ensures value { result.store.now ≡ store.old }
    {
        StoreSink { store }
    }
}

impl<'a, S: Store> Sink for StoreSink<'a, S> {
    ghost state = { λ sink. sink_of sink.store.ghost_name (S.state sink.store.now) };

    fn write(&mut self, piece: &[u8]) -> Result<usize, WriteFault> {
        self.store.write(piece)
    }
}
