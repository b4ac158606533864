//! A stream is read to its history, or to the fault of its first line that is refused, at once or in pieces.
#![tactic(auto)]

mod fault;
mod first_bytes;
mod place;
mod reader;

pub use fault::ReadFault;
pub use place::Place;
pub use reader::{StreamReader, read_stream};
