//! Histories are written as streams.
#![tactic(auto)]

mod events;
mod fields;
mod marks;
mod operations;
mod stream;
mod writer;

pub use stream::Stream;
pub use writer::write_stream;
