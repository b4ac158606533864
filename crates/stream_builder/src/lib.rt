//! The events of a stream are built while its lines are read.
#![tactic(auto)]

mod builder;
mod closing;
mod draft_trees;
mod fault;
mod known;
mod line_texts;
mod open;
mod operations;
mod references;
mod signed_reader;
mod trees;

pub use builder::Builder;
pub use fault::LineFault;
