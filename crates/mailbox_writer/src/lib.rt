//! Commits and tags of a history are written as a box of messages, so that their comments can be edited as one text.
#![tactic(auto)]

mod fields;
mod writing;

pub use writing::msgout;
