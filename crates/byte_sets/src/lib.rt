//! Sets of names and paths.
#![tactic(auto)]

mod set;

pub use set::ByteSet;
