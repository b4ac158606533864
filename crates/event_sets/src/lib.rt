//! Sets of a history's events, and what selections make of them. Read in this order: `bits`, `set`,
//! then `kinds`, `near`, `functions`.
#![tactic(auto)]

mod bits;
mod functions;
mod kinds;
mod laws;
mod near;
mod set;
mod worked;

pub use laws::{bits_stand_for_lists, sets_are_live, sets_are_without_repeats};
pub use set::EventSet;
pub use worked::worked_sets;
