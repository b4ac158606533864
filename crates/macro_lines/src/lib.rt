//! Macros, and the lines that a `do` puts in its place.
#![tactic(auto)]

mod called;
mod line;
mod macros;
mod places;
mod running;

pub use called::{CalledLine, CalledLines};
pub use macros::Macros;
