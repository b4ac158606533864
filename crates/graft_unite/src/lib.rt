//! The plan of a graft, and the history that a `unite` makes. Read in this order: `part`; `names`, `used` and `clashes` (names that
//! may not be given); `numbers`, `marking`, `renaming`, `joining` and `appending` (a part behind a plan); `limits` (what is looked
//! for in the list behind); `grafting`; `ages` and `dates` (which part comes next, and the commits of roots); `further` (one part
//! more); `uniting`.
#![tactic(auto)]

mod ages;
mod appending;
mod clashes;
mod dates;
mod further;
mod grafting;
mod joining;
mod limits;
mod marking;
mod names;
mod numbers;
mod part;
mod renaming;
mod uniting;
mod used;

pub use grafting::graft;
pub use part::Part;
pub use uniting::{United, unite};
