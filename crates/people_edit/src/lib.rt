//! The plans of commands that change fields of events: who did something, when, and a comment, a branch or a name. Read in this
//! order: `lines` (of an authors file), `table` (people by emails), `signing` (who signs an event of a plan), `people`, `dates`,
//! `values` (the three plans).
#![tactic(auto)]

mod dates;
mod lines;
mod people;
mod signing;
mod table;
mod values;

pub use dates::time_offset;
pub use people::authors;
pub use values::set_field;
