//! Walks over the event graph: ancestry, the settled order of a plan, and what removed parents expand to; and flags for the
//! events of a set.
#![tactic(auto)]

mod ancestry;
mod children;
mod expansion;
mod flags;
mod referents;
mod settling;
mod table;
mod waiting;

pub use ancestry::{Scratch, ancestors, descendants, is_ancestor};
pub use children::children_of_all;
pub use expansion::{ParentChanges, expand_parents, parent_changes};
pub use flags::flags_of;
pub use settling::{is_ready_at, settle};
