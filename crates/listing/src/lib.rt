//! Lists of a history as text: its commits and tags, its events of every kind, its names.
#![tactic(auto)]

mod events;
mod fields;
mod finding;
mod lists;
mod stamps;
mod summaries;
mod trees;
mod worked;

pub use fields::{first_line, push_mark};
pub use finding::{all, mark_of};
pub use lists::{index, list, names};
pub use stamps::stamp;
pub use summaries::{resolve, summary};
pub use trees::manifest;
pub use worked::worked_lists;
