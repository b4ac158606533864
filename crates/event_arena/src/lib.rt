//! The event graph under stable ids: histories whose events are found by id, number and mark, and plans that change them.
//! Read in this order: `places`, `weight`, `store`, `table`, `links`, `index` (the parts), `touched`, `kept_marks`, `shifting`, `relinking`,
//! `mending` (how indices follow a plan), `events` (a history), `field`, `plan` (a change of one).
#![tactic(auto)]

mod events;
mod field;
mod index;
mod kept_marks;
mod links;
mod measure;
mod mending;
mod places;
mod plan;
mod relinking;
mod shifting;
mod store;
mod table;
mod touched;
mod weight;

pub use events::Events;
pub use field::Role;
pub use links::Children;
pub use plan::Plan;
pub use table::EventTable;
