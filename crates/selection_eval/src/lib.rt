//! What selections stand for: exact lists of events.
#![tactic(auto)]

mod choosing;
mod dates;
mod days;
mod evaluation;
mod items;
mod laws;
mod names;
mod paths;
mod searching;
mod spots;
mod tags;
mod testing;
mod trees;
mod worked;

pub use evaluation::eval;
pub use laws::{
    a_size_is_denied_or_seen, selections_are_live, selections_are_without_repeats,
    sound_histories_are_such,
};
pub use names::Names;
pub use worked::worked_selections;
