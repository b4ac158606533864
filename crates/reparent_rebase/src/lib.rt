//! Plans that give one commit other parents or other operations. Read in this order: `judging`
//! (limits, trees), `merging`, `removing`, `adding`, `written` (a tree as operations), `reparenting`.
#![tactic(auto)]

mod adding;
mod judging;
mod merging;
mod removing;
mod reparenting;
mod written;

pub use adding::add_op;
pub use merging::{merge, unmerge};
pub use removing::remove_op;
pub use reparenting::{have_same_first, reparent};
pub use written::written_out;
