//! The law that what is written of a history is read again as that history.
#![tactic(auto)]

mod laws;
mod worked;

pub use laws::what_is_written_is_read_again;
pub use worked::two_branches_are_written_and_read;
