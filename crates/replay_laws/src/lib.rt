//! A second meaning of streams, by plain maps, and the law that it shows what the history shows.
#![tactic(auto)]

mod laws;
mod worked;

pub use laws::replay_shows_the_history;
pub use worked::{commits_and_branches, files_of_commits, marks_at_the_end};
