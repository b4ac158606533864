//! Laws over lists of commands and over runs: each commit has the files of the one that it was when its repository came.
#![tactic(auto)]

mod examples;
mod laws;

pub use examples::numbers_are_followed_back;
pub use laws::{
    commits_keep_their_trees_through_a_run, commits_keep_their_trees_through_commands,
    every_commit_stays_through_a_run, every_commit_stays_through_commands,
    names_and_ids_stay_through_a_run, names_and_ids_stay_through_commands, one_command_keeps_trees,
    what_is_there_is_itself,
};
