//! What `split` makes of a history, and why it is refused: definitions, and laws of them. Each function's contract is a law, or
//! an example that the checker computes.
#![tactic(auto)]

mod examples;
mod laws;

pub use examples::{a_commit_becomes_two, a_split_is_refused};
pub use laws::{
    a_split_adds_one_id, a_split_is_an_edit, a_split_is_of_one_commit, a_split_keeps_soundness,
    a_split_keeps_the_limits, a_split_keeps_trees, a_split_makes_two_halves,
};
