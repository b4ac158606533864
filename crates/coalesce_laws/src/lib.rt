//! What `coalesce` makes of a history: definitions, and laws of them. Each function's contract is a law, or an example
//! that the checker computes.
#![tactic(auto)]

mod examples;
mod laws;

pub use examples::{
    a_chain_becomes_its_last_commit, a_fork_is_not_joined, a_merge_is_not_joined,
    a_repeated_comment_is_joined, a_second_time_may_join_more,
};
pub use laws::{
    a_coalesce_is_an_edit, a_coalescing_comes_to_its_end, a_coalescing_keeps_soundness,
    a_coalescing_keeps_the_limits, a_coalescing_keeps_trees, an_only_child_decides,
    commits_take_over_the_joined_ones, nothing_changes_where_none_is_joined, nothing_is_added,
    only_joined_commits_go, operations_only_move, what_stays_is_as_it_was,
};
