//! What `reparent`, `merge`, `unmerge`, `add` and `remove` make of a history, and why they are refused: definitions,
//! and laws of them. Each function's contract is a law, or an example that the checker computes.
#![tactic(auto)]

mod examples;
mod laws;
mod removal;

pub use examples::{
    a_blob_comes_and_goes_with_its_operation, a_change_is_refused, a_commit_gets_other_operations,
    a_commit_gets_other_parents,
};
pub use laws::{
    a_blob_goes_with_its_last_operation, a_change_is_an_edit, a_change_keeps_soundness,
    a_change_keeps_the_ids, a_change_keeps_the_limits, a_cycle_is_a_path_of_parents,
    a_merge_goes_by_event_numbers, a_merge_is_of_two_commits,
    a_merge_with_a_parent_changes_nothing, a_rebase_replays_operations,
    a_reparent_has_a_last_commit, a_tree_is_written_out, an_operation_is_of_one_commit,
    nothing_is_added, one_commit_is_changed, other_operations_are_replayed,
    other_parents_keep_trees, settling_comes_to_its_end,
};
pub use removal::Removal;
