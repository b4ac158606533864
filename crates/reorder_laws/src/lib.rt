//! What `reorder` makes of a history, and why it is refused: definitions, and laws of them. Each function's contract is a
//! law, or an example that the checker computes.
#![tactic(auto)]

mod examples;
mod laws;

pub use examples::{
    a_gap_is_no_line, a_source_is_missing, another_order_changes_places, one_commit_is_too_few,
};
pub use laws::{
    a_line_is_put_in_order, a_line_is_settled_in_any_order, a_reorder_is_an_edit,
    a_reorder_keeps_soundness, a_reorder_keeps_the_ids, a_reorder_keeps_the_limits,
    a_reorder_replays_operations, nothing_is_added,
};
