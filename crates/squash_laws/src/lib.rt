//! What `squash` and `delete` make of a history, and why they are refused: definitions, and laws of them. Each function's
//! contract is a law, or an example that the checker computes.
#![tactic(auto)]

mod examples;
mod laws;

pub use examples::{
    a_fork_takes_twice, a_root_goes, a_source_is_missing, an_empty_set_changes_nothing,
    an_only_child_is_pushed_back, empty_comments_are_left_out, tags_move,
};
pub use laws::{
    a_deletion_replays_what_remains, a_push_back_gives_the_last_tree, a_push_forward_keeps_trees,
    a_squash_comes_to_its_end, a_squash_is_an_edit, a_squash_keeps_soundness,
    a_squash_keeps_the_limits, a_squash_removes_its_commits, no_other_event_leaves,
    nothing_is_added, parents_give_way_to_their_parents, what_stays_is_as_it_was,
};
