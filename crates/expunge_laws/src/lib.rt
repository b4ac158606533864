//! What `expunge` makes of a history, and what a push forward makes of one that another edit has changed: definitions,
//! and laws of them. Each function's contract is a law, or an example that the checker computes.
#![tactic(auto)]

mod apart;
mod examples;
mod forward;
mod laws;
mod operations;

pub use apart::what_names_matched_paths_goes;
pub use examples::{
    a_merge_begins_without_files, a_tag_goes_to_the_child, an_expunge_of_nothing_changes_nothing,
    an_only_branch_leaves, folders_and_copies_are_written_out, merges_stay,
    what_was_carried_out_stays,
};
pub use forward::{
    a_push_forward_adds_nothing, a_push_forward_finishes_an_edit, a_squash_pushes_forward,
    operations_and_parents_alone_refuse_a_push_forward,
};
pub use laws::{
    an_expunge_adds_nothing, an_expunge_again_changes_nothing, an_expunge_comes_to_its_end,
    an_expunge_is_an_edit, an_expunge_keeps_soundness, an_expunge_keeps_the_limits,
    an_expunge_restricts_trees, blobs_leave_that_nothing_names, emptied_commits_give_way_in_line,
    emptied_commits_leave, no_matched_path_is_left, no_other_event_leaves,
    operations_alone_refuse_an_expunge, parents_give_way_to_what_stays,
    what_no_matched_path_touches_stays, what_stays_is_as_it_was,
};
pub use operations::{
    copies_and_renames_change_what_they_move, operations_are_replaced_in_turn,
    what_gives_way_is_on_one_side, what_is_written_out_is_near,
};
