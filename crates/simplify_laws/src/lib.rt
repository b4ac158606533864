//! What `simplify` makes of a history, and why it is refused: definitions, and laws of them. Each function's contract is
//! a law, or an example that the checker computes.
#![tactic(auto)]

mod examples;
mod laws;

pub use examples::{
    a_blob_goes_with_its_last_operation, a_deleteall_drops_all_before_it, a_drop_may_need_room,
    a_file_is_put_once, a_put_before_a_deletion_stays, an_operation_before_a_rename_stays,
};
pub use laws::{
    a_simplify_is_an_edit, blobs_go_where_nothing_names_them, it_goes_by_either_list,
    it_is_done_where_operations_can_be, nothing_is_added, only_the_number_of_paths_is_refused,
    selected_commits_are_simpler, simplifying_again_changes_nothing, simplifying_keeps_soundness,
    simplifying_keeps_the_ids, simplifying_keeps_the_limits, simplifying_keeps_trees,
    what_is_dropped_does_not_show,
};
