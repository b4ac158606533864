//! What `graft` and `unite` make of histories, and why they are refused: definitions, and laws of them. Each function's
//! contract is a law, or an example that the checker computes.
#![tactic(auto)]

mod examples;
mod laws;

pub use examples::{
    a_graft_is_refused, a_history_is_grafted, a_unite_is_refused, histories_are_united,
};
pub use laws::{
    a_graft_gives_free_names, a_graft_goes_on_with_marks, a_graft_has_no_other_events,
    a_graft_is_an_edit, a_graft_keeps_soundness, a_graft_keeps_the_base, a_graft_keeps_the_limits,
    a_graft_replays_operations, a_number_leads_back, a_pruned_graft_keeps_trees,
    a_pruned_unite_keeps_all_trees, a_pruned_unite_keeps_trees, a_root_gets_the_latest_commit,
    a_unite_gives_all_marks_anew, a_unite_gives_free_names, a_unite_has_no_other_events,
    a_unite_is_lawful, a_unite_keeps_soundness, a_unite_keeps_the_base, a_unite_keeps_the_limits,
    parts_come_by_age,
};
