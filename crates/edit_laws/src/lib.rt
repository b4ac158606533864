//! What the edits of a history share: definitions, and laws of them. Each function's contract is a law, or an example
//! that the checker computes, and its body is empty.
#![tactic(auto)]

mod examples;
mod laws;

pub use examples::{merges_expand_once, only_what_was_named_is_swept, the_earliest_is_taken};
pub use laws::{
    a_list_in_order_is_linked, a_passed_limit_is_found, commits_that_stay_stand_for_themselves,
    removed_commits_give_way_to_their_parents, settling_ends_where_nothing_runs_in_a_circle,
    settling_makes_sound, settling_orders, soundness_has_parts, the_check_finds_what_has_no_tree,
    the_same_trees_show_the_same, the_way_forward_goes_to_the_first_child,
    trees_are_those_that_fit,
};
