//! What `tagify` makes of a history: definitions, and laws of them. Each function's contract is a law, or an example that
//! the checker computes.
#![tactic(auto)]

mod examples;
mod laws;

pub use examples::{
    a_commit_becomes_a_tag, a_name_is_taken, a_root_and_a_merge_stay, parents_become_one,
};
pub use laws::{
    a_tag_comes_for_each_commit, a_tagify_is_an_edit, a_tagify_keeps_soundness,
    a_tagify_keeps_the_limits, a_tagify_keeps_trees, a_tagify_removes_its_commits,
    no_more_tags_come_than_numbers, nothing_changes_where_no_commit_becomes_a_tag,
    nothing_else_goes_or_comes, tags_are_in_the_place_of_commits, the_first_taken_name_is_refused,
};
