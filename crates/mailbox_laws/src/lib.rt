//! Boxes of messages: what is written of commits and tags, what is read, and what lands on a history, as definitions, and laws of
//! them. Each function's contract is a law, or an example that the checker computes.
#![tactic(auto)]

mod laws;
mod worked;

pub use laws::{
    a_box_is_cut_in_one_way, a_box_is_refused_for_a_message, a_landing_is_an_edit,
    a_landing_keeps_soundness, a_written_box_changes_nothing, only_people_and_comments_land,
    other_words_keep_all_else, the_lowest_fault_is_reported,
};
pub use worked::{
    boxes_are_written, messages_are_refused, messages_land, of_tags_of_one_name_the_first_is_found,
};
