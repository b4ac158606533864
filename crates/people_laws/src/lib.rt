//! What `authors`, `timeoffset` and `setfield` make of a history: definitions, and laws of them. Each function's contract
//! is a law, or an example that the checker computes.
#![tactic(auto)]

mod laws;
mod worked;

pub use laws::{
    a_set_field_is_an_edit, a_time_offset_is_an_edit, authors_are_an_edit,
    authors_change_people_alone, authors_keep_soundness, changed_fields_keep_trees,
    no_dates_leave_the_range, other_labels_keep_the_rest, the_lowest_line_is_refused,
    time_offset_changes_dates_alone, time_offset_keeps_soundness, values_change_their_field_alone,
    values_keep_soundness,
};
pub use worked::{
    authors_are_put_in, dates_move, lines_that_are_authors, lines_that_are_no_authors,
    values_are_set,
};
