//! What a stream is by the productions of its events, and laws that the automaton reads exactly that. Each function's
//! contract is a law, and its body is empty.
#![tactic(auto)]

mod examples;
mod laws;

pub use examples::{a_text_is_spelled, events_are_spelled, texts_are_not_spelled};
pub use laws::{
    a_first_defect_is_one_of_spelled_texts, a_history_is_that_of_the_spelled_events,
    a_history_is_what_the_lines_mean, a_text_is_a_stream_or_has_a_defect, a_text_is_spelled_once,
    what_has_the_form_is_read, what_is_given_is_spelled, what_is_read_has_the_form,
};
