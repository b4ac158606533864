//! The grammar of streams: what may follow what, what each line means, and the first defect of a text.
#![tactic(auto)]

mod form;
mod laws;
mod limits;
mod lines;
mod words;
mod worked;

pub use laws::{
    a_first_defect_is_the_only_one, an_early_end_misses_a_line, first_refusal_is_the_first_defect,
    limits_refuse_nothing_else, the_first_cause_is_reported, what_is_clean_is_spelled,
    what_is_no_history_has_a_first_defect,
};
pub use limits::limit_number;
pub use lines::{Expected, Follow, Standing, Word};
pub use words::{is_comment, text_of};
pub use worked::{
    ends_come_early, fields_have_first_defects, forms_have_first_defects, streams_have_histories,
};
