//! Laws of texts that are read line by line: each function's contract is one, and its body is
//! empty.
#![tactic(auto)]

mod examples;
mod laws;

pub use examples::{
    first_defects_are_reported, limits_are_passed, lines_have_their_numbers, texts_are_read,
    texts_end_early,
};
pub use laws::{
    a_block_goes_on_or_misses, a_line_goes_on_or_stops, any_pieces_are_read_alike,
    data_goes_on_or_misses, early_end_is_the_defect, first_refusal_is_the_defect,
    limits_refuse_nothing_else, numbers_count_line_feeds, the_first_defect_is_one,
    what_is_clean_is_spelled,
};
