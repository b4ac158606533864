//! Who descends from whom among the commits of a history, and laws of it: each function's contract is one, and its
//! body is empty.
#![tactic(auto)]

mod examples;
mod laws;

pub use examples::merges_descend_from_both_sides;
pub use laws::descent_is_a_path;
