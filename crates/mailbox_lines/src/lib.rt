//! Lines of a box of messages: how they are cut, and how a comment is put into a body and taken out again.
#![tactic(auto)]

mod comments;
mod lines;
mod rules;

pub use comments::{push_body, push_comment};
pub use lines::{next_line, next_piece};
pub use rules::{is_rule, rule};
