//! What edits of single commits share: which events a command wants, and laws of a history in which one commit has other
//! parents and operations. Each function's contract is a law, and its body is empty.
#![tactic(auto)]

mod laws;

pub use laws::{
    a_commit_is_found_as_it_is, a_selection_has_its_commits_once, the_next_mark_is_new,
};
