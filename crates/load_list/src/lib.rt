//! The loaded repositories with the one that is chosen, and what commands do to them. Read in this order: `repository` (a history with
//! what is kept of it), `list` (all of them) and the files below it, `path_words` (words that say paths) and `faults`.
#![tactic(auto)]

mod faults;
mod list;
mod path_words;
mod repository;

pub use faults::{not_there, taken, too_many};
pub use list::LoadList;
pub use path_words::{matchers_of, path_of};
pub use repository::Repository;
