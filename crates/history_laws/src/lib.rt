//! Laws of the definitions in `plain_model`: each function's contract is one, and its body is empty.
#![tactic(auto)]

mod examples;
mod laws;

pub use examples::{a_root_is_reset_once, files_and_folders_give_way};
pub use laws::{operations_keep_trees, trees_come_from_first_parents};
