//! The marks of a history become 1, 2, 3, .. in its order, and nothing else changes.
#![tactic(auto)]

mod laws;
mod numbering;
mod worked;

pub use laws::{
    a_renumbering_is_an_edit, ids_stay, marks_count_up, nothing_else_changes, numbered_again,
    renumbering_keeps_soundness, renumbering_keeps_trees,
};
pub use numbering::renumber;
pub use worked::marks_go_by_place;
