//! What a text is read as.
use crate::selection::Selection;

/// The selection at the front of a text, or the column where it is refused.
#[derive(Drop)]
pub enum Answer {
    Found { selection: Selection, length: usize },
    Refused { column: usize },
}
