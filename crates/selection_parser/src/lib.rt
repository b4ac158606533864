//! Selections, and how they are read.
#![tactic(auto)]

mod answer;
mod digits;
mod field;
mod function;
mod inside;
mod item;
mod joining;
mod kind;
mod laws;
mod parsing;
mod place;
mod reader;
mod selection;
mod stepping;
mod worked;

pub use field::FieldSet;
pub use function::Function;
pub use item::{Item, ItemList, Spot};
pub use kind::KindSet;
pub use laws::{one_selection, plain_by_variant, read_rightly};
pub use parsing::parse;
pub use selection::{Selection, SelectionList};
pub use worked::{lines_have_columns, lines_have_selections};
