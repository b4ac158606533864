//! Fields of events that commands set, with their values, and by how much dates move.
#![tactic(auto)]

mod field;
mod shift;
mod value;
mod zone;

pub use field::Field;
pub use shift::{MAX_SHIFT, shift_in};
pub use value::FieldValue;
pub use zone::Zone;
