//! Laws of the fields of a stream: what is read is what is spelled, and what is written is read again.
#![tactic(auto)]

mod laws;

pub use laws::{
    data_is_read_again, marks_are_read_again, numbers_are_read_again, operations_are_read_again,
    paths_are_read_again, people_are_read_again, people_are_read_as_spelled,
};
