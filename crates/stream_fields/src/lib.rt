//! The fields of a stream's lines are read and written.
#![tactic(auto)]

mod cursor;
mod data;
mod fault;
mod lines;
mod names;
mod numbers;
mod operations;
mod paths;
mod people;
mod quoting;
mod repeated;
mod writing;
mod written_parts;

pub use cursor::Cursor;
pub use data::{Extent, extent_up_to};
pub use fault::{FieldFault, or_defect};
pub use lines::{count_line_ends, cut, first_line, skip_line_feed, strip, words};
pub use names::{read_branch, read_name};
pub use numbers::{mark_of_digits, number_up_to, read_mark};
pub use operations::{is_word_left_out, read_content, read_mode, read_op};
pub use paths::{read_last_path, read_path};
pub use people::{moment, parts_of_person, read_person};
pub use plain_model::Place;
pub use repeated::{Names, People};
pub use writing::{write_data, write_mark, write_op, write_path, write_person, write_when};
pub use written_parts::mode_digits;
