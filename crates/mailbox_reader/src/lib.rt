//! Messages of a box are read and judged: what their header lines say, how far their bodies go, which event each is for,
//! and where one is at fault. Read in this order: `headers`, `forms` (values), `faults` (the lowest), `reading` (header
//! lines and bodies), `tags`, `judging`.
#![tactic(auto)]

mod faults;
mod forms;
mod headers;
mod judging;
mod reading;
mod tags;

pub use faults::lower;
pub use forms::identity_in;
pub use judging::{meant, wrong_message};
pub use reading::{Extent, Header, Said, body_of, head_of, nothing};
pub use tags::FirstTags;
