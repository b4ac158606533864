//! Dates in UTC of seconds since 1970, as text.
#![tactic(auto)]

mod dates;
mod laws;

pub use dates::push_date;
pub use laws::{days_are_of_the_calendar, worked_dates};
