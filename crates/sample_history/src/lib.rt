//! A history of any size that a number determines, for trials of what takes much time or memory.
#![tactic(auto)]

mod laws;
mod parts;
mod sample;
mod worked;

pub use laws::samples_are_lawful;
pub use sample::sample_events;
pub use worked::worked_samples;
