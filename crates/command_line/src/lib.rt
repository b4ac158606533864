//! The words of a command line, as `clap` reads them: `surgeon [--keep-going] SCRIPT`.
#![tactic(auto)]

mod words;

pub use words::{Asked, asked_in};
