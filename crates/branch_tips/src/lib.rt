//! Where the branches are while a history is walked from its front.
#![tactic(auto)]

mod last_tip;
mod tips;

pub use tips::{TipList, Tips};
