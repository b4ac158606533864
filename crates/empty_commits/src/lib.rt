//! The plan of `tagify`: commits that do nothing become tags. Read in this order: `empties` (which commits these are, and
//! the commit in the place of each), `names` (which names are taken), `moving` (what was on these commits), `tagging` (the
//! tags, and their places), `tagifying`.
#![tactic(auto)]

mod empties;
mod moving;
mod names;
mod tagging;
mod tagifying;

pub use tagifying::tagify;
