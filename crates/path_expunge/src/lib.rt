//! The plan of an expunge. Read in this order: `matcher`, `matching` (which paths are matched); `sides`, `naming`,
//! `leaving` (what goes without a look at a tree); `clearing`, `rewriting`, `replacing` (what is in the place of
//! operations), `commits`, `emptied`; `fates` (what becomes of events where emptied commits give way), `giving`,
//! `pushing`; `expunging`.
#![tactic(auto)]

mod clearing;
mod commits;
mod emptied;
mod expunging;
mod fates;
mod giving;
mod leaving;
mod matcher;
mod matching;
mod naming;
mod pushing;
mod replacing;
mod rewriting;
mod sides;

pub use expunging::expunge;
pub use matcher::Matcher;
