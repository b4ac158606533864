//! Plans of two commands for selected commits: operations that are void are dropped, and commits become part of the
//! next one. Read in this order: `voiding` (operations that stay), `simplifying`; `joining` (which commits are
//! joined), `chains` (operations and parents), `ends` (tags and resets), `coalescing`.
#![tactic(auto)]

mod chains;
mod coalescing;
mod ends;
mod joining;
mod simplifying;
mod voiding;

pub use coalescing::coalesce;
pub use simplifying::simplify;
