//! Plans for single commits: one is split in two, and a line of commits is put into another order. Read in this order:
//! `touching` (where a commit is split), `onto` (what was on it goes onto its copy), `splitting`; then `lines`,
//! `relinking` (parents), `placing` (places), `reordering`.
#![tactic(auto)]

mod lines;
mod onto;
mod placing;
mod relinking;
mod reordering;
mod splitting;
mod touching;

pub use reordering::reorder;
pub use splitting::{split_at, split_by};
