//! The trees of commits, at most 64 of which are kept. Read in this order: `listed`, `walk`, `folding`, `using` (the
//! tree of one commit), `equal_ops`, `following` (what stays after a plan), `changes`, `checking` (the tree check),
//! `manifests`, `laws`.
#![tactic(auto)]

mod changes;
mod checking;
mod equal_ops;
mod folding;
mod following;
mod laws;
mod listed;
mod manifests;
mod using;
mod walk;

pub use equal_ops::same_ops;
pub use laws::a_used_tree_is_kept;
pub use manifests::Manifests;
