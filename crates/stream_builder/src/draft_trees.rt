//! The trees of commits that were read so far, each folded only where it is asked for.

mod folding;
mod kept_trees;
mod line;
mod trees;

pub use folding::folded;
pub use kept_trees::KeptTrees;
pub use trees::tree_of;
