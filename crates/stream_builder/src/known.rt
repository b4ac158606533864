//! The trees that are known while a stream is read.
use crate::draft_trees::KeptTrees;
use path_tree::PathTree;

/// The tree of the commit that is being read, where it was folded; none where an operation was refused.
#[derive(Drop)]
pub enum OpenTree {
    NotFolded,
    Folded(Option<PathTree>),
}

/// The tree of the commit that is being read, those that are kept of earlier commits, and a bound on the paths of every
/// tree. No tree is folded before one is asked for, so a stream that asks for none costs none.
#[derive(Drop)]
pub struct Trees {
    pub kept: KeptTrees,
    pub opened: OpenTree,
    pub most: u64,
}
