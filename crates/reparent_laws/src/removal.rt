//! Which operations of a commit are removed.
use plain_model::Path;

/// One operation by its number from 1, or all that have the path as theirs, their source or their target. (reposurgeon
/// manual, `remove`.)
#[derive(Drop)]
pub enum Removal {
    Index(u64),
    At(Path),
}
