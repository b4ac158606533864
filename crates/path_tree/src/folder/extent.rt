//! How many paths a tree has and how long they are: each folder keeps both, so that limits need no walk.
ghost use Rattle.std.specs.Prelude.{◌≡◌, ℕ, ◌++◌, length, max, IfSome, Option};
ghost use Rattle.plain_model.specs.Paths.{Bytes};
ghost use Rattle.plain_model.specs.Trees.{Tree, TreeOf};
ghost use Rattle.path_tree.specs.Folders.{Member, flat, longest, member_tree, prefixed, AllFit, Fits};
ghost use Rattle.path_tree.specs.Inside.{all_rows, bounded, extent_of, rows_of, rows_in, member_of};
ghost use Rattle.path_tree.specs.PathMaps.{IsInOrder};
ghost use Rattle.path_tree.specs.Rows.{IsExchange};
ghost use Rattle.path_tree.specs.Setting.{FitsIf};

use super::{Child, Children, Folder, Node};
use std::rc::Rc;

/// How many paths there are, and how many bytes the longest of them has; either stays at the greatest
/// number where it would be more.
#[derive(Clone, Copy)]
pub struct Extent {
    pub(super) count: u64,
    pub(super) longest: u64,
}

/// The extents of what went under one key, and of what came.
#[derive(Clone, Copy)]
pub struct Change {
    pub(super) gone: Extent,
    pub(super) come: Extent,
}

/// The extent of both trees together.
fn joined(one: Extent, other: Extent) -> Extent
    ensures { (a b : Tree) → one ≡ extent_of a → other ≡ extent_of b → result ≡ extent_of (a ++ b) }
{
    Extent {
        count: one.count.saturating_add(other.count),
        longest: one.longest.max(other.longest),
    }
}

/// The longest path after a change, where it follows from the three lengths alone.
fn longest_after(before: u64, gone: u64, come: u64) -> Option<u64>
    ensures { IfSome result (λ r. (rest old new : ℕ) → before ≡ bounded (max rest old) →
        gone ≡ bounded old → come ≡ bounded new → r ≡ bounded (max rest new)) }
{
    if come >= before {
        Some(come)
    } else if gone < before {
        Some(before)
    } else {
        None
    }
}

/// The extent after a change, where it follows from the three extents alone.
fn exchanged(before: Extent, change: Change) -> Option<Extent>
    ensures { IfSome result (λ r. (rest old new : Tree) → before ≡ extent_of (rest ++ old) →
        change.gone ≡ extent_of old → change.come ≡ extent_of new → r ≡ extent_of (rest ++ new)) }
{
    if before.count == u64::MAX || before.count < change.gone.count {
        return None;
    }
    let longest = longest_after(before.longest, change.gone.longest, change.come.longest)?;
    let rest = before.count - change.gone.count;
    let count = rest.saturating_add(change.come.count);
    Some(Extent { count, longest })
}

/// The extent of the node's paths, each after the key.
pub(super) fn extent_under(key: &[u8], node: &Node) -> Extent
    requires { Fits key.now (member_of node.now) }
    ensures { result ≡ extent_of (prefixed key.now (member_tree (member_of node.now))) }
{
    let len = key.len() as u64;
    match node {
        Node::File(_) => Extent {
            count: 1,
            longest: len,
        },
        Node::Subfolder(below) => {
            let below = below.extent();
            Extent {
                count: below.count,
                longest: len.saturating_add(below.longest),
            }
        }
    }
}

/// The extent of all that is below the children.
fn counted(children: &[Child]) -> Extent
    requires { AllFit (rows_of children.now) }
    ensures { result ≡ extent_of (flat (rows_of children.now)) }
{
    let mut extent = Extent {
        count: 0,
        longest: 0,
    };
    for child in children {
        extent = joined(extent, extent_under(child.key.as_slice(), &child.node));
    }
    extent
}

/// The extent of all that is below the children of the blocks.
fn counted_blocks(blocks: &[Rc<Vec<Child>>]) -> Extent
    requires { AllFit (rows_in blocks.now) }
    ensures { result ≡ extent_of (flat (rows_in blocks.now)) }
{
    let mut extent = Extent {
        count: 0,
        longest: 0,
    };
    for block in blocks {
        extent = joined(extent, counted(block.as_slice()));
    }
    extent
}

/// The extent of all that is below the children.
fn counted_all(children: &Children) -> Extent
    requires { AllFit (all_rows children.now) }
    ensures { result ≡ extent_of (flat (all_rows children.now)) }
{
    joined(
        counted(children.first.as_slice()),
        counted_blocks(children.rest.as_slice()),
    )
}

/// The extent of the children after a change. Only where the longest path went, or the count is at the
/// greatest number, are they looked at.
pub(super) fn recounted(before: Extent, change: Change, children: &Children) -> Extent
    requires { AllFit (all_rows children.now) }
    ensures { (key : Bytes) (new : Option Member) (old : TreeOf Member) → before ≡ extent_of (flat old) →
        IsExchange key new change old (all_rows children.now) → result ≡ extent_of (flat (all_rows children.now)) }
{
    match exchanged(before, change) {
        Some(extent) => extent,
        None => counted_all(children),
    }
}

impl Folder {
    /// How many paths there are, and how long they are.
    pub(crate) fn extent(&self) -> Extent
        ensures { result ≡ extent_of self.now }
    {
        self.extent
    }

    /// How many paths there are.
    pub fn count(&self) -> u64
        ensures number { result ≡ bounded (length self.now) }
        ensures order { IsInOrder self.now }
    {
        self.extent.count
    }

    /// How many bytes the longest path has.
    pub fn longest(&self) -> u64
        ensures { result ≡ bounded (longest self.now) }
    {
        self.extent.longest
    }
}
