//! A tree with its image, and what the mapped operation does to the image.
ghost use Rattle.std.specs.Prelude.{◌≡◌, ◌&&◌, [], None, Ok, IfOk, IfSome, IsFalse, IsOk, OnOk};
ghost use Rattle.path_move_laws.specs.MovedOps.{leads_to, mapped_op, names_paths};
ghost use Rattle.path_move_laws.specs.PathMaps.{image_of};
ghost use Rattle.path_moves.specs.Pairs.{ArePaired, IsTried};
ghost use Rattle.plain_model.specs.Paths.{Bytes};
ghost use Rattle.plain_model.specs.Trees.{Tree, apply};

use crate::images::mapped_op;
use crate::written::apply;
use path_move_laws::PathMap;
use path_tree::PathTree;
use plain_model::{FileOp, NoMemory};
use std::alloc::Global;

/// A tree, and its image.
#[derive(Drop)]
pub struct Pair {
    pub tree: PathTree,
    pub image: PathTree,
}

impl Pair {
    /// The empty tree.
    pub fn new(alloc: Global) -> Result<Pair, NoMemory>
        ensures tree { IfOk result (λ pair. pair.tree ≡ []) }
        ensures paired { IfOk result (λ pair. (f : Bytes → Bytes) → ArePaired f pair.tree pair.image) }
    {
        Ok(Pair {
            tree: PathTree::new(alloc)?,
            image: PathTree::new(alloc)?,
        })
    }

    /// The same.
    pub fn share(&self) -> Result<Pair, NoMemory>
        ensures tree { IfOk result (λ made. made.tree ≡ self.now.tree) }
        ensures image { IfOk result (λ made. made.image ≡ self.now.image) }
    {
        Ok(Pair {
            tree: self.tree.share()?,
            image: self.image.share()?,
        })
    }
}

/// The mapped operation, and what it makes of an image.
#[derive(Drop)]
pub struct Tried {
    pub op: FileOp,
    pub made: PathTree,
}

/// Applies an operation that isn't refused.
pub fn apply_sure(tree: &mut PathTree, op: &FileOp) -> Result<(), NoMemory>
    requires { IsOk (apply op.now tree.old) }
    ensures { OnOk result (apply op.now tree.old ≡ Ok tree.new) }
{
    if apply(tree, op)? {
        return Ok(());
    }
    unreachable!()
}

/// Tries the mapped operation on an image, if it says paths and isn't refused.
pub fn try_mapped(
    alloc: Global,
    map: &PathMap,
    op: &FileOp,
    image: &PathTree,
) -> Result<Option<Tried>, NoMemory>
    ensures some { IfOk result (λ found. IfSome found (λ tried.
        IsTried (image_of map.now) op.now image.now tried.op tried.made)) }
    ensures none { IfOk result (λ found. found ≡ None → (new : Tree) →
        IsFalse (names_paths (mapped_op (image_of map.now) op.now)
        && leads_to (mapped_op (image_of map.now) op.now) image.now new)) }
{
    let Some(op) = mapped_op(alloc, map, op)? else {
        return Ok(None);
    };
    let mut made = image.share()?;
    if apply(&mut made, &op)? {
        return Ok(Some(Tried { op, made }));
    }
    Ok(None)
}
