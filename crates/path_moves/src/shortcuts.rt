//! When what the mapped operation did is known to be right, by look-ups and by how many paths there are.
ghost use Rattle.std.specs.Prelude.{◌≡◌, ◌+◌, length, Ok, IfOk, IfSome, IsTrue};
ghost use Rattle.path_move_laws.specs.PathMaps.{image_of};
ghost use Rattle.path_move_laws.specs.Steady.{IsRight};
ghost use Rattle.path_moves.specs.Pairs.{ArePaired, IsTried};
ghost use Rattle.plain_model.specs.Trees.{apply, subtree};

use crate::images::is_torn;
use crate::pairs::{Pair, Tried};
use path_move_laws::{
    PathMap, a_copy_is_right, a_deletion_is_right, a_deletion_of_nothing_is_known,
    a_rename_is_right, what_is_below_goes_along,
};
use path_tree::PathTree;
use plain_model::{FileOp, NoMemory, Path};

// Whether both trees have lost as many paths.
fn has_lost_as_many(tried: &Tried, before: &Pair, tree: &PathTree) -> bool
    ensures { IsTrue result → length tree.now + length before.now.image
        ≡ length tried.now.made + length before.now.tree }
{
    tree.len() <= before.tree.len()
        && tried.made.len() <= before.image.len()
        && before.tree.len() - tree.len() == before.image.len() - tried.made.len()
}

// Whether both trees have so many paths more.
fn has_gained(count: usize, tried: &Tried, before: &Pair, tree: &PathTree) -> bool
    ensures { IsTrue result → (length tree.now ≡ length before.now.tree + count)
        × (length tried.now.made ≡ length before.now.image + count) }
{
    before.tree.len() <= tree.len()
        && before.image.len() <= tried.made.len()
        && tree.len() - before.tree.len() == count
        && tried.made.len() - before.image.len() == count
}

// Whether what a deletion that was tried did is known to be right.
fn is_known_deletion(
    map: &PathMap,
    op: &FileOp,
    path: &Path,
    tried: &Tried,
    before: &Pair,
    tree: &PathTree,
) -> bool
    requires delete { op.now ≡ FileOp.Delete path.now }
    requires paired { ArePaired (image_of map.now) before.now.tree before.now.image }
    requires tried { IsTried (image_of map.now) op.now before.now.image tried.now.op tried.now.made }
    requires applied { apply op.now before.now.tree ≡ Ok tree.now }
    ensures { IsTrue result →
        IsRight (image_of map.now) op.now before.now.tree tree.now tried.now.made }
{
    a_deletion_is_right();
    a_deletion_of_nothing_is_known();
    what_is_below_goes_along();
    if before.tree.get(path).is_some() {
        return true;
    }
    if tree.len() == before.tree.len() {
        return tried.made.len() == before.image.len();
    }
    if is_torn(map, path.as_bytes()) {
        return false;
    }
    has_lost_as_many(tried, before, tree)
}

// How many paths are at or below a path of the tree, if as many are at or below another one of the image.
fn count_below(source: &Path, image: &Path, before: &Pair) -> Result<Option<usize>, NoMemory>
    ensures { IfOk result (λ found. IfSome found (λ count.
        (count ≡ length (subtree source.now before.now.tree))
        × (count ≡ length (subtree image.now before.now.image)))) }
{
    let count = before.tree.len_below(source)?;
    if before.image.len_below(image)? == count {
        return Ok(Some(count));
    }
    Ok(None)
}

// Whether what a copy that was tried did is known to be right.
fn is_known_copy(
    map: &PathMap,
    op: &FileOp,
    source: &Path,
    target: &Path,
    tried: &Tried,
    before: &Pair,
    tree: &PathTree,
) -> Result<bool, NoMemory>
    requires copy { op.now ≡ FileOp.Copy source.now target.now }
    requires paired { ArePaired (image_of map.now) before.now.tree before.now.image }
    requires tried { IsTried (image_of map.now) op.now before.now.image tried.now.op tried.now.made }
    requires applied { apply op.now before.now.tree ≡ Ok tree.now }
    ensures { IfOk result (λ known. IsTrue known →
        IsRight (image_of map.now) op.now before.now.tree tree.now tried.now.made) }
{
    a_copy_is_right();
    what_is_below_goes_along();
    let FileOp::Copy { source: image, .. } = &tried.op else {
        return Ok(false);
    };
    if is_torn(map, source.as_bytes()) || is_torn(map, target.as_bytes()) {
        return Ok(false);
    }
    let Some(taken) = count_below(source, image, before)? else {
        return Ok(false);
    };
    if before.tree.get(target).is_some() {
        return Ok(true);
    }
    Ok(has_gained(taken, tried, before, tree))
}

// The same of a rename.
fn is_known_rename(
    map: &PathMap,
    op: &FileOp,
    source: &Path,
    target: &Path,
    tried: &Tried,
    before: &Pair,
    tree: &PathTree,
) -> Result<bool, NoMemory>
    requires rename { op.now ≡ FileOp.Rename source.now target.now }
    requires paired { ArePaired (image_of map.now) before.now.tree before.now.image }
    requires tried { IsTried (image_of map.now) op.now before.now.image tried.now.op tried.now.made }
    requires applied { apply op.now before.now.tree ≡ Ok tree.now }
    ensures { IfOk result (λ known. IsTrue known →
        IsRight (image_of map.now) op.now before.now.tree tree.now tried.now.made) }
{
    a_rename_is_right();
    what_is_below_goes_along();
    let FileOp::Rename { source: image, .. } = &tried.op else {
        return Ok(false);
    };
    if is_torn(map, source.as_bytes()) || is_torn(map, target.as_bytes()) {
        return Ok(false);
    }
    let Some(_count) = count_below(source, image, before)? else {
        return Ok(false);
    };
    if before.tree.get(target).is_some() {
        return Ok(true);
    }
    Ok(has_gained(0, tried, before, tree))
}

/// Whether what a mapped operation that was tried did is known to be right.
pub fn is_known(
    map: &PathMap,
    op: &FileOp,
    tried: &Tried,
    before: &Pair,
    tree: &PathTree,
) -> Result<bool, NoMemory>
    requires paired { ArePaired (image_of map.now) before.now.tree before.now.image }
    requires tried { IsTried (image_of map.now) op.now before.now.image tried.now.op tried.now.made }
    requires applied { apply op.now before.now.tree ≡ Ok tree.now }
    ensures { IfOk result (λ known. IsTrue known →
        IsRight (image_of map.now) op.now before.now.tree tree.now tried.now.made) }
{
    match op {
        FileOp::Delete { path } => Ok(is_known_deletion(map, op, path, tried, before, tree)),
        FileOp::Copy { source, target } => {
            is_known_copy(map, op, source, target, tried, before, tree)
        }
        FileOp::Rename { source, target } => {
            is_known_rename(map, op, source, target, tried, before, tree)
        }
        _ => Ok(false),
    }
}
