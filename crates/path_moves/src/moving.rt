//! What is in the place of an operation, and the trees after it.
ghost use Rattle.std.specs.Prelude.{◌≡◌, ◌≤◌, ◌+◌, ◌&&◌, ◌++◌, ◌∷◌, [], ◌↔◌, if◌then◌else◌, length, None, Ok, Some, IfErr, IfOk, IsFalse, IsOk, IsTrue, OnOk};
ghost use Rattle.path_move_laws.specs.Images.{image};
ghost use Rattle.path_move_laws.specs.MovedOps.{leads_to, mapped_op, moved_op, names_paths};
ghost use Rattle.path_move_laws.specs.PathMaps.{image_of};
ghost use Rattle.path_moves.specs.Pairs.{ArePaired, IsAt, IsFaulty, LeadsOn};
ghost use Rattle.plain_model.specs.Trees.{Tree, apply, has};
ghost use Rattle.plain_model.specs.declared.limit.TheConstants.{MAX_PATHS};

use crate::collisions::collision;
use crate::images::mapped_op;
use crate::pairs::{Pair, apply_sure, try_mapped};
use crate::shortcuts::is_known;
use crate::wholes::{Whole, has_paths, whole_image};
use crate::written::{apply, are_same, push_difference};
use path_move_laws::{
    PathMap, a_collision_is_found, a_deletion_is_right, a_long_image_comes_first, a_put_is_right,
    an_operation_moves_the_image, what_is_no_path_is_too_long,
};
use path_tree::PathTree;
use plain_model::{Fault, FileOp, Halt, MAX_PATH_BYTES, Mark, NoMemory, OpList, Path, Which};
use std::alloc::Global;

/// Where an operation is: of which mark its commit is, and its number there, from 1.
#[derive(Clone, Copy)]
pub struct Place {
    pub mark: Mark,
    pub number: u64,
}

/// The fault of images that are too long.
pub fn too_long() -> Halt
    ensures { result ≡ Halt.Refused (Fault.Limit Which.PathBytes MAX_PATH_BYTES) }
{
    Halt::Refused(Fault::Limit {
        which: Which::PathBytes,
        number: MAX_PATH_BYTES,
    })
}

// The image of the tree after an operation, put together path by path, or its fault.
fn image_after(
    alloc: Global,
    map: &PathMap,
    place: Place,
    tree: &PathTree,
) -> Result<PathTree, Halt>
    requires { length tree.now ≤ MAX_PATHS }
    ensures image { IfOk result (ArePaired (image_of map.now) tree.now) }
    ensures fault { IfErr result (λ halt. (op : FileOp) (old : Tree) → apply op old ≡ Ok tree.now →
        IsFaulty (image_of map.now) place.mark place.number op old halt) }
{
    a_long_image_comes_first();
    a_collision_is_found();
    let entries = tree.entries()?;
    match whole_image(alloc, map, entries.as_slice())? {
        Whole::Image(image) => Ok(image),
        Whole::TooLong => Err(too_long()),
        Whole::Collides => match collision(alloc, map, entries.as_slice())? {
            Some(path) => Err(Halt::Refused(Fault::PathCollision {
                mark: place.mark,
                op: place.number,
                path,
            })),
            None => unreachable!(),
        },
    }
}

// The mapped operation, if it says paths and makes the one tree of the other.
fn leading_op(
    alloc: Global,
    map: &PathMap,
    op: &FileOp,
    before: &PathTree,
    after: &PathTree,
) -> Result<Option<FileOp>, NoMemory>
    ensures { IfOk result (λ found. found ≡ (if names_paths (mapped_op (image_of map.now) op.now)
        && leads_to (mapped_op (image_of map.now) op.now) before.now after.now
        then Some (mapped_op (image_of map.now) op.now) else None)) }
{
    let Some(tried) = try_mapped(alloc, map, op, before)? else {
        return Ok(None);
    };
    if are_same(alloc, &tried.made, after)? {
        return Ok(Some(tried.op));
    }
    Ok(None)
}

// Puts what makes the one image of the other at the end: the mapped operation, if it does, or else all that changes.
fn push_moved(
    alloc: Global,
    map: &PathMap,
    op: &FileOp,
    before: &PathTree,
    after: &PathTree,
    made: &mut OpList,
) -> Result<(), NoMemory>
    ensures { OnOk result ((old new : Tree) → before.now ≡ image (image_of map.now) old →
        after.now ≡ image (image_of map.now) new →
        made.new ≡ made.old ++ moved_op (image_of map.now) op.now old new) }
{
    match leading_op(alloc, map, op, before, after)? {
        Some(mapped) => made.push(mapped),
        None => push_difference(before, after, made),
    }
}

// What is in the place of an operation, by the images of the whole trees.
fn write_out(
    alloc: Global,
    map: &PathMap,
    place: Place,
    op: &FileOp,
    image: &PathTree,
    tree: PathTree,
    made: &mut OpList,
) -> Result<Pair, Halt>
    requires { length tree ≤ MAX_PATHS }
    ensures leads { IfOk result (λ pair. (old : Tree) → ArePaired (image_of map.now) old image.now →
        apply op.now old ≡ Ok tree →
        LeadsOn (image_of map.now) op.now old made.old pair.tree pair.image made.new) }
    ensures fault { IfErr result (λ halt. (old : Tree) → apply op.now old ≡ Ok tree →
        IsFaulty (image_of map.now) place.mark place.number op.now old halt) }
{
    let after = image_after(alloc, map, place, &tree)?;
    push_moved(alloc, map, op, image, &after, made)?;
    Ok(Pair { tree, image: after })
}

// A put or a deletion at a path that is there. Nothing else can be in the way, and both trees change in place.
fn change_there(
    alloc: Global,
    map: &PathMap,
    op: &FileOp,
    path: &Path,
    pair: Pair,
    made: &mut OpList,
) -> Result<Pair, NoMemory>
    requires at { IsAt path.now op.now }
    requires paired { ArePaired (image_of map.now) pair.tree pair.image }
    requires applies { IsOk (apply op.now pair.tree) }
    requires there { IsTrue (has pair.tree path.now) }
    ensures { IfOk result (λ next. LeadsOn (image_of map.now) op.now pair.tree made.old
        next.tree next.image made.new) }
{
    has_paths(map);
    a_put_is_right();
    a_deletion_is_right();
    what_is_no_path_is_too_long();
    let _bytes = path.as_bytes();
    let mut tree = pair.tree;
    let mut image = pair.image;
    apply_sure(&mut tree, op)?;
    let Some(mapped) = mapped_op(alloc, map, op)? else {
        unreachable!()
    };
    apply_sure(&mut image, &mapped)?;
    made.push(mapped)?;
    Ok(Pair { tree, image })
}

// Whether there is one more.
fn is_one_more(before: usize, after: usize) -> bool
    ensures { IsTrue result ↔ after ≡ before + 1 }
{
    before < after && after - before == 1
}

// Applies an operation, and tells whether there is one path more then. Else the tree is of no use.
fn grows(tree: &mut PathTree, op: &FileOp) -> Result<bool, NoMemory>
    ensures more { IfOk result (λ more. IsTrue more →
        (apply op.now tree.old ≡ Ok tree.new) × (length tree.new ≡ length tree.old + 1)) }
    ensures only { IfOk result (λ more. IsFalse more → (made : Tree) → apply op.now tree.old ≡ Ok made →
        length made ≡ length tree.old + 1 → ⊥) }
{
    let count = tree.len();
    Ok(apply(tree, op)? && is_one_more(count, tree.len()))
}

// The fault of the tree after an operation whose image has one.
fn fault_after(alloc: Global, map: &PathMap, place: Place, tree: &PathTree) -> Halt
    requires few { length tree.now ≤ MAX_PATHS }
    requires fault { (its : Tree) → ArePaired (image_of map.now) tree.now its → ⊥ }
    ensures { (op : FileOp) (old : Tree) → apply op old ≡ Ok tree.now →
        IsFaulty (image_of map.now) place.mark place.number op old result }
{
    match image_after(alloc, map, place, tree) {
        Ok(_) => unreachable!(),
        Err(halt) => halt,
    }
}

// A put at a path that isn't there. Where nothing gives way to it, its image gives way to nothing either, or collides.
fn put_new(
    alloc: Global,
    map: &PathMap,
    place: Place,
    op: &FileOp,
    path: &Path,
    pair: Pair,
    made: &mut OpList,
) -> Result<Pair, Halt>
    requires put { (mode : _) × (content : _) × (op.now ≡ FileOp.Modify mode content path.now) }
    requires paired { ArePaired (image_of map.now) pair.tree pair.image }
    requires applies { IsOk (apply op.now pair.tree) }
    ensures leads { IfOk result (λ next. LeadsOn (image_of map.now) op.now pair.tree made.old
        next.tree next.image made.new) }
    ensures fault { IfErr result
        (IsFaulty (image_of map.now) place.mark place.number op.now pair.tree) }
{
    has_paths(map);
    a_put_is_right();
    what_is_no_path_is_too_long();
    a_long_image_comes_first();
    let _bytes = path.as_bytes();
    let mut tree = pair.tree;
    let mut image = pair.image;
    let count = tree.len();
    apply_sure(&mut tree, op)?;
    if !is_one_more(count, tree.len()) {
        return write_out(alloc, map, place, op, &image, tree, made);
    }
    let Some(mapped) = mapped_op(alloc, map, op)? else {
        return Err(too_long());
    };
    if grows(&mut image, &mapped)? {
        made.push(mapped)?;
        return Ok(Pair { tree, image });
    }
    Err(fault_after(alloc, map, place, &tree))
}

// An operation that may change many paths.
fn change_many(
    alloc: Global,
    map: &PathMap,
    place: Place,
    op: &FileOp,
    pair: &Pair,
    made: &mut OpList,
) -> Result<Pair, Halt>
    requires paired { ArePaired (image_of map.now) pair.now.tree pair.now.image }
    requires applies { IsOk (apply op.now pair.now.tree) }
    ensures leads { IfOk result (λ next. LeadsOn (image_of map.now) op.now pair.now.tree made.old
        next.tree next.image made.new) }
    ensures fault { IfErr result
        (IsFaulty (image_of map.now) place.mark place.number op.now pair.now.tree) }
{
    an_operation_moves_the_image();
    let mut tree = pair.tree.share()?;
    apply_sure(&mut tree, op)?;
    if let Some(tried) = try_mapped(alloc, map, op, &pair.image)? {
        if is_known(map, op, &tried, pair, &tree)? {
            made.push(tried.op)?;
            return Ok(Pair {
                tree,
                image: tried.made,
            });
        }
    }
    write_out(alloc, map, place, op, &pair.image, tree, made)
}

/// Puts what is in the place of an operation at the end, and leads on to the trees after it, or finds the fault of that
/// tree.
pub fn move_op(
    alloc: Global,
    map: &PathMap,
    place: Place,
    op: &FileOp,
    pair: Pair,
    made: &mut OpList,
) -> Result<Pair, Halt>
    requires paired { ArePaired (image_of map.now) pair.tree pair.image }
    requires applies { IsOk (apply op.now pair.tree) }
    ensures leads { IfOk result (λ next. LeadsOn (image_of map.now) op.now pair.tree made.old
        next.tree next.image made.new) }
    ensures fault { IfErr result
        (IsFaulty (image_of map.now) place.mark place.number op.now pair.tree) }
{
    match op {
        FileOp::Modify { path, .. } => {
            if pair.tree.get(path).is_some() {
                Ok(change_there(alloc, map, op, path, pair, made)?)
            } else {
                put_new(alloc, map, place, op, path, pair, made)
            }
        }
        FileOp::Delete { path } if pair.tree.get(path).is_some() => {
            Ok(change_there(alloc, map, op, path, pair, made)?)
        }
        _ => change_many(alloc, map, place, op, &pair, made),
    }
}
