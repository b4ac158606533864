//! What is in the place of the operations of a commit.
ghost use Rattle.std.specs.Prelude.{◌≡◌, ◌++◌, ◌∷◌, [], if◌then◌else◌, Some, Ok, IfOk, IsOk, IsSome, OnOk};
ghost use Rattle.expunge_laws.specs.Replaced.{is_clear, replaced, replaced_all, rewritten};
ghost use Rattle.expunge_laws.specs.Untouched.{may_touch};
ghost use Rattle.expunge_laws.specs.Matching.{matched_by};
ghost use Rattle.path_expunge.specs.Written.{moving};
ghost use Rattle.plain_model.specs.Histories.{folded};
ghost use Rattle.plain_model.specs.Trees.{IsTree, apply};

use crate::clearing::{are_all_matched, is_clear};
use crate::matching::Matching;
use crate::rewriting::{push_rewritten, push_way_clear};
use path_tree::{ApplyFault, PathTree};
use plain_model::{Copied, FileOp, NoMemory, OpList, Path, Steps};
use std::alloc::Global;

// The steps of the trees here, which nobody looks at.
struct Replaced;

/// Whether an operation may touch a matched path, as far as it is known without a tree.
pub fn may_touch(matching: &mut Matching<'_>, op: &FileOp) -> bool
    ensures touched { result ≡ may_touch (matched_by matching.old) op.now }
    ensures same { matching.new ≡ matching.old }
{
    match op {
        FileOp::Modify { path, .. } => matching.matches(path.as_bytes()),
        FileOp::Delete { path } => matching.matches(path.as_bytes()),
        FileOp::Copy { .. } => true,
        FileOp::Rename { .. } => true,
        FileOp::DeleteAll => false,
    }
}

// Puts a copy of an operation at the end.
fn push_same(op: &FileOp, made: &mut OpList) -> Result<(), NoMemory>
    ensures { OnOk result (made.new ≡ made.old ++ op.now ∷ []) }
{
    let op = op.copied(made.alloc())?;
    made.push(op)
}

// Puts a copy or a rename at the end, or what it does outside the matched paths.
fn push_moved(
    matching: &mut Matching<'_>,
    op: &FileOp,
    copied: bool,
    source: &Path,
    target: &Path,
    old: &PathTree,
    new: &PathTree,
    made: &mut OpList,
) -> Result<(), NoMemory>
    requires tree { IsTree old.now }
    requires applied { apply (moving copied source.now target.now) old.now ≡ Ok new.now }
    ensures made { OnOk result (made.new ≡ made.old
        ++ (if is_clear (matched_by matching.old) source.now target.now old.now then op.now ∷ []
        else rewritten (matched_by matching.old) old.now new.now)) }
    ensures same { matching.new ≡ matching.old }
{
    if is_clear(made.alloc(), matching, source, target, old)? {
        push_same(op, made)
    } else {
        push_rewritten(matching, copied, source, target, old, new, made)
    }
}

// Puts what is in the place of an operation at the end.
fn push_replaced(
    matching: &mut Matching<'_>,
    op: &FileOp,
    old: &PathTree,
    new: &PathTree,
    made: &mut OpList,
) -> Result<(), NoMemory>
    requires tree { IsTree old.now }
    requires applied { apply op.now old.now ≡ Ok new.now }
    ensures made { OnOk result
        (made.new ≡ made.old ++ replaced (matched_by matching.old) op.now old.now new.now) }
    ensures same { matching.new ≡ matching.old }
{
    match op {
        FileOp::Modify { path, .. } => {
            if matching.matches(path.as_bytes()) {
                push_way_clear(matching, path, old, new, made)
            } else {
                push_same(op, made)
            }
        }
        FileOp::Delete { path } => {
            if matching.matches(path.as_bytes())
                && are_all_matched(matching, old.entries_below(path)?.as_slice())
            {
                Ok(())
            } else {
                push_same(op, made)
            }
        }
        FileOp::Copy { source, target } => {
            push_moved(matching, op, true, source, target, old, new, made)
        }
        FileOp::Rename { source, target } => {
            push_moved(matching, op, false, source, target, old, new, made)
        }
        FileOp::DeleteAll => push_same(op, made),
    }
}

// Applies an operation.
fn apply(tree: &mut PathTree, op: &FileOp) -> Result<(), NoMemory>
    requires { IsOk (apply op.now tree.old) }
    ensures { OnOk result (apply op.now tree.old ≡ Ok tree.new) }
{
    let mut steps: Steps<Replaced> = Steps::new();
    match tree.apply(op, &mut steps) {
        Ok(()) => Ok(()),
        Err(ApplyFault::Memory) => Err(NoMemory),
        // A history in which an operation is refused isn't sound.
        Err(_) => unreachable!(),
    }
}

// Puts what is in the place of an operation at the end, and applies the operation. The tree before it is kept only
// where it is asked for.
fn replace(
    matching: &mut Matching<'_>,
    op: &FileOp,
    tree: &mut PathTree,
    made: &mut OpList,
) -> Result<(), NoMemory>
    requires tree { IsTree tree.old }
    requires applies { IsOk (apply op.now tree.old) }
    ensures applied { OnOk result (apply op.now tree.old ≡ Ok tree.new) }
    ensures made { OnOk result
        (made.new ≡ made.old ++ replaced (matched_by matching.old) op.now tree.old tree.new) }
    ensures same { matching.new ≡ matching.old }
{
    if !may_touch(matching, op) {
        apply(tree, op)?;
        return push_same(op, made);
    }
    let before = tree.share()?;
    apply(tree, op)?;
    push_replaced(matching, op, &before, tree, made)
}

/// What is in the place of the operations of a commit that begins with a tree.
pub fn replaced_all(
    alloc: Global,
    matching: &mut Matching<'_>,
    ops: &[FileOp],
    begun: PathTree,
) -> Result<OpList, NoMemory>
    requires tree { IsTree begun }
    requires trees { IsSome (folded ops.now (Some begun)) }
    ensures made { IfOk result
        (λ made. made ≡ replaced_all (matched_by matching.old) ops.now begun) }
    ensures same { matching.new ≡ matching.old }
{
    let mut tree = begun;
    let mut made = OpList::empty(alloc);
    for op in ops {
        replace(matching, op, &mut tree, &mut made)?;
    }
    Ok(made)
}
