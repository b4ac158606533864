//! The plan in which a commit has fewer operations.
ghost use Rattle.std.specs.Prelude.{◌≡◌, ◌<◌, None, bytes_eq, filter, length, not, remove, IfOk};
ghost use Rattle.std.specs.List.{list_any};
ghost use Rattle.commit_laws.specs.Selected.{node_of};
ghost use Rattle.event_arena.specs.Plans.{Plans, leaving};
ghost use Rattle.manifest_cache.specs.Kept.{AgreesWith};
ghost use Rattle.reparent_laws.specs.declared.removal.Removal.TheVariants.{At, Index};
ghost use Rattle.reparent_laws.specs.Operations.{
  is_at,
  ops_without,
  removal_fault,
  remove_of,
  removed,
};

use crate::judging::judge_trees;
use event_arena::{Events, Plan};
use manifest_cache::Manifests;
use plain_model::{AnyId, CommitId, Copied, Fault, FileOp, Halt, NoMemory, OpList, Path, Text};
use plan_steps::{give_ops, ops_of, push_ops, sweep, the_commit};
use reparent_laws::{Removal, a_change_keeps_soundness};
use std::alloc::Global;

// Whether two paths are one.
fn are_same(path: &Path, other: &Path) -> bool
    ensures { result ≡ bytes_eq path.now other.now }
{
    path.as_bytes() == other.as_bytes()
}

// Whether a path is the operation's, its source or its target.
fn is_at(path: &Path, op: &FileOp) -> bool
    ensures { result ≡ is_at path.now op.now }
{
    match op {
        FileOp::Modify { path: own, .. } => are_same(path, own),
        FileOp::Delete { path: own } => are_same(path, own),
        FileOp::Copy { source, target } => are_same(path, source) || are_same(path, target),
        FileOp::Rename { source, target } => are_same(path, source) || are_same(path, target),
        FileOp::DeleteAll => false,
    }
}

// Whether one of some operations is at a path.
fn has_one_at(path: &Path, ops: &[FileOp]) -> bool
    ensures { result ≡ list_any (is_at path.now) ops.now }
{
    for op in ops {
        if is_at(path, op) {
            return true;
        }
    }
    false
}

// A number that no operation has.
fn index_fault(index: u64, ops: &[FileOp]) -> Option<Fault>
    ensures { result ≡ removal_fault (Index index) ops.now }
{
    if 1 <= index && index <= ops.len() as u64 {
        None
    } else {
        Some(Fault::BadIndex { index })
    }
}

// A path at which no operation is.
fn path_fault(alloc: Global, path: &Path, ops: &[FileOp]) -> Result<Option<Fault>, NoMemory>
    ensures { IfOk result (λ fault. fault ≡ removal_fault (At path.now) ops.now) }
{
    if has_one_at(path, ops) {
        return Ok(None);
    }
    let path = Text::of(alloc, path.as_bytes())?;
    Ok(Some(Fault::NoSuchPath { path }))
}

// Why there is nothing to remove, if there is nothing.
fn removal_fault(alloc: Global, what: &Removal, ops: &[FileOp]) -> Result<Option<Fault>, NoMemory>
    ensures { IfOk result (λ fault. fault ≡ removal_fault what.now ops.now) }
{
    match what {
        Removal::Index(number) => Ok(index_fault(*number, ops)),
        Removal::At(path) => path_fault(alloc, path, ops),
    }
}

// All operations but the one at this place, from 0.
fn without_place(alloc: Global, ops: &[FileOp], place: usize) -> Result<OpList, NoMemory>
    requires { place < length ops.now }
    ensures { IfOk result (λ made. made ≡ remove ops.now place) }
{
    let (front, _) = ops.split_at(place);
    let (_, back) = ops.split_at(place + 1);
    let mut made = OpList::of(alloc, front)?;
    push_ops(&mut made, back)?;
    Ok(made)
}

// All operations but those at a path.
fn without_path(alloc: Global, ops: &[FileOp], path: &Path) -> Result<OpList, NoMemory>
    ensures { IfOk result (λ made. made ≡ filter (λ op. not (is_at path.now op)) ops.now) }
{
    let mut made = OpList::new(alloc)?;
    for op in ops {
        if !is_at(path, op) {
            made.push(op.copied(alloc)?)?;
        }
    }
    Ok(made)
}

// The operations that stay.
fn ops_without(alloc: Global, what: &Removal, ops: &[FileOp]) -> Result<OpList, NoMemory>
    requires { removal_fault what.now ops.now ≡ None }
    ensures { IfOk result (λ made. made ≡ ops_without what.now ops.now) }
{
    match what {
        Removal::Index(number) => without_place(alloc, ops, (*number - 1) as usize),
        Removal::At(path) => without_path(alloc, ops, path),
    }
}

// The plan in which a commit is without these operations, and the blobs are gone that only they named.
fn removed(
    alloc: Global,
    events: &Events,
    commit: CommitId,
    what: &Removal,
) -> Result<Plan, NoMemory>
    requires { removal_fault what.now (node_of events.now.list commit).ops ≡ None }
    ensures { IfOk result (λ plan. plan
        ≡ leaving events.now (removed events.now.list commit what.now)) }
{
    let _count = events.count();
    let mut plan = Plan::new(alloc, events)?;
    let ops = ops_without(alloc, what, ops_of(events, commit))?;
    give_ops(&mut plan, commit, ops)?;
    sweep(alloc, &mut plan)?;
    Ok(plan)
}

/// The plan that removes operations of a commit, one by its number or all at a path, and the blobs that only they
/// named. Refused where it isn't one commit, where no operation has the number or none is at the path, and by the first
/// operation that a tree refuses then. (reposurgeon manual, `remove`.)
pub fn remove_op(
    alloc: Global,
    events: &Events,
    manifests: &mut Manifests,
    set: &[AnyId],
    what: &Removal,
) -> Result<Plan, Halt>
    requires agrees { AgreesWith events.now.list manifests.old }
    ensures plans { Plans events.now events.now.next_id result
        (remove_of what.now set.now events.now.list) }
    ensures kept { manifests.new ≡ manifests.old }
{
    let _count = events.count();
    let commit = match the_commit(events, set) {
        Ok(commit) => commit,
        Err(fault) => return Err(Halt::Refused(fault)),
    };
    let found = removal_fault(alloc, what, ops_of(events, commit))?;
    if let Some(fault) = found {
        return Err(Halt::Refused(fault));
    }
    let plan = removed(alloc, events, commit, what)?;
    match judge_trees(manifests, &plan) {
        Ok(()) => {
            a_change_keeps_soundness();
            Ok(plan)
        }
        Err(halt) => Err(halt),
    }
}
