//! The tree check: whether each commit after a plan has a tree.
ghost use Rattle.std.specs.Prelude.{
  ◌≡◌,
  ◌<◌,
  ◌≤◌,
  ℕ,
  IfOk,
  IfSome,
  IsSome,
  IsTrue,
  OnErr,
  OnOk,
  Some,
  [],
  length,
  nat_eq,
  take,
};
ghost use Rattle.lru.specs.LruCache.{lru_cache, put_entries};
ghost use Rattle.plain_model.specs.Faults.{Returns};
ghost use Rattle.plain_model.specs.Histories.{IsLinkedPast, past, tree};
ghost use Rattle.plain_model.specs.Lookups.{find_event};
ghost use Rattle.plain_model.specs.Soundness.{IsCommitOf};
ghost use Rattle.plain_model.specs.declared.id.AnyId.TheVariants.{Commit};
ghost use Rattle.manifest_cache.specs.Checking.{Applies, Checks, HaveTrees, begun_of, links};
ghost use Rattle.edit_laws.specs.Checking.{tree_check};
ghost use Rattle.manifest_cache.specs.Kept.{AgreesWith};

use crate::changes::first_changed;
use crate::folding::tree_of;
use crate::listed::Listed;
use crate::walk::{Trees, first_parent};
use event_arena::Plan;
use lru::LruCache;
use path_tree::{ApplyFault, PathTree};
use plain_model::{
    AnyId, CommitId, Fault, FileOp, Halt, MAX_KEPT_TREES, Mark, NoMemory, PlainEvent, Steps,
};
use std::alloc::Global;
use std::num::NonZeroUsize;

// Marks the steps of a check.
struct Checking;

fn no_trees(alloc: Global) -> Result<Trees, NoMemory>
    ensures { IfOk result (λ made. made ≡ lru_cache [] 64) }
{
    let most = NonZeroUsize::new(MAX_KEPT_TREES as usize).unwrap();
    Ok(LruCache::sparse(alloc, most)?)
}

fn put(made: &mut Trees, commit: CommitId, tree: PathTree) -> Result<(), NoMemory>
    ensures ok { OnOk result
        (made.new ≡ lru_cache (put_entries nat_eq made.old commit tree) made.old.cap) }
    ensures err { OnErr result (made.new ≡ made.old) }
{
    made.put(commit.number(), tree)?;
    Ok(())
}

// Applies the operations of a commit with the mark, up to the first that is refused, which is reported.
fn apply_all(tree: &mut PathTree, ops: &[FileOp], mark: Mark) -> Result<(), Halt>
    ensures { Applies mark ops.now tree.old result tree.new }
{
    let mut steps: Steps<Checking> = Steps::new();
    for place in 0..ops.len() {
        match tree.apply(&ops[place], &mut steps) {
            Ok(()) => {}
            Err(ApplyFault::Memory) => return Err(Halt::Memory),
            Err(ApplyFault::MissingSource) => {
                let op = place as u64 + 1;
                return Err(Halt::Refused(Fault::MissingSource { mark, op }));
            }
            Err(ApplyFault::Limit { which, number }) => {
                return Err(Halt::Refused(Fault::Limit { which, number }));
            }
        }
    }
    Ok(())
}

// Whether a commit is among so many events in front.
fn is_in_front(plan: &Plan, front: usize, commit: CommitId) -> bool
    requires { front ≤ length plan.now.after }
    ensures { IsTrue result → IsSome (find_event (Commit commit) (take front plan.now.after)) }
{
    match plan.place(AnyId::Commit(commit)) {
        Some(place) => place < front,
        None => false,
    }
}

// The tree on which a commit with this first parent begins. That of a parent in front is what it was before.
fn begun(
    alloc: Global,
    kept: &Trees,
    made: &Trees,
    plan: &Plan,
    front: usize,
    parent: Option<CommitId>,
) -> Result<PathTree, NoMemory>
    requires kept { AgreesWith plan.now.before kept.now.entries }
    requires made { AgreesWith plan.now.after made.now.entries }
    requires within { front ≤ length plan.now.after }
    requires alike { links (take front plan.now.before) ≡ links (take front plan.now.after) }
    requires there { IfSome parent (λ p. IsSome (tree plan.now.after p)) }
    ensures { IfOk result (λ t. begun_of (tree plan.now.after) parent ≡ Some t) }
{
    // Their contracts say that no event is there twice, and that the history before was sound.
    let _ = plan.count();
    let _ = plan.old_count();
    let mut steps: Steps<Checking> = Steps::new();
    let Some(parent) = parent else {
        return PathTree::new(alloc);
    };
    if !is_in_front(plan, front, parent) {
        return tree_of(alloc, made, &Listed::After(plan), parent, &mut steps);
    }
    let tree = tree_of(alloc, kept, &Listed::Before(plan), parent, &mut steps)?;
    Ok(tree)
}

// Checks one event; the trees of those before it were made.
fn check_event(
    alloc: Global,
    kept: &Trees,
    made: &mut Trees,
    plan: &Plan,
    front: usize,
    place: usize,
) -> Result<(), Halt>
    requires kept { AgreesWith plan.now.before kept.now.entries }
    requires made { AgreesWith plan.now.after made.old.entries }
    requires within { front ≤ length plan.now.after }
    requires alike { links (take front plan.now.before) ≡ links (take front plan.now.after) }
    requires earlier { IsLinkedPast (past plan.now.after) }
    requires place { place < length plan.now.after }
    requires checked { HaveTrees plan.now.after (take place plan.now.after) }
    ensures checks { Checks plan.now.after place result }
    ensures made { AgreesWith plan.now.after made.new.entries }
{
    // Its contract says that no event is there twice.
    let _ = plan.count();
    let event = plan.nth(place);
    match event {
        PlainEvent::Commit { id, mark, ops, .. } => {
            let mut tree = begun(alloc, kept, made, plan, front, first_parent(event))?;
            match apply_all(&mut tree, ops.as_slice(), *mark) {
                Ok(()) => {
                    put(made, *id, tree)?;
                    Ok(())
                }
                Err(halt) => Err(halt),
            }
        }
        _ => Ok(()),
    }
}

/// Checks the events from the first on that a plan changes.
pub fn check(alloc: Global, kept: &Trees, plan: &Plan) -> Result<(), Halt>
    requires agrees { AgreesWith plan.now.before kept.now.entries }
    requires earlier { IsLinkedPast (past plan.now.after) }
    ensures checked { Returns (λ done. done) result (tree_check plan.now.after) }
    ensures trees { OnOk result
        ((c : ℕ) → IsCommitOf plan.now.after c → IsSome (tree plan.now.after c)) }
{
    // Its contract says that the history before was sound, so what is in front has trees.
    let _ = plan.old_count();
    let front = first_changed(plan);
    let mut made = no_trees(alloc)?;
    for place in front..plan.count() {
        check_event(alloc, kept, &mut made, plan, front, place)?;
    }
    Ok(())
}
