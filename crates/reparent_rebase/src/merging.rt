//! The plans of a merge and of an unmerge.
ghost use Rattle.std.specs.Prelude.{◌≡◌, take, IfOk};
ghost use Rattle.commit_laws.specs.Rewriting.{rewritten_all};
ghost use Rattle.event_arena.specs.Plans.{Plans, leaving};
ghost use Rattle.plain_model.specs.Faults.{Returns};
ghost use Rattle.reparent_laws.specs.Merge.{
  merge_of,
  merge_these,
  merges,
  unmerge_of,
  unmerges,
  with_parent,
};

use event_arena::{Events, Plan};
use plain_model::{AnyId, CommitId, Fault, Halt, NoMemory, ParentList};
use plan_steps::{
    anew, give_ops, give_parents, kind_fault, limit_passed, listed, ops_of, parents_of, the_commit,
};
use reparent_laws::a_change_keeps_soundness;
use std::alloc::Global;

// Parents with one more, the last, unless it is one already.
fn with_parent(
    alloc: Global,
    parent: CommitId,
    parents: &[CommitId],
) -> Result<ParentList, NoMemory>
    ensures { IfOk result (λ made. made ≡ with_parent parent parents.now) }
{
    let mut made = ParentList::of(alloc, parents)?;
    if !parents.contains(&parent) {
        made.push(parent)?;
    }
    Ok(made)
}

// The plan in which a commit has one more as its parent. A root begins without files then, as it did.
fn joined(alloc: Global, events: &Events, low: CommitId, high: CommitId) -> Result<Plan, NoMemory>
    ensures { IfOk result (λ plan. plan
        ≡ leaving events.now (rewritten_all high (merges low) events.now.list)) }
{
    let _count = events.count();
    let mut plan = Plan::new(alloc, events)?;
    let parents = parents_of(events, high);
    give_parents(&mut plan, high, with_parent(alloc, low, parents)?)?;
    if parents.is_empty() {
        give_ops(&mut plan, high, anew(alloc, ops_of(events, high))?)?;
    }
    Ok(plan)
}

// The plan in which the second of two commits has the first as one of its parents.
fn merge_these(alloc: Global, events: &Events, commits: &[CommitId]) -> Result<Plan, Halt>
    ensures answer { Returns (λ plan. plan.after) result (merge_these events.now.list commits.now) }
    ensures made { IfOk result (λ plan. plan ≡ leaving events.now plan.after) }
{
    let [low, high] = commits else {
        let found = commits.len() as u64;
        return Err(Halt::Refused(Fault::WrongCount { found }));
    };
    let plan = joined(alloc, events, *low, *high)?;
    match limit_passed(&plan) {
        Some(fault) => Err(Halt::Refused(fault)),
        None => Ok(plan),
    }
}

/// The plan that makes one of two commits a parent of the other: the one with the lesser event number becomes the last
/// parent of the one with the greater. A root that gets a parent begins without files, as it did. Refused where it
/// isn't two events, where one of them isn't a commit, and by the first limit that is passed. (reposurgeon manual,
/// `merge`.)
pub fn merge(alloc: Global, events: &Events, set: &[AnyId]) -> Result<Plan, Halt>
    ensures { Plans events.now events.now.next_id result (merge_of set.now events.now.list) }
{
    let _count = events.count();
    if set.len() != 2 {
        let found = set.len() as u64;
        return Err(Halt::Refused(Fault::WrongCount { found }));
    }
    if let Some(fault) = kind_fault(events, set) {
        return Err(Halt::Refused(fault));
    }
    let commits = listed(alloc, events, set)?;
    match merge_these(alloc, events, commits.as_slice()) {
        Ok(plan) => {
            a_change_keeps_soundness();
            Ok(plan)
        }
        Err(halt) => Err(halt),
    }
}

// The first parent alone.
fn first_alone(alloc: Global, parents: &[CommitId]) -> Result<ParentList, NoMemory>
    ensures { IfOk result (λ made. made ≡ take 1 parents.now) }
{
    match parents.first() {
        Some(first) => ParentList::of(alloc, &[*first]),
        None => ParentList::new(alloc),
    }
}

// The plan in which a commit keeps its first parent alone.
fn parted(alloc: Global, events: &Events, commit: CommitId) -> Result<Plan, NoMemory>
    ensures { IfOk result (λ plan. plan
        ≡ leaving events.now (rewritten_all commit unmerges events.now.list)) }
{
    let _count = events.count();
    let mut plan = Plan::new(alloc, events)?;
    let parents = first_alone(alloc, parents_of(events, commit))?;
    give_parents(&mut plan, commit, parents)?;
    Ok(plan)
}

/// The plan that leaves a commit its first parent alone, and its tree with it. Refused where it isn't one commit.
/// (reposurgeon manual, `unmerge`.)
pub fn unmerge(alloc: Global, events: &Events, set: &[AnyId]) -> Result<Plan, Halt>
    ensures { Plans events.now events.now.next_id result (unmerge_of set.now events.now.list) }
{
    let _count = events.count();
    let commit = match the_commit(events, set) {
        Ok(commit) => commit,
        Err(fault) => return Err(Halt::Refused(fault)),
    };
    let plan = parted(alloc, events, commit)?;
    a_change_keeps_soundness();
    Ok(plan)
}
