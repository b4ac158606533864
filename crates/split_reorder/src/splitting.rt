//! The plan of a split.
ghost use Rattle.std.specs.Prelude.{◌≡◌, ◌+◌, ◌^◌, ◌<◌, ◌≤◌, None, length, map, IfOk, IsSome, OnOk};
ghost use Rattle.commit_laws.specs.Selected.{node_of};
ghost use Rattle.event_arena.specs.Plans.{Plans, leaving};
ghost use Rattle.plain_model.specs.Lookups.{find_event};
ghost use Rattle.plain_model.specs.declared.id.AnyId.TheVariants.{Commit};
ghost use Rattle.split_laws.specs.Split.{split_at_of, split_by_of, split_from, split_list};
ghost use Rattle.split_reorder.specs.Copies.{put_onto};

use crate::onto::put_all_onto;
use crate::touching::first_touch;
use event_arena::{Events, Plan};
use plain_model::{
    AnyId, CommitId, Copied, Fault, Halt, Mark, MarkList, NoMemory, OpList, ParentList, Path,
    PlainEvent, Shared, Text,
};
use plan_steps::{limit_passed, ops_of, the_commit};
use split_laws::a_split_keeps_soundness;
use std::alloc::Global;

// Leaves a commit so many of its operations, and puts its copy after it, which has the others.
fn cut(
    alloc: Global,
    events: &Events,
    plan: &mut Plan,
    commit: CommitId,
    copy: CommitId,
    mark: Mark,
    kept: usize,
) -> Result<(), NoMemory>
    requires within { kept ≤ length (node_of events.now.list commit).ops }
    requires there { IsSome (find_event (Commit commit) events.now.list) }
    requires moved { plan.old.after ≡ map (put_onto commit copy) events.now.list }
    requires unspent { plan.old.made_at ≤ copy }
    requires given { copy < plan.old.next }
    requires unknown { find_event (Commit copy) plan.old.after ≡ None }
    ensures { OnOk result (plan.new ≡ record plan.old {
      after = split_list commit copy mark kept events.now.list;
    }) }
{
    let _count = events.count();
    let event = events.event(AnyId::Commit(commit)).unwrap();
    let PlainEvent::Commit {
        branch,
        author,
        committer,
        encoding,
        comment,
        ops,
        ..
    } = event
    else {
        unreachable!()
    };
    let (first, second) = ops.as_slice().split_at(kept);
    let made = PlainEvent::Commit {
        id: copy,
        mark,
        branch: branch.copied(alloc)?,
        author: author.copied(alloc)?,
        committer: committer.copied(alloc)?,
        encoding: encoding.copied(alloc)?,
        comment: comment.copied(alloc)?,
        parents: ParentList::of(alloc, &[commit])?,
        ops: Shared::new(alloc, OpList::of(alloc, second)?)?,
        aliases: MarkList::of(alloc, &[])?,
    };
    plan.set_ops(commit, OpList::of(alloc, first)?)?;
    plan.insert_after(AnyId::Commit(commit), made)
}

// The plan of a commit that becomes two, of which the first keeps so many operations.
fn halved(
    alloc: Global,
    events: &Events,
    commit: CommitId,
    mark: Mark,
    kept: usize,
) -> Result<Plan, NoMemory>
    requires within { kept ≤ length (node_of events.now.list commit).ops }
    requires there { IsSome (find_event (Commit commit) events.now.list) }
    requires room { events.now.next_id < 2 ^ 63 }
    ensures { IfOk result (λ plan. plan
        ≡ record (leaving events.now (split_list commit events.now.next_id mark kept events.now.list)) {
          next = events.now.next_id + 1;
        }) }
{
    let _next = events.next_id();
    let mut plan = Plan::new(alloc, events)?;
    let copy = CommitId::new(plan.unused());
    put_all_onto(alloc, events, &mut plan, commit, copy)?;
    cut(alloc, events, &mut plan, commit, copy, mark, kept)?;
    Ok(plan)
}

// The plan of a commit that is split before the operation of a number.
fn split_from(alloc: Global, events: &Events, commit: CommitId, number: u64) -> Result<Plan, Halt>
    requires { events.now.next_id < 2 ^ 63 }
    ensures { Plans events.now (events.now.next_id + 1) result
        (split_from events.now.next_id commit number events.now.list) }
{
    let _count = events.count();
    let _next = events.next_id();
    if number < 2 || (ops_of(events, commit).len() as u64) < number {
        return Err(Halt::Refused(Fault::BadIndex { index: number }));
    }
    let Some(mark) = events.fresh_mark() else {
        return Err(Halt::Refused(Fault::MarksSpent));
    };
    let plan = halved(alloc, events, commit, mark, (number - 1) as usize)?;
    if let Some(fault) = limit_passed(&plan) {
        return Err(Halt::Refused(fault));
    }
    a_split_keeps_soundness();
    Ok(plan)
}

/// The plan that splits a commit before the operation of a number, from 1. The copy, which is put after it, has the
/// later operations and a new mark, and what was on the commit is on its copy. Refused where it isn't one commit, where
/// it has no such operation or that is the first, by want of marks, and by the first limit that is passed. (reposurgeon
/// manual, `split`.)
pub fn split_at(alloc: Global, events: &Events, set: &[AnyId], index: u64) -> Result<Plan, Halt>
    requires { events.now.next_id < 2 ^ 63 }
    ensures { Plans events.now (events.now.next_id + 1) result
        (split_at_of events.now.next_id index set.now events.now.list) }
{
    match the_commit(events, set) {
        Ok(commit) => split_from(alloc, events, commit, index),
        Err(fault) => Err(Halt::Refused(fault)),
    }
}

/// The plan that splits a commit before its first operation that touches a path: one of the operation's own, or one
/// above it. Where none does, it is refused after faults of the set. (reposurgeon manual, `split`.)
pub fn split_by(alloc: Global, events: &Events, set: &[AnyId], path: &Path) -> Result<Plan, Halt>
    requires { events.now.next_id < 2 ^ 63 }
    ensures { Plans events.now (events.now.next_id + 1) result
        (split_by_of events.now.next_id path.now set.now events.now.list) }
{
    let commit = match the_commit(events, set) {
        Ok(commit) => commit,
        Err(fault) => return Err(Halt::Refused(fault)),
    };
    let Some(number) = first_touch(path.as_bytes(), ops_of(events, commit)) else {
        let path = Text::of(alloc, path.as_bytes())?;
        return Err(Halt::Refused(Fault::NoSuchPath { path }));
    };
    split_from(alloc, events, commit, number)
}
