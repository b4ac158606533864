//! The plan of a reparent.
ghost use Rattle.std.specs.Prelude.{◌≡◌, length, IfOk, IsSome, IsTrue};
ghost use Rattle.std.specs.List.{AllByRecursion};
ghost use Rattle.ancestry_laws.specs.Ancestry.{descendants_of, descends};
ghost use Rattle.commit_laws.specs.Rewriting.{rewritten_all};
ghost use Rattle.edit_laws.specs.Selecting.{IsSelection};
ghost use Rattle.event_arena.specs.Plans.{Plans, leaving};
ghost use Rattle.graph_walk.specs.Flags.{FlagsOf};
ghost use Rattle.manifest_cache.specs.Kept.{AgreesWith};
ghost use Rattle.plain_model.specs.Faults.{Returns};
ghost use Rattle.plain_model.specs.Histories.{IsLinkedPast, past};
ghost use Rattle.plain_model.specs.Lookups.{find_event};
ghost use Rattle.plain_model.specs.Snapshots.{commit_mark};
ghost use Rattle.plain_model.specs.Soundness.{IsCommitOf, are_distinct};
ghost use Rattle.plain_model.specs.declared.id.AnyId.TheVariants.{Commit};
ghost use Rattle.reparent_laws.specs.Faults.{unless_fault};
ghost use Rattle.reparent_laws.specs.Reparent.{
  descendant,
  fault_after,
  have_same_first,
  ordered,
  reparent_commit,
  reparent_last,
  reparent_of,
  reparents,
};

use crate::judging::{judge, judge_limits};
use crate::written::written_out;
use commit_laws::a_selection_has_its_commits_once;
use event_arena::{Events, Plan};
use graph_walk::{descendants, flags_of};
use manifest_cache::Manifests;
use plain_model::{AnyId, CommitId, Fault, Halt, Items, Mark, NoMemory, ParentList, PlainEvent};
use plan_steps::{
    chosen, give_ops, give_parents, kind_fault, listed, ops_of, parents_of, put_in_order,
};
use reparent_laws::{a_change_keeps_soundness, settling_comes_to_its_end};
use std::alloc::Global;

// Whether a commit has a flag: if those that descend from some have one, whether it is one of them.
fn is_flagged(events: &Events, flags: &[bool], commit: CommitId) -> bool
    requires { length flags.now ≡ length events.now.list }
    ensures { (set : _) → FlagsOf events.now.list (descendants_of events.now.list set) flags.now →
        result ≡ descends events.now.list set commit }
{
    match events.place(AnyId::Commit(commit)) {
        Some(place) => flags[place],
        None => false,
    }
}

// The first of some commits that descends from a commit, all found by one walk.
fn descendant(
    alloc: Global,
    events: &Events,
    commit: CommitId,
    parents: &[CommitId],
) -> Result<Option<CommitId>, NoMemory>
    ensures { IfOk result (λ found. found ≡ descendant events.now.list commit parents.now) }
{
    let ids = descendants(alloc, events, &[commit])?;
    let flags = flags_of(alloc, events.table(), ids.as_slice())?;
    for parent in parents {
        if is_flagged(events, &flags, *parent) {
            return Ok(Some(*parent));
        }
    }
    Ok(None)
}

// The mark of a commit.
fn commit_mark(events: &Events, commit: CommitId) -> Mark
    requires { IsSome (find_event (Commit commit) events.now.list) }
    ensures { result ≡ commit_mark events.now.list commit }
{
    let event = events.event(AnyId::Commit(commit)).unwrap();
    let PlainEvent::Commit { mark, .. } = event else {
        unreachable!()
    };
    *mark
}

/// Whether two lists of parents begin with the same one, or are both empty.
pub fn have_same_first(parents: &[CommitId], others: &[CommitId]) -> bool
    ensures { result ≡ have_same_first parents.now others.now }
{
    match (parents, others) {
        ([], []) => true,
        ([one, ..], [other, ..]) => *one == *other,
        _ => false,
    }
}

// The plan in which a commit has these parents, not settled yet.
fn with_parents(
    alloc: Global,
    events: &Events,
    manifests: &mut Manifests,
    commit: CommitId,
    parents: &[CommitId],
    rebase: bool,
) -> Result<Plan, NoMemory>
    requires agrees { AgreesWith events.now.list manifests.old }
    ensures made { IfOk result (λ plan. plan
        ≡ leaving events.now
        (rewritten_all commit (reparents rebase events.now.list parents.now) events.now.list)) }
    ensures kept { AgreesWith events.now.list manifests.new }
{
    let _count = events.count();
    let mut plan = Plan::new(alloc, events)?;
    give_parents(&mut plan, commit, ParentList::of(alloc, parents)?)?;
    let old = parents_of(events, commit);
    if rebase || have_same_first(old, parents) {
        return Ok(plan);
    }
    let ops = written_out(alloc, events, manifests, old, ops_of(events, commit))?;
    give_ops(&mut plan, commit, ops)?;
    Ok(plan)
}

// What is wrong with a plan: a limit, and after a rebase a tree.
fn judge_after(manifests: &mut Manifests, plan: &Plan, rebase: bool) -> Result<(), Halt>
    requires agrees { AgreesWith plan.now.before manifests.old }
    requires earlier { IsLinkedPast (past plan.now.after) }
    ensures judged { Returns (λ _. plan.now.after) result
        (unless_fault (fault_after rebase plan.now.after) plan.now.after) }
    ensures kept { manifests.new ≡ manifests.old }
{
    if rebase {
        judge(manifests, plan)
    } else {
        judge_limits(plan)
    }
}

// The plan in which a commit has these parents, unless one of them descends from it.
fn reparent_commit(
    alloc: Global,
    events: &Events,
    manifests: &mut Manifests,
    commit: CommitId,
    parents: &[CommitId],
    rebase: bool,
) -> Result<Plan, Halt>
    requires agrees { AgreesWith events.now.list manifests.old }
    requires commit { IsCommitOf events.now.list commit }
    requires parents { AllByRecursion (IsCommitOf events.now.list) parents.now }
    requires once { IsTrue (are_distinct parents.now) }
    ensures answer { Returns (λ plan. plan.after) result
        (reparent_commit rebase events.now.list commit parents.now) }
    ensures made { IfOk result (λ plan. plan ≡ leaving events.now plan.after) }
    ensures kept { AgreesWith events.now.list manifests.new }
{
    let _count = events.count();
    let found = descendant(alloc, events, commit, parents)?;
    if let Some(parent) = found {
        let mark = commit_mark(events, parent);
        return Err(Halt::Refused(Fault::Cycle { mark }));
    }
    settling_comes_to_its_end();
    let mut plan = with_parents(alloc, events, manifests, commit, parents, rebase)?;
    put_in_order(alloc, &mut plan)?;
    match judge_after(manifests, &plan, rebase) {
        Ok(()) => Ok(plan),
        Err(halt) => Err(halt),
    }
}

// The plan in which the last of some commits has the others as its parents.
fn reparent_last(
    alloc: Global,
    events: &Events,
    manifests: &mut Manifests,
    commits: &[CommitId],
    rebase: bool,
) -> Result<Plan, Halt>
    requires agrees { AgreesWith events.now.list manifests.old }
    requires commits { AllByRecursion (IsCommitOf events.now.list) commits.now }
    requires once { IsTrue (are_distinct commits.now) }
    ensures answer { Returns (λ plan. plan.after) result
        (reparent_last rebase events.now.list commits.now) }
    ensures made { IfOk result (λ plan. plan ≡ leaving events.now plan.after) }
    ensures kept { AgreesWith events.now.list manifests.new }
{
    match commits.split_last() {
        Some((commit, parents)) => {
            reparent_commit(alloc, events, manifests, *commit, parents, rebase)
        }
        None => Err(Halt::Refused(Fault::WrongCount { found: 0 })),
    }
}

// The commits of a selection, in its order or in that of the list.
fn ordered(
    alloc: Global,
    events: &Events,
    set: &[AnyId],
    use_order: bool,
) -> Result<Items<CommitId>, NoMemory>
    ensures { IfOk result (λ commits. commits ≡ ordered use_order set.now events.now.list) }
{
    if use_order {
        chosen(alloc, set)
    } else {
        listed(alloc, events, set)
    }
}

/// The plan that gives the last of some commits those before it as its parents, in the order of the list, or in that of
/// the selection with `use_order`. The commit keeps its tree, which is written out where its first parent becomes
/// another one; with `rebase` it keeps its operations instead. It comes after its new parents. Refused where there is
/// no commit or something else, where a new parent descends from the commit, by the first limit that is passed, and
/// with `rebase` by the first operation that a tree refuses. (reposurgeon manual, `reparent`.)
pub fn reparent(
    alloc: Global,
    events: &Events,
    manifests: &mut Manifests,
    set: &[AnyId],
    use_order: bool,
    rebase: bool,
) -> Result<Plan, Halt>
    requires selection { IsSelection events.now.list set.now }
    requires agrees { AgreesWith events.now.list manifests.old }
    ensures plans { Plans events.now events.now.next_id result
        (reparent_of use_order rebase set.now events.now.list) }
    ensures kept { AgreesWith events.now.list manifests.new }
{
    let _count = events.count();
    if let Some(fault) = kind_fault(events, set) {
        return Err(Halt::Refused(fault));
    }
    let commits = ordered(alloc, events, set, use_order)?;
    a_selection_has_its_commits_once();
    match reparent_last(alloc, events, manifests, commits.as_slice(), rebase) {
        Ok(plan) => {
            a_change_keeps_soundness();
            Ok(plan)
        }
        Err(halt) => Err(halt),
    }
}
