//! The plan of a squash.
ghost use Rattle.std.specs.Prelude.{◌≡◌, map, IfOk, MatchOption, None, OnOk};
ghost use Rattle.event_arena.specs.Plans.{Plans};
ghost use Rattle.graph_walk.specs.Expansions.{AreFew, parent_changes};
ghost use Rattle.manifest_cache.specs.Kept.{AgreesWith};
ghost use Rattle.plain_model.specs.Faults.{Returns};
ghost use Rattle.plain_model.specs.Histories.{IsLinkedPast, past};
ghost use Rattle.plain_model.specs.Soundness.{IsSound};
ghost use Rattle.squash_delete.specs.Judged.{AreMany, IsLeftOf, ParentsAre};
ghost use Rattle.plan_steps.specs.Leaving.{staying, with_own_parents};
ghost use Rattle.plan_steps.specs.Targets.{AreMoves};
ghost use Rattle.squash_laws.specs.Squash.{fault_before, squash_of, trees_checked};
ghost use Rattle.squash_laws.specs.Removed.{Takings};
ghost use Rattle.squash_laws.specs.Takings.{takes};

use crate::backing::fault_before;
use crate::counting::{Left, judge};
use crate::moving::{move_all, take_over};
use crate::parents::give_parents;
use crate::settling::settle_left;
use event_arena::{Events, Plan};
use graph_walk::{ParentChanges, parent_changes};
use manifest_cache::Manifests;
use plain_model::{AnyId, Halt, IdList, MAX_EVENTS, NoMemory, Policy, Push};
use plan_steps::{Selected, Targets, leaving_ids, sweep_removed, targets_of};
use squash_laws::a_squash_keeps_soundness;
use std::alloc::Global;

// The parents that commits get in place of removed ones, unless one gets more than a commit can have.
fn few_parents(
    alloc: Global,
    events: &Events,
    set: &IdList,
) -> Result<Option<ParentChanges>, NoMemory>
    ensures { IfOk result (λ found. MatchOption found
        (AreMany (parent_changes events.now.list set.now))
        (λ changes. (changes ≡ parent_changes events.now.list set.now)
        × AreFew (parent_changes events.now.list set.now))) }
{
    match parent_changes(alloc, events, set) {
        Ok(changes) => Ok(Some(changes)),
        Err(Halt::Refused(_)) => Ok(None),
        Err(Halt::Memory) => Err(NoMemory),
    }
}

// The trees of what is left, which only a deletion can break.
fn check_trees(manifests: &mut Manifests, plan: &Plan, push: Push) -> Result<(), Halt>
    requires agrees { AgreesWith plan.now.before manifests.old }
    requires earlier { IsLinkedPast (past plan.now.after) }
    ensures checked { Returns (λ done. done) result (trees_checked push plan.now.after) }
    ensures kept { manifests.new ≡ manifests.old }
{
    match push {
        Push::Discard => manifests.check(plan),
        Push::Forward | Push::Back => Ok(()),
    }
}

// Takes away the events that go.
fn take_away(
    alloc: Global,
    plan: &mut Plan,
    removal: &Selected,
    targets: &Targets,
) -> Result<(), NoMemory>
    requires { plan.old.after ≡ removal.now.events }
    ensures { OnOk result ((takes : Takings) →
        AreMoves removal.now.set takes.target removal.now.events targets.now.items →
        plan.new ≡ record plan.old { after = staying removal.now.set takes removal.now.events }) }
{
    let _count = plan.count();
    let ids = leaving_ids(alloc, removal, targets)?;
    plan.remove_all(&ids)
}

// Gives the commits that stay the parents that they get, if each gets few enough; answers whether it does.
fn set_parents(
    alloc: Global,
    events: &Events,
    removal: &Selected,
    plan: &mut Plan,
) -> Result<bool, NoMemory>
    requires { events.now.list ≡ removal.now.events }
    ensures { IfOk result (λ few. (takes : Takings) →
        plan.old.after ≡ staying removal.now.set takes removal.now.events → (parents_of : _)
        × ParentsAre removal.now.set removal.now.events takes few parents_of
        × (plan.new ≡ record plan.old {
          after = map (with_own_parents parents_of) (staying removal.now.set takes removal.now.events);
        })) }
{
    let _count = removal.count();
    match few_parents(alloc, events, removal.set())? {
        Some(changes) => {
            give_parents(plan, &changes)?;
            Ok(true)
        }
        None => Ok(false),
    }
}

// What a squash leaves of a plan's list, not settled yet. Where a history has no more events than it may have, its
// operations are judged while they are made, since a fork can repeat them without end.
fn remove_set(
    alloc: Global,
    events: &Events,
    removal: &Selected,
    plan: &mut Plan,
    how: Policy,
) -> Result<Left, NoMemory>
    requires list { events.now.list ≡ removal.now.events }
    requires after { plan.old.after ≡ removal.now.events }
    requires before { plan.old.before ≡ removal.now.events }
    ensures { IfOk result (λ left. IsLeftOf removal.now.set removal.now.events
        (takes removal.now.set removal.now.events how) plan.old left plan.new) }
{
    let targets = targets_of(alloc, removal, how)?;
    take_away(alloc, plan, removal, &targets)?;
    let few = set_parents(alloc, events, removal, plan)?;
    let bounded = removal.count() as u64 <= MAX_EVENTS;
    let whole = take_over(alloc, removal, plan, how.push, bounded)?;
    if !whole {
        return Ok(Left::ManyOperations);
    }
    move_all(removal, plan, &targets)?;
    sweep_removed(alloc, removal, plan)?;
    Ok(Left::All { few })
}

// Takes the events of a set out of a plan of their history, where no commit of it is one that can't be pushed back.
fn remove_all(
    alloc: Global,
    events: &Events,
    manifests: &mut Manifests,
    removal: &Selected,
    plan: &mut Plan,
    how: Policy,
) -> Result<(), Halt>
    requires list { events.now.list ≡ removal.now.events }
    requires agrees { AgreesWith removal.now.events manifests.old }
    requires sound { IsSound removal.now.events }
    requires none { fault_before how.push removal.now.set removal.now.events ≡ None }
    requires after { plan.old.after ≡ removal.now.events }
    requires before { plan.old.before ≡ removal.now.events }
    ensures answer { Returns (λ done. plan.new.after) result
        (squash_of how removal.now.set removal.now.events) }
    ensures others { OnOk result (plan.new ≡ record plan.old { after = plan.new.after }) }
    ensures sound { OnOk result (IsSound plan.new.after) }
    ensures kept { manifests.new ≡ manifests.old }
{
    let left = remove_set(alloc, events, removal, plan, how)?;
    if let Err(fault) = judge(plan, left) {
        return Err(Halt::Refused(fault));
    }
    if let Err(halt) = settle_left(alloc, removal, plan, how) {
        return Err(halt);
    }
    if let Err(halt) = check_trees(manifests, plan, how.push) {
        return Err(halt);
    }
    a_squash_keeps_soundness();
    Ok(())
}

/// The plan that removes the commits, tags, resets and passed lines of a set. Operations and comments of its commits go
/// forward to those that hang on them by first parents, back to the one that they hang on, or nowhere; tags and resets of
/// them move, or go with discarded commits; commits that stay have what stands for their parents. Refused by the first
/// commit that can't be pushed back, the first limit that is passed, or, after a deletion, the first operation that a tree
/// refuses. (reposurgeon manual, `squash`.)
pub fn squash(
    alloc: Global,
    events: &Events,
    manifests: &mut Manifests,
    set: &[AnyId],
    how: Policy,
) -> Result<Plan, Halt>
    requires { AgreesWith events.now.list manifests.old }
    ensures plans { Plans events.now events.now.next_id result
        (squash_of how set.now events.now.list) }
    ensures kept { manifests.new ≡ manifests.old }
{
    let _count = events.count();
    let removal = Selected::of(alloc, events, set)?;
    if let Some(fault) = fault_before(alloc, &removal, how.push)? {
        return Err(Halt::Refused(fault));
    }
    let mut plan = Plan::new(alloc, events)?;
    match remove_all(alloc, events, manifests, &removal, &mut plan, how) {
        Ok(()) => Ok(plan),
        Err(halt) => Err(halt),
    }
}
