//! What becomes of the events that stay, in a plan: what commits take over, and where tags and resets go.
ghost use Rattle.std.specs.Prelude.{
  ◌≡◌,
  ◌<◌,
  ◌≤◌,
  length,
  map,
  IfOk,
  IsSome,
  IsTrue,
  MatchOption,
  OnOk,
};
ghost use Rattle.event_arena.specs.Changes.{
  changed,
  has_target,
  with_comment,
  with_ops,
  with_target,
};
ghost use Rattle.plain_model.specs.Lookups.{find_event, id_of};
ghost use Rattle.plain_model.specs.declared.id.AnyId.TheVariants.{Commit};
ghost use Rattle.plan_steps.specs.Leaving.{event_after, staying, with_takings};
ghost use Rattle.squash_delete.specs.Sources.{
  AreSources,
  HasTakenOver,
  MovesOn,
  NoneTakes,
  TakesFrom,
  TakesOver,
  push_of,
};
ghost use Rattle.plan_steps.specs.Targets.{AreMoves};
ghost use Rattle.squash_laws.specs.Removed.{Takings};
ghost use Rattle.plain_model.specs.declared.policy.Push.TheVariants.{Discard};

use crate::chains::{LinkTable, begins_anew, carried, links};
use crate::hangings::{Hangings, hangings};
use crate::taking::{Taking, comment_taken, ops_taken};
use event_arena::Plan;
use plain_model::{AnyId, CommitId, MAX_OPERATIONS, NoMemory, OpList, PlainEvent, Push, Text};
use plan_steps::{Selected, lost_at, target_at};
use std::alloc::Global;

// Gives a commit that is there other operations and another comment.
fn set_both(plan: &mut Plan, commit: CommitId, ops: OpList, comment: Text) -> Result<(), NoMemory>
    requires { IsSome (find_event (Commit commit) plan.old.after) }
    ensures { OnOk result (plan.new ≡ record plan.old {
      after = changed (Commit commit) (λ event. with_comment comment (with_ops ops event)) plan.old.after;
    }) }
{
    plan.set_ops(commit, ops)?;
    plan.set_comment(AnyId::Commit(commit), comment)
}

/// Gives a commit other operations and another comment, if it is there.
pub fn give(plan: &mut Plan, commit: CommitId, ops: OpList, comment: Text) -> Result<(), NoMemory>
    ensures { OnOk result (plan.new ≡ record plan.old {
      after = changed (Commit commit) (λ event. with_comment comment (with_ops ops event)) plan.old.after;
    }) }
{
    match plan.place(AnyId::Commit(commit)) {
        Some(_) => set_both(plan, commit, ops, comment),
        None => Ok(()),
    }
}

// Lets the event at a place, which isn't a removed commit, take over what it does; answers how many operations it has then,
// or fewer.
fn take(
    alloc: Global,
    removal: &Selected,
    plan: &mut Plan,
    place: usize,
    taking: &Taking,
) -> Result<u64, NoMemory>
    requires { place < length removal.now.events }
    ensures { IfOk result (λ count. TakesOver removal.now.set removal.now.events taking.now place plan.old plan.new count) }
{
    let _count = removal.count();
    let PlainEvent::Commit {
        id,
        ops,
        comment,
        ..
    } = removal.nth(place)
    else {
        return Ok(0);
    };
    if taking.is_nothing() {
        return Ok(ops.as_slice().len() as u64);
    }
    let ops = ops_taken(alloc, removal.list(), taking, ops.as_slice())?;
    let comment = comment_taken(alloc, removal.list(), taking, comment.as_slice())?;
    let count = ops.as_slice().len() as u64;
    give(plan, *id, ops, comment)?;
    Ok(count)
}

/// Where commits that stay find what they take over: what is noted of the removed ones before them, or those that hang on
/// them.
#[derive(Drop)]
pub enum Sources {
    Before(LinkTable),
    After(Hangings),
}

// Those of a squash whose operations aren't discarded.
fn find_sources(alloc: Global, removal: &Selected, push: Push) -> Result<Option<Sources>, NoMemory>
    ensures { IfOk result (λ found. MatchOption found (push ≡ Discard)
        (λ sources. AreSources removal.now.set removal.now.events sources × (push_of sources ≡ push))) }
{
    match push {
        Push::Forward => Ok(Some(Sources::Before(links(alloc, removal)?))),
        Push::Back => Ok(Some(Sources::After(hangings(alloc, removal)?))),
        Push::Discard => Ok(None),
    }
}

// Lets the event at a place take over what its sources have for it; answers how many operations it has then, or fewer.
fn take_from(
    alloc: Global,
    removal: &Selected,
    plan: &mut Plan,
    place: usize,
    sources: &Sources,
) -> Result<u64, NoMemory>
    requires place { place < length removal.now.events }
    requires sources { AreSources removal.now.set removal.now.events sources.now }
    ensures { IfOk result (λ count.
        TakesFrom removal.now.set removal.now.events (push_of sources.now) place plan.old plan.new count) }
{
    let _count = removal.count();
    if removal.has_at(place) {
        return Ok(0);
    }
    match sources {
        Sources::Before(table) => {
            let parents = removal.nth(place).parents();
            let before = carried(alloc, removal, table, parents)?;
            let anew = begins_anew(removal, table, parents);
            take(
                alloc,
                removal,
                plan,
                place,
                &Taking::new(anew, &before, &[]),
            )
        }
        Sources::After(rows) => {
            let after = rows[place].as_slice();
            take(alloc, removal, plan, place, &Taking::new(false, &[], after))
        }
    }
}

// The next place, this one or a later one, of an event that may take over something; the end, where there is none. What is
// pushed forward goes to near events alone.
fn next_taking(removal: &Selected, sources: &Sources, place: usize) -> usize
    requires { place ≤ length removal.now.events }
    ensures later { place ≤ result }
    ensures within { result ≤ length removal.now.events }
    ensures apart { NoneTakes removal.now.set removal.now.events (push_of sources.now) place result }
{
    let _count = removal.count();
    match sources {
        Sources::Before(_) => removal.next_near(place),
        Sources::After(_) => place,
    }
}

// Lets all events take over what their sources have for them. Where that is bounded, it ends as soon as there are more
// operations than a history may have, and answers false.
fn take_all(
    alloc: Global,
    removal: &Selected,
    plan: &mut Plan,
    sources: &Sources,
    bounded: bool,
) -> Result<bool, NoMemory>
    requires { AreSources removal.now.set removal.now.events sources.now }
    ensures { IfOk result (λ whole.
        HasTakenOver removal.now.set removal.now.events (push_of sources.now) bounded plan.old plan.new whole) }
{
    let end = removal.count();
    let mut total: u64 = 0;
    let mut place = next_taking(removal, sources, 0);
    while place < end {
        let count = take_from(alloc, removal, plan, place, sources)?;
        if bounded {
            if MAX_OPERATIONS - total < count {
                return Ok(false);
            }
            total += count;
        }
        place = next_taking(removal, sources, place + 1);
    }
    Ok(true)
}

/// Gives the commits that stay the operations and comments of removed ones. Where that is bounded, it ends as soon as there
/// are more operations than a history may have, and answers false.
pub fn take_over(
    alloc: Global,
    removal: &Selected,
    plan: &mut Plan,
    push: Push,
    bounded: bool,
) -> Result<bool, NoMemory>
    ensures { IfOk result (λ whole.
        HasTakenOver removal.now.set removal.now.events push bounded plan.old plan.new whole) }
{
    match find_sources(alloc, removal, push)? {
        Some(sources) => take_all(alloc, removal, plan, &sources, bounded),
        None => Ok(true),
    }
}

// Puts a tag or a reset on another commit, if it is there.
fn retarget(plan: &mut Plan, event: &PlainEvent, target: CommitId) -> Result<(), NoMemory>
    requires { IsTrue (has_target (id_of event.now)) }
    ensures { OnOk result (plan.new ≡ record plan.old {
      after = changed (id_of event.now) (with_target target) plan.old.after;
    }) }
{
    match plan.place(event.id()) {
        Some(_) => plan.set_target(event.id(), target),
        None => Ok(()),
    }
}

// Puts the tag or the reset at a place on the commit to which it goes.
fn move_at(
    removal: &Selected,
    plan: &mut Plan,
    targets: &[Option<CommitId>],
    place: usize,
) -> Result<(), NoMemory>
    requires { place < length removal.now.events }
    ensures { OnOk result
        (MovesOn removal.now.set removal.now.events targets.now place plan.old plan.new) }
{
    let _count = removal.count();
    if removal.has_at(place) {
        return Ok(());
    }
    let Some(_lost) = lost_at(removal, place) else {
        return Ok(());
    };
    let Some(target) = target_at(targets, place) else {
        return Ok(());
    };
    retarget(plan, removal.nth(place), target)
}

/// Puts tags and resets on the commits to which they go.
pub fn move_all(
    removal: &Selected,
    plan: &mut Plan,
    targets: &[Option<CommitId>],
) -> Result<(), NoMemory>
    ensures { OnOk result ((par : _) (takes : Takings) → AreMoves removal.now.set takes.target removal.now.events targets.now →
        plan.old.after ≡ map (with_takings par takes) (staying removal.now.set takes removal.now.events) →
        plan.new ≡ record plan.old {
          after = map (event_after par takes) (staying removal.now.set takes removal.now.events);
        }) }
{
    let count = removal.count();
    let mut place = removal.next_near(0);
    while place < count {
        move_at(removal, plan, targets, place)?;
        place = removal.next_near(place + 1);
    }
    Ok(())
}
