//! The plan of a renumbering.
ghost use Rattle.std.specs.Prelude.{◌≡◌, ◌≤◌, ◌+◌, Some, length, IfOk, IfSome, IsSome, IsTrue, OnOk};
ghost use Rattle.std.specs.Bool.{OnTrue};
ghost use Rattle.event_arena.specs.Changes.{changed, has_mark, with_aliases, with_mark};
ghost use Rattle.event_arena.specs.Plans.{IsPlanOf};
ghost use Rattle.plain_model.specs.Lookups.{event_marks, find_event, id_of};
ghost use Rattle.plain_model.specs.Marks.{IsMark};
ghost use Rattle.plain_model.specs.Soundness.{IsSound};
ghost use Rattle.plain_model.specs.declared.id.AnyId.TheVariants.{Commit};
ghost use Rattle.plain_model.specs.declared.limit.TheConstants.{MAX_MARK};
ghost use Rattle.renumbering.specs.Renumbered.{marked_from, marks_from, renumbered};

use event_arena::{Events, Plan};
use plain_model::{AnyId, CommitId, Mark, MarkList, NoMemory, PlainEvent};
use std::alloc::Global;

// As many marks as these, from the first on.
fn marks_from(alloc: Global, first: u64, marks: &[Mark]) -> Result<MarkList, NoMemory>
    requires low { 1 ≤ first }
    requires fits { first + length marks.now ≤ MAX_MARK + 1 }
    ensures { IfOk result (λ list. list ≡ marks_from first marks.now) }
{
    let mut list = MarkList::new(alloc)?;
    for done in 0..marks.len() {
        list.push(Mark::new(first + done as u64).unwrap())?;
    }
    Ok(list)
}

// Whether the marks go on from the first.
fn go_from(first: u64, marks: &[Mark]) -> bool
    requires { first + length marks.now ≤ MAX_MARK + 1 }
    ensures { OnTrue result (marks.now ≡ marks_from first marks.now) }
{
    let mut next = first;
    for mark in marks {
        if mark.number() != next {
            return false;
        }
        next += 1;
    }
    true
}

// Gives an event that has the one mark the other.
fn give_mark(plan: &mut Plan, id: AnyId, old: Mark, new: u64) -> Result<(), NoMemory>
    requires there { IsSome (find_event id plan.old.after) }
    requires field { IfSome (find_event id plan.old.after) (λ event. IsTrue (has_mark event)) }
    requires own { IfSome (find_event id plan.old.after) (λ event. with_mark old event ≡ event) }
    requires fits { IsMark new }
    ensures { OnOk result
        (plan.new ≡ record plan.old { after = changed id (with_mark new) plan.old.after }) }
{
    if old.number() == new {
        return Ok(());
    }
    plan.set_mark(id, Mark::new(new).unwrap())
}

// Gives a commit that has these aliases as many from the first on.
fn give_aliases(
    alloc: Global,
    plan: &mut Plan,
    id: CommitId,
    old: &[Mark],
    first: u64,
) -> Result<(), NoMemory>
    requires there { IsSome (find_event (Commit id) plan.old.after) }
    requires own { IfSome (find_event (Commit id) plan.old.after)
        (λ event. with_aliases old.now event ≡ event) }
    requires low { 1 ≤ first }
    requires fits { first + length old.now ≤ MAX_MARK + 1 }
    ensures { OnOk result (plan.new ≡ record plan.old {
      after = changed (Commit id) (with_aliases (marks_from first old.now)) plan.old.after;
    }) }
{
    if go_from(first, old) {
        return Ok(());
    }
    plan.set_aliases(id, marks_from(alloc, first, old)?)
}

// Gives an event its marks from the next one on, and answers which is next after them.
fn give_marks(
    alloc: Global,
    plan: &mut Plan,
    event: &PlainEvent,
    next: u64,
) -> Result<u64, NoMemory>
    requires there { find_event (id_of event.now) plan.old.after ≡ Some event.now }
    requires low { 1 ≤ next }
    requires fits { next + length (event_marks event.now) ≤ MAX_MARK + 1 }
    ensures given { OnOk result (plan.new ≡ record plan.old {
      after = changed (id_of event.now) (marked_from next) plan.old.after;
    }) }
    ensures next { IfOk result (λ after. after ≡ next + length (event_marks event.now)) }
{
    match event {
        PlainEvent::Blob { id, mark, .. } => {
            give_mark(plan, AnyId::Blob(*id), *mark, next)?;
            Ok(next + 1)
        }
        PlainEvent::Commit {
            id,
            mark,
            aliases,
            ..
        } => {
            give_aliases(alloc, plan, *id, aliases.as_slice(), next + 1)?;
            give_mark(plan, AnyId::Commit(*id), *mark, next)?;
            Ok(next + 1 + aliases.as_slice().len() as u64)
        }
        PlainEvent::Tag { id, mark, .. } => match mark {
            Some(mark) => {
                give_mark(plan, AnyId::Tag(*id), *mark, next)?;
                Ok(next + 1)
            }
            None => Ok(next),
        },
        PlainEvent::Reset { .. } => Ok(next),
        PlainEvent::Pass { .. } => Ok(next),
    }
}

// Goes over the events once, and gives each its marks.
fn give_all(alloc: Global, events: &Events, plan: &mut Plan) -> Result<(), NoMemory>
    requires { plan.old.after ≡ events.now.list }
    ensures given { OnOk result
        (plan.new ≡ record plan.old { after = renumbered events.now.list }) }
    ensures sound { OnOk result (IsSound plan.new.after) }
{
    let mut next: u64 = 1;
    for place in 0..events.count() {
        next = give_marks(alloc, plan, events.nth(place), next)?;
    }
    Ok(())
}

/// The plan that gives the marks 1, 2, 3, .. in the order of the list: to a blob its mark, to a commit its mark and
/// then its aliases, to a tag its mark where it has one. There are always enough, since marks occur once. An event
/// whose marks are right already isn't copied.
pub fn renumber(alloc: Global, events: &Events) -> Result<Plan, NoMemory>
    ensures plan { IfOk result (IsPlanOf events.now events.now.next_id) }
    ensures after { IfOk result (λ plan. plan.after ≡ renumbered events.now.list) }
{
    let mut plan = Plan::new(alloc, events)?;
    give_all(alloc, events, &mut plan)?;
    Ok(plan)
}
