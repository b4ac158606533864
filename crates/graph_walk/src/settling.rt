//! The settled order of a plan's list.
ghost use Rattle.std.specs.Prelude.{
  ◌≡◌,
  ◌<◌,
  ◌≤◌,
  ◌+◌,
  ◌∷◌,
  ◌++◌,
  [],
  None,
  Ok,
  Some,
  drop,
  false,
  find,
  length,
  slice_get,
  slice_index_or,
  take,
  true,
  IfErr,
  IfNone,
  IfOk,
  IfSome,
  IsTrue,
  MatchOption,
  OnErr,
  OnOk,
};
ghost use Rattle.graph_walk.specs.Slots.{IsOpenAt, are_flagged, is_flagged_until};
ghost use Rattle.std.specs.Bool.{OnTrue};
ghost use Rattle.event_arena.specs.Changes.{IsOrderOf, in_order, without_all};
ghost use Rattle.graph_walk.specs.Taking.{can_be_taken};
ghost use Rattle.graph_walk.specs.Outcome.{GoesOn, IsCauseOf, IsCircular};
ghost use Rattle.edit_laws.specs.Settling.{first_commit_mark, is_ready, settle};
ghost use Rattle.edit_laws.specs.Parts.{AreComplete};
ghost use Rattle.graph_walk.specs.UnderWay.{ComesToHand, IsTakenNext, IsUnderWay};
ghost use Rattle.plain_model.specs.Lookups.{id_of, referents_of};
ghost use Rattle.plain_model.specs.Soundness.{has_id};

use crate::referents::{referent, slot_count};
use crate::waiting::{Ready, Waiter, Waiting};
use edit_laws::{settling_ends_where_nothing_runs_in_a_circle, settling_orders};
use event_arena::Plan;
use plain_model::{AnyId, Fault, Halt, IdList, Mark, NoMemory, PlainEvent};
use std::alloc::Global;

// Whether the event with the id is before a place.
fn is_before(plan: &Plan, id: AnyId, place: usize) -> bool
    ensures { OnTrue result (IsTrue (has_id (take place plan.now.after) id)) }
{
    match plan.place(id) {
        Some(at) => at < place,
        None => false,
    }
}

// Whether all that an event refers to is before a place.
fn is_after(plan: &Plan, event: &PlainEvent, place: usize) -> bool
    ensures { OnTrue result (IsTrue (is_ready (take place plan.now.after) event.now)) }
{
    for slot in 0..slot_count(event) {
        if let Some(id) = referent(event, slot) {
            if !is_before(plan, id, place) {
                return false;
            }
        }
    }
    true
}

/// Whether the event at a place is after all that it refers to. A blob, at which it doesn't look, refers to nothing.
pub fn is_ready_at(plan: &Plan, place: usize) -> bool
    requires { place < length plan.now.after }
    ensures { (event : _) → slice_get plan.now.after place ≡ Some event →
        OnTrue result (is_ready (take place plan.now.after) event ≡ true) }
{
    match plan.after().id_at(place) {
        AnyId::Blob(_) => true,
        _ => is_after(plan, plan.nth(place), place),
    }
}

// Whether each event is after all that it refers to. Then the list is its own settled order.
fn is_settled(plan: &Plan) -> bool
    ensures { OnTrue result (settle plan.now.after ≡ Ok plan.now.after) }
{
    for place in 0..plan.count() {
        if !is_ready_at(plan, place) {
            return false;
        }
    }
    settling_orders();
    true
}

// The first slot from one on that names an event without a flag, and the place of that event.
fn first_open(
    plan: &Plan,
    flags: &[bool],
    event: &PlainEvent,
    from: usize,
) -> Option<(usize, usize)>
    requires there { IsTrue (is_ready plan.now.after event.now) }
    requires flags { length flags.now ≡ length plan.now.after }
    requires begun { is_flagged_until flags.now plan.now.after event.now from ≡ true }
    ensures { MatchOption result
        (are_flagged flags.now plan.now.after (referents_of event.now) ≡ true)
        (λ found. IsOpenAt flags.now plan.now.after event.now found.0 found.1) }
{
    for slot in from..slot_count(event) {
        if let Some(id) = referent(event, slot) {
            let place = plan.place(id).unwrap();
            if !flags[place] {
                return Some((slot, place));
            }
        }
    }
    None
}

/// A list that is being settled: the ids of the events that are taken, in their order; whether the event at each
/// place is taken; and which of the events before `next` are ready to be taken, and which wait for another.
#[derive(Drop)]
pub struct Progress<'a> {
    plan: &'a Plan,
    order: IdList,
    taken: Vec<bool>,
    ready: Ready,
    waiting: Waiting,
    next: usize,
}

impl<'a> Progress<'a> {
    fn new(alloc: Global, plan: &'a Plan) -> Result<Progress<'a>, NoMemory>
        ensures plan { IfOk result (λ made. made.plan.now.after ≡ plan.now.after) }
        ensures order { IfOk result (λ made. made.order ≡ []) }
        ensures under_way { IfOk result (λ made. IsUnderWay [] made) }
    {
        let count = plan.count();
        Ok(Progress {
            plan,
            order: IdList::new(alloc)?,
            taken: vec![in alloc; false; count]?,
            ready: Ready::new(alloc),
            waiting: Waiting::new(alloc, count)?,
            next: 0,
        })
    }

    // Puts one of those that were woken among those that are ready, or those that wait.
    fn put(&mut self, woken: &[Waiter], index: usize) -> Result<(), NoMemory>
        requires there { AreComplete self.old.plan.now.after }
        requires index { index < length woken.now }
        requires under_way { IsUnderWay (drop index woken.now) self.old }
        ensures plan { self.new.plan.now.after ≡ self.old.plan.now.after }
        ensures order { self.new.order ≡ self.old.order }
        ensures under_way { OnOk result (IsUnderWay (drop (index + 1) woken.now) self.new) }
    {
        let waiter = woken[index];
        let event = self.plan.nth(waiter.place);
        match first_open(self.plan, self.taken.as_slice(), event, waiter.slot) {
            Some((slot, at)) => {
                let place = waiter.place;
                self.waiting.add(at, Waiter { place, slot })
            }
            None => self.ready.add(waiter.place),
        }
    }

    // Puts all of them there.
    fn put_all(&mut self, woken: &[Waiter]) -> Result<(), NoMemory>
        requires there { AreComplete self.old.plan.now.after }
        requires under_way { IsUnderWay woken.now self.old }
        ensures plan { self.new.plan.now.after ≡ self.old.plan.now.after }
        ensures order { self.new.order ≡ self.old.order }
        ensures under_way { OnOk result (IsUnderWay [] self.new) }
    {
        for index in 0..woken.len() {
            self.put(woken, index)?;
        }
        Ok(())
    }

    // Takes the event at a place, and answers which waited for it.
    fn mark(&mut self, place: usize) -> Result<Vec<Waiter>, NoMemory>
        requires at_hand { IsUnderWay (record { place = place; slot = 0 } ∷ []) self.old }
        ensures plan { self.new.plan.now.after ≡ self.old.plan.now.after }
        ensures order { OnOk result ((event : _) → slice_get self.old.plan.now.after place ≡ Some event
            → self.new.order ≡ self.old.order ++ id_of event ∷ []) }
        ensures under_way { IfOk result (λ woken. IsUnderWay woken.items self.new) }
    {
        let _count = self.plan.count();
        let id = self.plan.nth(place).id();
        self.order.push(id)?;
        self.taken[place] = true;
        Ok(self.waiting.release(place))
    }

    // Takes the event at a place, and sees to those that waited for it.
    fn take(&mut self, place: usize) -> Result<(), NoMemory>
        requires there { AreComplete self.old.plan.now.after }
        requires at_hand { IsUnderWay (record { place = place; slot = 0 } ∷ []) self.old }
        ensures plan { self.new.plan.now.after ≡ self.old.plan.now.after }
        ensures order { OnOk result ((event : _) → slice_get self.old.plan.now.after place ≡ Some event
            → self.new.order ≡ self.old.order ++ id_of event ∷ []) }
        ensures under_way { OnOk result (IsUnderWay [] self.new) }
    {
        let woken = self.mark(place)?;
        self.put_all(woken.as_slice())
    }

    // The earliest of those that are ready.
    fn pop(&mut self) -> Option<usize>
        requires under_way { IsUnderWay [] self.old }
        ensures plan { self.new.plan.now.after ≡ self.old.plan.now.after }
        ensures order { self.new.order ≡ self.old.order }
        ensures next { self.new.next ≡ self.old.next }
        ensures cases { MatchOption result
            ((self.new.ready ≡ []) × IsUnderWay [] self.new)
            (λ place. ComesToHand self.new place) }
    {
        while let Some(place) = self.ready.pop() {
            if !self.taken[place] {
                return Some(place);
            }
        }
        None
    }

    // Looks at the next places, up to one that is ready.
    fn look(&mut self) -> Result<Option<usize>, NoMemory>
        requires there { AreComplete self.old.plan.now.after }
        requires under_way { IsUnderWay [] self.old }
        requires none { self.old.ready ≡ [] }
        ensures plan { self.new.plan.now.after ≡ self.old.plan.now.after }
        ensures order { self.new.order ≡ self.old.order }
        ensures cases { IfOk result (λ found. MatchOption found
            ((self.new.ready ≡ []) × (length self.new.plan.now.after ≤ self.new.next) × IsUnderWay [] self.new)
            (λ place. ComesToHand self.new place)) }
    {
        while self.next < self.plan.count() {
            let place = self.next;
            let event = self.plan.nth(place);
            self.next = place + 1;
            match first_open(self.plan, self.taken.as_slice(), event, 0) {
                Some((slot, at)) => self.waiting.add(at, Waiter { place, slot })?,
                None => return Ok(Some(place)),
            }
        }
        Ok(None)
    }

    // The place of the event that is taken next, if there is one.
    fn next_place(&mut self) -> Result<Option<usize>, NoMemory>
        requires there { AreComplete self.old.plan.now.after }
        requires under_way { IsUnderWay [] self.old }
        ensures plan { self.new.plan.now.after ≡ self.old.plan.now.after }
        ensures order { self.new.order ≡ self.old.order }
        ensures none { IfOk result (λ found. IfNone found
            ((find (can_be_taken self.new.order) self.new.plan.now.after ≡ None) × IsUnderWay [] self.new)) }
        ensures some { IfOk result (λ found. IfSome found
            (λ place. IsTakenNext self.new place)) }
    {
        let _count = self.plan.count();
        if let Some(place) = self.pop() {
            return Ok(Some(place));
        }
        let found = self.look()?;
        Ok(found)
    }

    // Takes one event after another, as long as one can be taken.
    fn run(&mut self) -> Result<(), NoMemory>
        requires there { AreComplete self.old.plan.now.after }
        requires under_way { IsUnderWay [] self.old }
        requires none { self.old.order ≡ [] }
        ensures plan { self.new.plan.now.after ≡ self.old.plan.now.after }
        ensures ended { OnOk result (GoesOn self.new.plan.now.after 0 self.new.order) }
        ensures under_way { OnOk result (IsUnderWay [] self.new) }
    {
        let _count = self.plan.count();
        'turns: loop {
            let Some(place) = self.next_place()? else {
                return Ok(());
            };
            self.take(place)?;
        }
    }

    // The mark of the earliest commit that isn't taken.
    fn first_left(&self) -> Option<Mark>
        requires under_way { IsUnderWay [] self.now }
        ensures { result ≡ first_commit_mark (without_all self.now.order self.now.plan.now.after) }
    {
        for place in 0..self.plan.count() {
            if !self.taken[place] {
                if let PlainEvent::Commit { mark, .. } = self.plan.nth(place) {
                    return Some(*mark);
                }
            }
        }
        None
    }
}

// The ids in their settled order and, where some are never taken, the mark of the first commit among those.
fn turns(alloc: Global, plan: &Plan) -> Result<(IdList, Option<Mark>), NoMemory>
    requires { AreComplete plan.now.after }
    ensures { IfOk result (λ r. MatchOption r.1
        ((settle plan.now.after ≡ Ok (in_order r.0 plan.now.after)) × IsOrderOf r.0 plan.now.after)
        (IsCircular plan.now.after)) }
{
    let mut progress = Progress::new(alloc, plan)?;
    progress.run()?;
    settling_ends_where_nothing_runs_in_a_circle();
    let left = progress.first_left();
    Ok((progress.order, left))
}

/// Puts the events of a plan into their settled order: again and again the earliest one whose referents are all
/// taken. Refused exactly where some event is never taken, with the first commit among those.
pub fn settle(alloc: Global, plan: &mut Plan) -> Result<(), Halt>
    requires { AreComplete plan.old.after }
    ensures settled { OnOk result (settle plan.old.after ≡ Ok plan.new.after) }
    ensures others { plan.new ≡ record plan.old { after = plan.new.after } }
    ensures cause { IfErr result (IsCauseOf plan.old.after) }
    ensures err { OnErr result (plan.new ≡ plan.old) }
{
    if is_settled(plan) {
        return Ok(());
    }
    let (order, left) = turns(alloc, plan)?;
    match left {
        Some(mark) => Err(Halt::Refused(Fault::Cycle { mark })),
        None => Ok(plan.set_order(order)?),
    }
}
