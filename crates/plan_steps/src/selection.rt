//! A list of events and some of them, by flags.
ghost use Rattle.std.specs.Prelude.{
  ◌≡◌,
  ◌<◌,
  ◌≤◌,
  Some,
  length,
  slice_get,
  suc,
  IfOk,
  IsSome,
  MatchOption,
};
ghost use Rattle.plain_model.specs.Lookups.{find_event, id_of, is_listed, place_of};
ghost use Rattle.plain_model.specs.Soundness.{IsSound};
ghost use Rattle.plain_model.specs.declared.id.AnyId.TheVariants.{Commit};
ghost use Rattle.plan_steps.specs.Near.{AreLinkedAlike, NoneNear};
ghost use Rattle.squash_laws.specs.Removed.{is_removed};

use crate::near::places_near;
use event_arena::{EventTable, Events, Plan};
use graph_walk::flags_of;
use plain_model::{AnyId, CommitId, IdList, NoMemory, PlainEvent};
use std::alloc::Global;
use std::marker::Model;

/// A sound list of events and a set of them, with a flag at the place of each event that is one of the set, and the places
/// near it, in order, where they are known: all other events stay as they are, and aren't looked at.
#[derive(Drop)]
pub struct Selected<'a> {
    list: &'a EventTable,
    set: IdList,
    flags: Vec<bool>,
    near: Option<Vec<usize>>,
}

impl<'a> Model for Selected<'a> {
    ghost use Rattle.plan_steps.specs.Chosen.{Chosen};
    ghost use Rattle.plan_steps.specs.Near.{AreFlagged, places_in};

    ghost Value = { Chosen };

    ghost view = { λ s. record { events = s.list.now; set = s.set } };

    ghost invariant = { λ s. AreFlagged s.set s.list.now s.flags.items (places_in s.near) };
}

impl<'a> Selected<'a> {
    /// Of a history, with the places near the set.
    pub fn of(alloc: Global, events: &'a Events, set: &[AnyId]) -> Result<Selected<'a>, NoMemory>
        ensures events { IfOk result (λ made. made.events ≡ events.now.list) }
        ensures set { IfOk result (λ made. made.set ≡ set.now) }
    {
        let list = events.table();
        let flags = flags_of(alloc, list, set)?;
        let near = Some(places_near(alloc, events, set, &flags)?);
        let set = IdList::of(alloc, set)?;
        Ok(Selected {
            list,
            set,
            flags,
            near,
        })
    }

    /// Of what a plan leaves.
    pub fn after(alloc: Global, plan: &'a Plan, set: &[AnyId]) -> Result<Selected<'a>, NoMemory>
        requires { IsSound plan.now.after }
        ensures events { IfOk result (λ made. made.events ≡ plan.now.after) }
        ensures set { IfOk result (λ made. made.set ≡ set.now) }
    {
        let list = plan.after();
        let flags = flags_of(alloc, list, set)?;
        let set = IdList::of(alloc, set)?;
        Ok(Selected {
            list,
            set,
            flags,
            near: None,
        })
    }

    /// Of what a plan leaves of a history, where each event refers to the commits that it did, with the places near the
    /// set.
    pub fn linked_as(
        alloc: Global,
        events: &Events,
        plan: &'a Plan,
        set: &[AnyId],
    ) -> Result<Selected<'a>, NoMemory>
        requires sound { IsSound plan.now.after }
        requires alike { AreLinkedAlike events.now.list plan.now.after }
        ensures events { IfOk result (λ made. made.events ≡ plan.now.after) }
        ensures set { IfOk result (λ made. made.set ≡ set.now) }
    {
        let list = plan.after();
        let flags = flags_of(alloc, list, set)?;
        let near = Some(places_near(alloc, events, set, &flags)?);
        let set = IdList::of(alloc, set)?;
        Ok(Selected {
            list,
            set,
            flags,
            near,
        })
    }

    /// The events.
    pub fn list(&self) -> &EventTable
        ensures { result.now ≡ self.now.events }
    {
        self.list
    }

    /// The set.
    pub fn set(&self) -> &IdList
        ensures { result.now ≡ self.now.set }
    {
        &self.set
    }

    /// How many events there are. They are a sound history.
    pub fn count(&self) -> usize
        ensures count { result ≡ length self.now.events }
        ensures sound { IsSound self.now.events }
    {
        self.list.count()
    }

    /// The event at this place, from 0.
    pub fn nth(&self, place: usize) -> &PlainEvent
        requires { place < length self.now.events }
        ensures event { slice_get self.now.events place ≡ Some result.now }
        ensures found { find_event (id_of result.now) self.now.events ≡ Some result.now }
    {
        self.list.nth(place)
    }

    /// Whether the event at a place is one of the set.
    pub fn has_at(&self, place: usize) -> bool
        requires { place < length self.now.events }
        ensures { (event : _) → slice_get self.now.events place ≡ Some event →
            result ≡ is_listed (id_of event) self.now.set }
    {
        self.flags[place]
    }

    /// The next place, this one or a later one, of an event that may be one of the set or refer to one; the end, where there
    /// is none. Those between stay as they are.
    pub fn next_near(&self, place: usize) -> usize
        requires { place ≤ length self.now.events }
        ensures later { place ≤ result }
        ensures within { result ≤ length self.now.events }
        ensures apart { NoneNear self.now.set self.now.events place result }
    {
        let Some(near) = &self.near else {
            return place;
        };
        match near.binary_search(&place) {
            Ok(_) => place,
            Err(index) if index < near.len() => near[index],
            Err(_) => self.list.count(),
        }
    }

    /// The last place before this one of an event that may be one of the set or refer to one, if there is one. Those between
    /// stay as they are.
    pub fn near_before(&self, place: usize) -> Option<usize>
        requires { place ≤ length self.now.events }
        ensures { MatchOption result (NoneNear self.now.set self.now.events 0 place)
            (λ found. (found < place) × NoneNear self.now.set self.now.events (suc found) place) }
    {
        let Some(near) = &self.near else {
            return place.checked_sub(1);
        };
        let index = match near.binary_search(&place) {
            Ok(index) | Err(index) => index,
        };
        if index == 0 {
            None
        } else {
            Some(near[index - 1])
        }
    }

    /// The place of a commit.
    pub fn place(&self, commit: CommitId) -> usize
        requires { IsSome (find_event (Commit commit) self.now.events) }
        ensures place { place_of (Commit commit) self.now.events ≡ Some result }
        ensures within { result < length self.now.events }
    {
        self.list.place(AnyId::Commit(commit)).unwrap()
    }

    /// Whether a commit that is there is one of the set.
    pub fn has(&self, commit: CommitId) -> bool
        requires { IsSome (find_event (Commit commit) self.now.events) }
        ensures { result ≡ is_removed self.now.set commit }
    {
        let place = self.list.place(AnyId::Commit(commit)).unwrap();
        self.flags[place]
    }
}
