//! A history and some of its events, by flags.
ghost use Rattle.std.specs.Prelude.{
  ◌≡◌,
  ◌<◌,
  ◌&&◌,
  ◌∷◌,
  [],
  Some,
  length,
  option_to_list,
  slice_get,
  IfOk,
};
ghost use Rattle.commit_laws.specs.Selected.{listed};
ghost use Rattle.plain_model.specs.Lookups.{find_event, id_of, is_listed};
ghost use Rattle.plain_model.specs.Soundness.{IsSound, has_id};
ghost use Rattle.plain_model.specs.declared.id.AnyId.TheVariants.{Commit};

use event_arena::Events;
use graph_walk::flags_of;
use plain_model::{AnyId, CommitId, IdList, Items, NoMemory, PlainEvent};
use std::alloc::Global;
use std::marker::Model;

/// A history and a set of its events, with a flag at the place of each event that is one of the set.
#[derive(Drop)]
pub struct Flagged<'a> {
    events: &'a Events,
    set: IdList,
    flags: Vec<bool>,
}

impl<'a> Model for Flagged<'a> {
    ghost use Rattle.graph_walk.specs.Flags.{FlagsOf};
    ghost use Rattle.plan_steps.specs.Chosen.{Chosen};

    ghost Value = { Chosen };

    ghost view = { λ f. record { events = f.events.now.list; set = f.set } };

    ghost invariant = { λ f. FlagsOf f.events.now.list f.set f.flags.items };
}

impl<'a> Flagged<'a> {
    pub fn new(alloc: Global, events: &'a Events, set: &[AnyId]) -> Result<Flagged<'a>, NoMemory>
        ensures events { IfOk result (λ made. made.events ≡ events.now.list) }
        ensures set { IfOk result (λ made. made.set ≡ set.now) }
    {
        let flags = flags_of(alloc, events.table(), set)?;
        let set = IdList::of(alloc, set)?;
        Ok(Flagged { events, set, flags })
    }

    /// The history.
    pub fn events(&self) -> &Events
        ensures { result.now.list ≡ self.now.events }
    {
        self.events
    }

    /// How many events the history has. Every history is sound.
    pub fn count(&self) -> usize
        ensures count { result ≡ length self.now.events }
        ensures sound { IsSound self.now.events }
    {
        self.events.count()
    }

    /// The event at this place, from 0.
    pub fn nth(&self, place: usize) -> &PlainEvent
        requires { place < length self.now.events }
        ensures event { slice_get self.now.events place ≡ Some result.now }
        ensures found { find_event (id_of result.now) self.now.events ≡ Some result.now }
    {
        self.events.nth(place)
    }

    /// Whether the event at a place is one of the set.
    pub fn has_at(&self, place: usize) -> bool
        requires { place < length self.now.events }
        ensures { (event : _) → slice_get self.now.events place ≡ Some event →
            result ≡ is_listed (id_of event) self.now.set }
    {
        self.flags[place]
    }

    /// Whether a commit is there, and one of the set.
    pub fn has(&self, commit: CommitId) -> bool
        ensures { result ≡ (has_id self.now.events (Commit commit) && is_listed (Commit commit) self.now.set) }
    {
        let _count = self.events.count();
        match self.events.place(AnyId::Commit(commit)) {
            Some(place) => self.flags[place],
            None => false,
        }
    }

    /// The commit at a place, if it is one of the set.
    pub fn commit_at(&self, place: usize) -> Option<CommitId>
        requires { place < length self.now.events }
        ensures { (event : _) → slice_get self.now.events place ≡ Some event →
            option_to_list result ≡ listed self.now.set (event ∷ []) }
    {
        if self.has_at(place) {
            self.nth(place).commit_id()
        } else {
            None
        }
    }

    /// The commits of the set, in the order of the list.
    pub fn listed(&self, alloc: Global) -> Result<Items<CommitId>, NoMemory>
        ensures { IfOk result (λ commits. commits ≡ listed self.now.set self.now.events) }
    {
        let mut commits = Items::new(alloc)?;
        for place in 0..self.count() {
            if let Some(commit) = self.commit_at(place) {
                commits.push(commit)?;
            }
        }
        Ok(commits)
    }
}

/// The commits of a set, in the order of the list.
pub fn listed(alloc: Global, events: &Events, set: &[AnyId]) -> Result<Items<CommitId>, NoMemory>
    ensures { IfOk result (λ commits. commits ≡ listed set.now events.now.list) }
{
    let flagged = Flagged::new(alloc, events, set)?;
    flagged.listed(alloc)
}
