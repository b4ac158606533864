//! Which commits become tags, and which commit is in the place of each.
ghost use Rattle.std.specs.Prelude.{◌≡◌, ◌<◌, Some, length, slice_get, IfOk, IsSome};
ghost use Rattle.plain_model.specs.Lookups.{find_event, id_of};
ghost use Rattle.plain_model.specs.Soundness.{IsSound};
ghost use Rattle.plain_model.specs.declared.id.AnyId.TheVariants.{Commit};
ghost use Rattle.plan_steps.specs.Ways.{AreBack};
ghost use Rattle.tagify_laws.specs.Tagify.{base_of, becomes_tag, tagged};

use event_arena::Events;
use plain_model::{AnyId, CommitId, IdList, NoMemory, PlainEvent};
use plan_steps::{Flagged, Selected, way_at, ways_back};
use std::alloc::Global;
use std::marker::Model;

// Whether the event at a place becomes a tag.
fn becomes_tag(selection: &Flagged, place: usize) -> bool
    requires { place < length selection.now.events }
    ensures { (event : _) → slice_get selection.now.events place ≡ Some event →
        result ≡ becomes_tag selection.now.set event }
{
    let PlainEvent::Commit { parents, ops, .. } = selection.nth(place) else {
        return false;
    };
    selection.has_at(place) && ops.as_slice().is_empty() && parents.as_slice().len() == 1
}

// The commits that become tags, in the order of the list.
fn tagged(alloc: Global, selection: &Flagged) -> Result<IdList, NoMemory>
    ensures { IfOk result (λ ids. ids ≡ tagged selection.now.set selection.now.events) }
{
    let mut ids = IdList::new(alloc)?;
    for place in 0..selection.count() {
        if becomes_tag(selection, place) {
            ids.push(selection.nth(place).id())?;
        }
    }
    Ok(ids)
}

// Back from each commit, to the first one that isn't of the set.
fn bases(alloc: Global, events: &Events, set: &[AnyId]) -> Result<Vec<Option<CommitId>>, NoMemory>
    ensures { IfOk result (λ ways. AreBack set.now events.now.list ways.items) }
{
    let removal = Selected::of(alloc, events, set)?;
    ways_back(alloc, &removal)
}

/// A history and some selected events of it, with those commits among them that do nothing, which become tags, and for each
/// place of a commit the one in its place: back by first parents the first that becomes no tag.
#[derive(Drop)]
pub struct Empties<'a> {
    selection: Flagged<'a>,
    ids: IdList,
    bases: Vec<Option<CommitId>>,
}

impl<'a> Model for Empties<'a> {
    ghost use Rattle.empty_commits.specs.Empties.{AreFound};
    ghost use Rattle.plan_steps.specs.Chosen.{Chosen};

    ghost Value = { Chosen };

    ghost view = { λ e. e.selection };

    ghost invariant = { λ e. AreFound e.selection e.ids e.bases.items };
}

impl<'a> Empties<'a> {
    pub fn of(alloc: Global, events: &'a Events, set: &[AnyId]) -> Result<Empties<'a>, NoMemory>
        ensures events { IfOk result (λ made. made.events ≡ events.now.list) }
        ensures set { IfOk result (λ made. made.set ≡ set.now) }
    {
        let selection = Flagged::new(alloc, events, set)?;
        let ids = tagged(alloc, &selection)?;
        let bases = bases(alloc, events, ids.as_slice())?;
        Ok(Empties {
            selection,
            ids,
            bases,
        })
    }

    /// The commits that become tags, in the order of the list.
    pub fn ids(&self) -> &IdList
        ensures { result.now ≡ tagged self.now.set self.now.events }
    {
        &self.ids
    }

    /// How many events there are. They are a sound history.
    pub fn count(&self) -> usize
        ensures count { result ≡ length self.now.events }
        ensures sound { IsSound self.now.events }
    {
        self.selection.count()
    }

    /// The event at this place, from 0.
    pub fn nth(&self, place: usize) -> &PlainEvent
        requires { place < length self.now.events }
        ensures event { slice_get self.now.events place ≡ Some result.now }
        ensures found { find_event (id_of result.now) self.now.events ≡ Some result.now }
    {
        self.selection.nth(place)
    }

    /// Whether the event at this place becomes a tag.
    pub fn becomes_tag(&self, place: usize) -> bool
        requires { place < length self.now.events }
        ensures { (event : _) → slice_get self.now.events place ≡ Some event →
            result ≡ becomes_tag self.now.set event }
    {
        becomes_tag(&self.selection, place)
    }

    /// The commit in the place of a commit that is there: itself, if it becomes no tag.
    pub fn base_of(&self, commit: CommitId) -> CommitId
        requires { IsSome (find_event (Commit commit) self.now.events) }
        ensures { result ≡ base_of self.now.set self.now.events commit }
    {
        let place = self
            .selection
            .events()
            .place(AnyId::Commit(commit))
            .unwrap();
        way_at(&self.bases, place).unwrap_or(commit)
    }
}
