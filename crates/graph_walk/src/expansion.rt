//! What commits expand to where some are removed: itself where a commit stays, else what its parents expand to.
ghost use Rattle.std.specs.Prelude.{
  ◌≡◌,
  ◌<◌,
  ◌∷◌,
  ◌++◌,
  [],
  None,
  Some,
  false,
  length,
  map,
  slice_get,
  slice_index_or,
  true,
  IfErr,
  IfOk,
  IsSome,
  MatchOption,
  OnErr,
  OnOk,
};
ghost use Rattle.std.specs.List.{AllByRecursion};
ghost use Rattle.graph_walk.specs.Expansions.{AreFew, IsCauseOfMany, expanded_parents, parent_changes};
ghost use Rattle.graph_walk.specs.Children.{AreChildrenOf};
ghost use Rattle.graph_walk.specs.Joined.{AddsEntry, AreExpansions, IsBeforePlace, IsTooMany, PushesChange, entry_of, fits, itself_at, joined, joined_from, kept, next_entry, with_all};
ghost use Rattle.plain_model.specs.Lookups.{event_parents, find_event};
ghost use Rattle.plain_model.specs.declared.id.AnyId.TheVariants.{Commit};

use crate::children::children_of_all;
use crate::flags::{flags_of, is_any_flagged};
use crate::table::ExpansionTable;
use event_arena::Events;
use indexmap::IndexSet;
use plain_model::{
    AnyId, CommitId, Fault, Halt, IdList, Items, MAX_PARENTS, NoMemory, ParentList, PlainEvent,
    Which,
};
use std::alloc::Global;
use std::marker::Model;

/// Commits in the order in which they came, each once.
#[derive(Drop)]
struct Gathered {
    commits: IndexSet<CommitId>,
}

impl Model for Gathered {
    ghost use Rattle.std.specs.Prelude.{List, ℕ};

    ghost Value = { List ℕ };

    ghost view = { λ g. g.commits.keys };
}

impl Gathered {
    fn new(alloc: Global) -> Gathered
        ensures { result ≡ [] }
    {
        Gathered {
            commits: IndexSet::new(alloc),
        }
    }

    fn len(&self) -> usize
        ensures { result ≡ length self.now }
    {
        self.commits.len()
    }

    // Adds commits that aren't there yet.
    fn add_all(&mut self, commits: &[CommitId]) -> Result<(), NoMemory>
        ensures { OnOk result (self.new ≡ with_all self.old commits.now) }
    {
        for commit in commits {
            let _ = self.commits.insert(*commit)?;
        }
        Ok(())
    }

    fn list(&self, alloc: Global) -> Result<ParentList, NoMemory>
        ensures { IfOk result (λ list. list ≡ self.now) }
    {
        Items::of(alloc, self.commits.as_slice())
    }
}

/// Commits, each with the parents that it gets.
pub type ParentChanges = Items<(CommitId, ParentList)>;

/// What a commit expands to: the one at a place, a list of the table, or more than a commit can have as parents.
#[derive(Clone, Copy)]
pub enum Expansion {
    At(usize),
    Many(usize),
    TooMany,
}

/// For each place of a history what the commit there expands to. A commit that stays expands to itself, which takes no room,
/// so that only removed ones are looked at. A removed commit with one parent shares its parent's expansion, so that a long line of
/// them copies nothing. Where expansions are bounded, none is kept that has more commits than a commit can have parents:
/// whoever descends from it would have too many.
#[derive(Drop)]
pub struct Expansions<'a> {
    alloc: Global,
    events: &'a Events,
    bounded: bool,
    entries: ExpansionTable,
    lists: Vec<ParentList>,
}

impl<'a> Model for Expansions<'a> {
    ghost use Rattle.graph_walk.specs.Joined.{Expanded};
    ghost use Rattle.graph_walk.specs.Entries.{AreListed, expanded};

    ghost Value = { Expanded };

    ghost view = { expanded };

    ghost invariant = { AreListed };
}

impl<'a> Expansions<'a> {
    fn empty(alloc: Global, events: &'a Events, bounded: bool) -> Expansions<'a>
        ensures events { result.events ≡ events.now.list }
        ensures bounded { result.bounded ≡ bounded }
        ensures entries { result.entries ≡ [] }
    {
        Expansions {
            alloc,
            events,
            bounded,
            entries: ExpansionTable::empty(alloc),
            lists: Vec::new(alloc),
        }
    }

    // An event that stays, at the next place. It is looked at where it is a parent of one that is removed or changes, and
    // not before.
    fn push_staying(&mut self, place: usize)
        requires within { place < length self.old.events }
        requires next { length self.old.entries ≡ place }
        ensures events { self.new.events ≡ self.old.events }
        ensures bounded { self.new.bounded ≡ self.old.bounded }
        ensures entries { self.new.entries ≡ self.old.entries ++ itself_at self.old.events place ∷ [] }
    {
        let _count = self.events.count();
        self.entries.push_itself();
    }

    // One that expands to what an earlier one expands to.
    fn push_same(&mut self, place: usize) -> Result<(), NoMemory>
        requires { place < length self.old.entries }
        ensures events { self.new.events ≡ self.old.events }
        ensures bounded { self.new.bounded ≡ self.old.bounded }
        ensures entries { OnOk result (self.new.entries
            ≡ self.old.entries ++ slice_index_or self.old.entries place None ∷ []) }
    {
        self.entries.push(self.entries.at(place))
    }

    // One with a list of its own, if that isn't too long.
    fn push_found(&mut self, found: Option<ParentList>) -> Result<(), NoMemory>
        ensures events { self.new.events ≡ self.old.events }
        ensures bounded { self.new.bounded ≡ self.old.bounded }
        ensures entries { OnOk result (self.new.entries ≡ self.old.entries ++ found ∷ []) }
    {
        match found {
            Some(list) => {
                let at = self.lists.len();
                self.lists.push(list)?;
                self.entries.push(Expansion::Many(at))?;
            }
            None => self.entries.push(Expansion::TooMany)?,
        }
        Ok(())
    }

    // Whether a list of so many commits is kept.
    fn fits(&self, count: usize) -> bool
        ensures { result ≡ fits self.now.bounded count }
    {
        !self.bounded || count as u64 <= MAX_PARENTS
    }

    // Adds the commit at a place itself, or says that there is none.
    fn add_itself(&self, place: usize, gathered: &mut Gathered) -> Result<bool, NoMemory>
        requires { place < length self.now.events }
        ensures { IfOk result
            (λ added. AddsEntry (itself_at self.now.events place) gathered.old gathered.new added) }
    {
        match self.events.nth(place) {
            PlainEvent::Commit { id, .. } => {
                gathered.add_all(&[*id])?;
                Ok(true)
            }
            _ => Ok(false),
        }
    }

    // Adds what the commit at a place expands to, or says that this is too much.
    fn add_to(&self, place: usize, gathered: &mut Gathered) -> Result<bool, NoMemory>
        requires { place < length self.now.entries }
        ensures { IfOk result (λ added. AddsEntry (slice_index_or self.now.entries place None)
            gathered.old gathered.new added) }
    {
        match self.entries.at(place) {
            Expansion::At(place) => self.add_itself(place, gathered),
            Expansion::Many(at) => {
                gathered.add_all(self.lists[at].as_slice())?;
                Ok(true)
            }
            Expansion::TooMany => Ok(false),
        }
    }

    // What commits expand to together, if that isn't too much.
    fn join(&self, events: &Events, commits: &[CommitId]) -> Result<Option<ParentList>, NoMemory>
        requires { AllByRecursion (IsBeforePlace events.now.list (length self.now.entries))
            commits.now }
        ensures { IfOk result (λ found. found ≡ joined_from self.now.bounded []
            (map (entry_of self.now.entries events.now.list) commits.now)) }
    {
        let mut gathered = Gathered::new(self.alloc);
        for commit in commits {
            let place = events.place(AnyId::Commit(*commit)).unwrap();
            if !self.add_to(place, &mut gathered)? {
                return Ok(None);
            }
            if !self.fits(gathered.len()) {
                return Ok(None);
            }
        }
        Ok(Some(gathered.list(self.alloc)?))
    }

    // A removed commit with these parents.
    fn push_joined(&mut self, events: &Events, parents: &[CommitId]) -> Result<(), NoMemory>
        requires { AllByRecursion (IsBeforePlace events.now.list (length self.old.entries))
            parents.now }
        ensures events { self.new.events ≡ self.old.events }
        ensures bounded { self.new.bounded ≡ self.old.bounded }
        ensures entries { OnOk result (self.new.entries ≡ self.old.entries ++ joined self.old.bounded
            (map (entry_of self.old.entries events.now.list) parents.now) ∷ []) }
    {
        if parents.len() == 1 {
            let place = events.place(AnyId::Commit(parents[0])).unwrap();
            self.push_same(place)
        } else {
            let found = self.join(events, parents)?;
            self.push_found(found)
        }
    }

    // The removed event at the next place.
    fn push_removed(&mut self, place: usize) -> Result<(), NoMemory>
        requires within { place < length self.old.events }
        requires next { length self.old.entries ≡ place }
        ensures events { self.new.events ≡ self.old.events }
        ensures bounded { self.new.bounded ≡ self.old.bounded }
        ensures entries { OnOk result ((event : _) → slice_get self.old.events place ≡ Some event
            → self.new.entries ≡ self.old.entries
            ++ next_entry self.old.bounded self.old.events self.old.entries true event ∷ []) }
    {
        let events = self.events;
        let _count = events.count();
        match events.nth(place) {
            PlainEvent::Commit { parents, .. } => self.push_joined(events, parents.as_slice()),
            _ => self.push_found(None),
        }
    }

    // The event at the next place.
    fn push_event(&mut self, place: usize, removed: bool) -> Result<(), NoMemory>
        requires within { place < length self.old.events }
        requires next { length self.old.entries ≡ place }
        ensures events { self.new.events ≡ self.old.events }
        ensures bounded { self.new.bounded ≡ self.old.bounded }
        ensures entries { OnOk result ((event : _) → slice_get self.old.events place ≡ Some event
            → self.new.entries ≡ self.old.entries
            ++ next_entry self.old.bounded self.old.events self.old.entries removed event ∷ []) }
    {
        if !removed {
            self.push_staying(place);
            return Ok(());
        }
        self.push_removed(place)
    }

    // What the parents of an event expand to, if that isn't too much.
    fn expand(&self, events: &Events, event: &PlainEvent) -> Result<Option<ParentList>, NoMemory>
        requires { AllByRecursion (IsBeforePlace events.now.list (length self.now.entries))
            (event_parents event.now) }
        ensures { IfOk result (λ found. found ≡ joined_from self.now.bounded []
            (map (entry_of self.now.entries events.now.list) (event_parents event.now))) }
    {
        match event {
            PlainEvent::Commit { parents, .. } => self.join(events, parents.as_slice()),
            _ => Ok(Some(ParentList::empty(self.alloc))),
        }
    }

    // The expansions of all commits of a history, from the first one on.
    fn of(
        alloc: Global,
        events: &'a Events,
        removed: &IdList,
        bounded: bool,
    ) -> Result<Expansions<'a>, NoMemory>
        ensures bounded { IfOk result (λ made. made.bounded ≡ bounded) }
        ensures expansions { IfOk result (λ made. AreExpansions events.now.list removed.now made) }
    {
        let flags = flags_of(alloc, events.table(), removed.as_slice())?;
        let mut made = Expansions::empty(alloc, events, bounded);
        for place in 0..events.count() {
            made.push_event(place, flags[place])?;
        }
        Ok(made)
    }
}

/// What the parents of a commit expand to where some commits are removed: those that stay are kept,
/// the others for what their own parents expand to, in order and without repeats.
pub fn expand_parents(
    alloc: Global,
    events: &Events,
    removed: &IdList,
    id: CommitId,
) -> Result<ParentList, NoMemory>
    requires { IsSome (find_event (Commit id) events.now.list) }
    ensures { IfOk result (λ list. list ≡ expanded_parents events.now.list removed.now id) }
{
    let made = Expansions::of(alloc, events, removed, false)?;
    let _count = events.count();
    let place = events.place(AnyId::Commit(id)).unwrap();
    let list = made.expand(events, events.nth(place))?.unwrap();
    Ok(list)
}

// The change of the event at a place, if it stays and has a removed parent. Only a child of a removed commit can have one.
fn push_change(
    events: &Events,
    made: &Expansions,
    flags: &[bool],
    children: &[bool],
    place: usize,
    changes: &mut ParentChanges,
) -> Result<(), Halt>
    requires within { place < length events.now.list }
    requires flags { length flags.now ≡ length events.now.list }
    requires children { AreChildrenOf flags.now events.now.list children.now }
    requires made { length made.now.entries ≡ length events.now.list }
    ensures ok { OnOk result ((event : _) → slice_get events.now.list place ≡ Some event →
        PushesChange events.now.list flags.now made.now place event changes.old changes.new) }
    ensures cause { (event : _) → slice_get events.now.list place ≡ Some event →
        IfErr result (IsTooMany events.now.list flags.now made.now place event) }
{
    let _count = events.count();
    if !children[place] {
        return Ok(());
    }
    if let PlainEvent::Commit { id, parents, .. } = events.nth(place) {
        let parents = parents.as_slice();
        if !flags[place] && is_any_flagged(events.table(), parents, flags) {
            let Some(list) = made.join(events, parents)? else {
                return Err(Halt::Refused(Fault::Limit {
                    which: Which::Parents,
                    number: MAX_PARENTS,
                }));
            };
            changes.push((*id, list))?;
        }
    }
    Ok(())
}

/// For each commit that stays and has a removed parent, in the order of the list, the parents that it gets: what its
/// own expand to. Refused exactly where one of them gets more than a commit can have. All of them are found in one
/// pass.
pub fn parent_changes(
    alloc: Global,
    events: &Events,
    removed: &IdList,
) -> Result<ParentChanges, Halt>
    ensures ok { IfOk result (λ changes. changes ≡ parent_changes events.now.list removed.now) }
    ensures few { OnOk result (AreFew (parent_changes events.now.list removed.now)) }
    ensures cause { IfErr result (IsCauseOfMany (parent_changes events.now.list removed.now)) }
{
    let made = Expansions::of(alloc, events, removed, true)?;
    let flags = flags_of(alloc, events.table(), removed.as_slice())?;
    let children = children_of_all(alloc, events, removed.as_slice())?;
    let children = flags_of(alloc, events.table(), children.as_slice())?;
    let mut changes = ParentChanges::new(alloc)?;
    for place in 0..events.count() {
        push_change(events, &made, &flags, &children, place, &mut changes)?;
    }
    Ok(changes)
}
