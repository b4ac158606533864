//! The removed commits before a commit, by first parents.
ghost use Rattle.std.specs.Prelude.{
  ◌≡◌,
  ◌<◌,
  ◌≤◌,
  ◌+◌,
  ◌-◌,
  ◌^◌,
  ◌&&◌,
  ◌||◌,
  [],
  Some,
  length,
  not,
  slice_get,
  take,
  IfOk,
  OnOk,
};
ghost use Rattle.edit_laws.specs.Removal.{expand_all};
ghost use Rattle.plain_model.specs.Histories.{past};
ghost use Rattle.plain_model.specs.Soundness.{IsCommitOf};
ghost use Rattle.plan_steps.specs.Depths.{depth, parents_at};
ghost use Rattle.squash_delete.specs.Chains.{
  AreBefore,
  AreLinks,
  Carry,
  IsNearest,
  LinkIs,
  Notes,
  NotesNext,
  no_link,
  noted_at,
};
ghost use Rattle.squash_laws.specs.Removed.{is_removed};
ghost use Rattle.squash_laws.specs.Takings.{is_from_root, is_none, links};

use plain_model::{AnyId, CommitId, FileOp, NoMemory, PlainEvent};
use plan_steps::Selected;
use std::alloc::Global;
use std::marker::Model;

/// What is noted of a removed commit: the nearest one that has operations or a comment, itself or on the way down by first
/// parents as long as they are removed; whether that way ends at a root; and whether nothing stands for it.
#[derive(Clone, Copy)]
pub struct Link {
    nearest: Option<CommitId>,
    from_root: bool,
    is_over: bool,
}

// Nothing is noted.
fn no_link() -> Link
    ensures { result ≡ no_link }
{
    Link {
        nearest: None,
        from_root: false,
        is_over: false,
    }
}

// What is noted of the event at a place.
#[derive(Clone, Copy)]
struct Entry {
    place: usize,
    link: Link,
}

/// What is noted of the first events of a history, so many of them: an entry for each near one, in order, and nothing of the
/// others.
#[derive(Drop)]
pub struct LinkTable {
    count: usize,
    entries: Vec<Entry>,
}

impl Model for LinkTable {
    ghost use Rattle.squash_delete.specs.Chains.{AreEntries, Noted};

    ghost Value = { Noted };

    ghost view = { λ table. record { count = table.count; entries = table.entries.items } };

    ghost invariant = { λ table. AreEntries table.count table.entries.items };
}

impl LinkTable {
    // Nothing is noted yet.
    fn none(alloc: Global) -> LinkTable
        ensures count { result.count ≡ 0 }
        ensures entries { result.entries ≡ [] }
    {
        LinkTable {
            count: 0,
            entries: Vec::new(alloc),
        }
    }

    // Nothing is noted of the next events, up to a place.
    fn pass_to(&mut self, place: usize)
        requires { self.old.count ≤ place }
        ensures count { self.new.count ≡ place }
        ensures same { self.new.entries ≡ self.old.entries }
        ensures others { (k : _) → self.old.count ≤ k → noted_at self.new.entries k ≡ no_link }
    {
        self.count = place;
    }

    // A link is noted of the next event.
    fn note(&mut self, link: Link) -> Result<(), NoMemory>
        requires { self.old.count + 1 < 2 ^ 64 }
        ensures { OnOk result (NotesNext self.old link self.new) }
    {
        self.entries.push(Entry {
            place: self.count,
            link,
        })?;
        self.count += 1;
        Ok(())
    }

    // What is noted at a place.
    fn at(&self, place: usize) -> Link
        ensures { result ≡ noted_at self.now.entries place }
    {
        let index = self.entries.partition_point(|entry| entry.place < place);
        match self.entries.get(index) {
            Some(entry) if entry.place == place => entry.link,
            _ => no_link(),
        }
    }
}

// What is noted of an earlier commit.
fn link_of(removal: &Selected, table: &LinkTable, commit: CommitId) -> Link
    requires table { AreLinks removal.now.set removal.now.events table.now }
    requires earlier { IsCommitOf (take (table.now.count) removal.now.events) commit }
    ensures { Notes removal.now.set removal.now.events commit result }
{
    let _count = removal.count();
    table.at(removal.place(commit))
}

// The nearest before a commit with these parents.
fn nearest(removal: &Selected, table: &LinkTable, parents: &[CommitId]) -> Option<CommitId>
    requires table { AreLinks removal.now.set removal.now.events table.now }
    requires before { AreBefore removal.now.events (table.now.count) parents.now }
    ensures { (most : _) → AreBefore removal.now.events most parents.now →
        IsNearest removal.now.set removal.now.events most parents.now result }
{
    let _count = removal.count();
    let parent = parents.first()?;
    link_of(removal, table, *parent).nearest
}

// Whether the removed commits before one with these parents begin at a root.
fn are_from_root(removal: &Selected, table: &LinkTable, parents: &[CommitId]) -> bool
    requires table { AreLinks removal.now.set removal.now.events table.now }
    requires before { AreBefore removal.now.events (table.now.count) parents.now }
    ensures { result ≡ is_from_root (links removal.now.set removal.now.events parents.now) }
{
    match parents.first() {
        Some(parent) => link_of(removal, table, *parent).from_root,
        None => false,
    }
}

// Whether nothing stands for these parents.
fn are_over(removal: &Selected, table: &LinkTable, parents: &[CommitId]) -> bool
    requires table { AreLinks removal.now.set removal.now.events table.now }
    requires before { AreBefore removal.now.events (table.now.count) parents.now }
    ensures { result
        ≡ is_none (expand_all (is_removed removal.now.set) (past removal.now.events) parents.now) }
{
    for parent in parents {
        if !link_of(removal, table, *parent).is_over {
            return false;
        }
    }
    true
}

// Whether the way down from a removed commit with these parents ends at a root: it is one, or those before it begin at one.
fn ends_at_root(removal: &Selected, table: &LinkTable, parents: &[CommitId]) -> bool
    requires table { AreLinks removal.now.set removal.now.events table.now }
    requires before { AreBefore removal.now.events (table.now.count) parents.now }
    ensures { result ≡ (is_none parents.now || is_from_root (links removal.now.set removal.now.events parents.now)) }
{
    parents.is_empty() || are_from_root(removal, table, parents)
}

// Whether a commit brings nothing along.
fn is_idle(ops: &[FileOp], comment: &[u8]) -> bool
    ensures { result ≡ (is_none ops.now && is_none comment.now) }
{
    ops.is_empty() && comment.is_empty()
}

// What is noted of the commit at a place.
fn link_at(removal: &Selected, table: &LinkTable, place: usize) -> Link
    requires place { place < length removal.now.events }
    requires table { AreLinks removal.now.set removal.now.events table.now }
    requires next { table.now.count ≡ place }
    ensures { (event : _) → slice_get removal.now.events place ≡ Some event →
        LinkIs removal.now.set removal.now.events event result }
{
    let _count = removal.count();
    if !removal.has_at(place) {
        return no_link();
    }
    let event = removal.nth(place);
    let PlainEvent::Commit {
        id,
        ops,
        comment,
        ..
    } = event
    else {
        return no_link();
    };
    let parents = event.parents();
    let nearest = if is_idle(ops.as_slice(), comment.as_slice()) {
        nearest(removal, table, parents)
    } else {
        Some(*id)
    };
    Link {
        nearest,
        from_root: ends_at_root(removal, table, parents),
        is_over: are_over(removal, table, parents),
    }
}

/// What is noted of all commits, in one pass.
pub fn links(alloc: Global, removal: &Selected) -> Result<LinkTable, NoMemory>
    ensures count { IfOk result (λ table. table.count ≡ length removal.now.events) }
    ensures links { IfOk result
        (λ table. AreLinks removal.now.set removal.now.events table) }
{
    let count = removal.count();
    let mut table = LinkTable::none(alloc);
    let mut place = removal.next_near(0);
    table.pass_to(place);
    while place < count {
        let link = link_at(removal, &table, place);
        table.note(link)?;
        place = removal.next_near(place + 1);
        table.pass_to(place);
    }
    Ok(table)
}

// The nearest before a removed commit.
fn nearest_before(removal: &Selected, table: &LinkTable, commit: CommitId) -> Option<CommitId>
    requires count { table.now.count ≡ length removal.now.events }
    requires table { AreLinks removal.now.set removal.now.events table.now }
    ensures { IsNearest removal.now.set removal.now.events
        (depth removal.now.events commit - 1)
        (parents_at removal.now.events commit) result }
{
    let _count = removal.count();
    match removal.list().event(AnyId::Commit(commit)) {
        Some(event) => nearest(removal, table, event.parents()),
        None => None,
    }
}

/// The removed commits before one with these parents that have operations or a comment, the oldest first.
pub fn carried(
    alloc: Global,
    removal: &Selected,
    table: &LinkTable,
    parents: &[CommitId],
) -> Result<Vec<CommitId>, NoMemory>
    requires count { table.now.count ≡ length removal.now.events }
    requires table { AreLinks removal.now.set removal.now.events table.now }
    requires before { AreBefore removal.now.events (table.now.count) parents.now }
    ensures { IfOk result
        (λ commits. Carry removal.now.set removal.now.events parents.now commits.items) }
{
    let mut commits = Vec::new(alloc);
    let mut at = nearest(removal, table, parents);
    while let Some(commit) = at {
        commits.push(commit)?;
        at = nearest_before(removal, table, commit);
    }
    commits.reverse();
    Ok(commits)
}

/// Whether a commit with these parents has to begin without files: the removed commits before it begin at a root, and it
/// keeps a parent.
pub fn begins_anew(removal: &Selected, table: &LinkTable, parents: &[CommitId]) -> bool
    requires table { AreLinks removal.now.set removal.now.events table.now }
    requires before { AreBefore removal.now.events (table.now.count) parents.now }
    ensures { result ≡ (is_from_root (links removal.now.set removal.now.events parents.now)
        && not (is_none (expand_all (is_removed removal.now.set) (past removal.now.events) parents.now))) }
{
    are_from_root(removal, table, parents) && !are_over(removal, table, parents)
}
