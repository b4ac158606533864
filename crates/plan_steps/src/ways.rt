//! To which commits the tags and resets of a removed commit can go.
ghost use Rattle.std.specs.Prelude.{
  ◌≡◌,
  ◌<◌,
  Some,
  None,
  if◌then◌else◌,
  length,
  option_and_then,
  slice_get,
  slice_index_or,
  suc,
  take,
  IfOk,
  IsSome,
};
ghost use Rattle.std.specs.List.{AllByRecursion};
ghost use Rattle.plain_model.specs.Lookups.{commit_id, find_event};
ghost use Rattle.plain_model.specs.Soundness.{IsCommitOf};
ghost use Rattle.plain_model.specs.declared.id.AnyId.TheVariants.{Commit};
ghost use Rattle.plan_steps.specs.Ways.{
  AreBack,
  AreBackOfRemoved,
  AreBackOfRemovedTo,
  AreBackTo,
  AreForward,
  AreForwardFrom,
  AreLed,
  RemovedWayIs,
};
ghost use Rattle.squash_laws.specs.Removed.{is_removed};
ghost use Rattle.squash_laws.specs.Takings.{back_of};

use crate::selection::Selected;
use plain_model::{CommitId, NoMemory};
use std::alloc::Global;

/// For the place of each commit a commit, if there is one.
pub type Ways = Vec<Option<CommitId>>;

/// The way at a place.
pub fn way_at(ways: &[Option<CommitId>], place: usize) -> Option<CommitId>
    requires { place < length ways.now }
    ensures { result ≡ slice_index_or ways.now place None }
{
    ways[place]
}

// Where an earlier commit stands.
fn back_of(removal: &Selected, ways: &[Option<CommitId>], commit: CommitId) -> Option<CommitId>
    requires ways { AreBackTo removal.now.set removal.now.events (length ways.now) ways.now }
    requires earlier { IsCommitOf (take (length ways.now) removal.now.events) commit }
    ensures { result ≡ back_of removal.now.set removal.now.events commit }
{
    let _count = removal.count();
    way_at(ways, removal.place(commit))
}

// Where the commit at a place stands: itself, if it stays, else where its first parent stands.
fn back_at(removal: &Selected, ways: &[Option<CommitId>], place: usize) -> Option<CommitId>
    requires place { place < length removal.now.events }
    requires ways { AreBackTo removal.now.set removal.now.events place ways.now }
    ensures { (event : _) → slice_get removal.now.events place ≡ Some event →
        result ≡ option_and_then (back_of removal.now.set removal.now.events) (commit_id event) }
{
    let _count = removal.count();
    let id = removal.list().commit_at(place)?;
    if !removal.has_at(place) {
        return Some(id);
    }
    let parent = removal.nth(place).parents().first()?;
    back_of(removal, ways, *parent)
}

/// The ways back of all commits, in one pass.
pub fn ways_back(alloc: Global, removal: &Selected) -> Result<Ways, NoMemory>
    ensures { IfOk result (λ ways. AreBack removal.now.set removal.now.events ways.items) }
{
    let mut ways = Vec::with_capacity(alloc, removal.count())?;
    for place in 0..removal.count() {
        let way = back_at(removal, &ways, place);
        ways.push(way)?;
    }
    Ok(ways)
}

/// What stands for the commit at a place: itself, if it stays, else the one to which its way goes.
pub fn stand_in(
    removal: &Selected,
    ways: &[Option<CommitId>],
    place: usize,
    commit: CommitId,
) -> Option<CommitId>
    requires place { place < length removal.now.events }
    requires count { length ways.now ≡ length removal.now.events }
    ensures { (event : _) → slice_get removal.now.events place ≡ Some event → commit_id event ≡ Some commit →
        result ≡ (if is_removed removal.now.set commit then slice_index_or ways.now place None else Some commit) }
{
    let _count = removal.count();
    if removal.has_at(place) {
        way_at(ways, place)
    } else {
        Some(commit)
    }
}

// Where a removed commit at a place goes back: to what stands for its first parent.
fn back_from(removal: &Selected, ways: &[Option<CommitId>], place: usize) -> Option<CommitId>
    requires place { place < length removal.now.events }
    requires ways { AreBackOfRemovedTo removal.now.set removal.now.events place ways.now }
    ensures { (event : _) → slice_get removal.now.events place ≡ Some event →
        RemovedWayIs removal.now.set (back_of removal.now.set removal.now.events) event result }
{
    let _count = removal.count();
    let parent = removal.nth(place).parents().first()?;
    stand_in(removal, ways, removal.place(*parent), *parent)
}

/// The ways back of removed commits alone, which all are near.
pub fn removed_ways_back(alloc: Global, removal: &Selected) -> Result<Ways, NoMemory>
    ensures { IfOk result (λ ways. AreBackOfRemoved removal.now.set removal.now.events ways.items) }
{
    let count = removal.count();
    let mut ways = vec![in alloc; None; count]?;
    let mut place = removal.next_near(0);
    while place < count {
        let way = back_from(removal, &ways, place);
        ways[place] = way;
        place = removal.next_near(place + 1);
    }
    Ok(ways)
}

// Leads commits one way.
fn lead(
    removal: &Selected,
    commits: &[CommitId],
    way: &Option<CommitId>,
    ways: &mut [Option<CommitId>],
)
    requires there { AllByRecursion (λ c. IsSome (find_event (Commit c) removal.now.events)) commits.now }
    requires count { length ways.old ≡ length removal.now.events }
    ensures { AreLed removal.now.events commits.now way.now ways.old ways.new }
{
    let _count = removal.count();
    for commit in commits {
        ways[removal.place(*commit)] = *way;
    }
}

// Leads the parents of the commit at a place to what stands for it.
fn lead_parents(removal: &Selected, place: usize, ways: &mut [Option<CommitId>])
    requires place { place < length removal.now.events }
    requires ways { AreForwardFrom removal.now.set removal.now.events (suc place) ways.old }
    ensures { AreForwardFrom removal.now.set removal.now.events place ways.new }
{
    let _count = removal.count();
    if let Some(id) = removal.list().commit_at(place) {
        let way = stand_in(removal, ways, place, id);
        lead(removal, removal.nth(place).parents(), &way, ways);
    }
}

// The ways forward of removed commits, from the last near place to the first, so that the first child of a commit comes
// last. An event that isn't near leads none of them.
fn ways_forward(alloc: Global, removal: &Selected) -> Result<Ways, NoMemory>
    ensures { IfOk result (λ ways. AreForward removal.now.set removal.now.events ways.items) }
{
    let count = removal.count();
    let mut ways = vec![in alloc; None; count]?;
    let mut place = count;
    while let Some(near) = removal.near_before(place) {
        lead_parents(removal, near, &mut ways);
        place = near;
    }
    Ok(ways)
}

/// The ways of a history's removed commits.
#[derive(Drop)]
pub struct Leads {
    pub back: Ways,
    pub forward: Ways,
}

impl Leads {
    /// Of removed commits alone, looked for near them.
    pub fn of(alloc: Global, removal: &Selected) -> Result<Leads, NoMemory>
        ensures removed { IfOk result
            (λ leads. AreBackOfRemoved removal.now.set removal.now.events leads.back.items) }
        ensures forward { IfOk result
            (λ leads. AreForward removal.now.set removal.now.events leads.forward.items) }
    {
        let back = removed_ways_back(alloc, removal)?;
        let forward = ways_forward(alloc, removal)?;
        Ok(Leads { back, forward })
    }
}
