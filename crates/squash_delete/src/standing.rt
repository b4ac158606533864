//! What stands for removed commits among parents, in any list of events.
ghost use Rattle.std.specs.Prelude.{
  ◌≡◌,
  ◌<◌,
  [],
  Some,
  length,
  slice_get,
  slice_index_or,
  take,
  IfOk,
  OnOk,
};
ghost use Rattle.edit_laws.specs.Removal.{expand, expand_all};
ghost use Rattle.graph_walk.specs.Joined.{with_all};
ghost use Rattle.plain_model.specs.Histories.{past};
ghost use Rattle.plain_model.specs.Soundness.{IsCommitOf};
ghost use Rattle.squash_delete.specs.Chains.{AreBefore};
ghost use Rattle.squash_delete.specs.Standings.{AreStandingTo, Stand};
ghost use Rattle.squash_laws.specs.Removed.{is_removed};

use plain_model::{CommitId, NoMemory, ParentList};
use plan_steps::Selected;
use std::alloc::Global;

/// For the place of each removed commit the commits that stand for it.
pub type Standings = Vec<ParentList>;

// Puts commits at the end that aren't there yet.
fn add_all(made: &mut ParentList, commits: &[CommitId]) -> Result<(), NoMemory>
    ensures { OnOk result (made.new ≡ with_all made.old commits.now) }
{
    for commit in commits {
        if !made.as_slice().contains(commit) {
            made.push(*commit)?;
        }
    }
    Ok(())
}

// The row of a place.
fn row_at(rows: &[ParentList], place: usize) -> &[CommitId]
    requires { place < length rows.now }
    ensures { result.now ≡ slice_index_or rows.now place [] }
{
    rows[place].as_slice()
}

// Adds what stands for an earlier commit: itself, where it stays.
fn add_standing(
    removal: &Selected,
    rows: &[ParentList],
    commit: CommitId,
    made: &mut ParentList,
) -> Result<(), NoMemory>
    requires rows { AreStandingTo removal.now.set removal.now.events (length rows.now) rows.now }
    requires earlier { IsCommitOf (take (length rows.now) removal.now.events) commit }
    ensures { OnOk result (made.new
        ≡ with_all made.old (expand (is_removed removal.now.set) (past removal.now.events) commit)) }
{
    let _count = removal.count();
    if removal.has(commit) {
        add_all(made, row_at(rows, removal.place(commit)))
    } else {
        add_all(made, &[commit])
    }
}

/// What stands for earlier commits together, each once.
pub fn standing(
    alloc: Global,
    removal: &Selected,
    rows: &[ParentList],
    commits: &[CommitId],
) -> Result<ParentList, NoMemory>
    requires rows { AreStandingTo removal.now.set removal.now.events (length rows.now) rows.now }
    requires before { AreBefore removal.now.events (length rows.now) commits.now }
    ensures { IfOk result (λ made. made
        ≡ expand_all (is_removed removal.now.set) (past removal.now.events) commits.now) }
{
    let mut made = ParentList::new(alloc)?;
    for commit in commits {
        add_standing(removal, rows, *commit, &mut made)?;
    }
    Ok(made)
}

// What stands for the event at a place, if it is a removed commit.
fn standing_at(
    alloc: Global,
    removal: &Selected,
    rows: &[ParentList],
    place: usize,
) -> Result<ParentList, NoMemory>
    requires place { place < length removal.now.events }
    requires rows { AreStandingTo removal.now.set removal.now.events place rows.now }
    ensures { IfOk result (λ made. (event : _) → slice_get removal.now.events place ≡ Some event →
        Stand removal.now.set removal.now.events event made) }
{
    let _count = removal.count();
    if !removal.has_at(place) {
        return Ok(ParentList::empty(alloc));
    }
    standing(alloc, removal, rows, removal.nth(place).parents())
}

/// What stands for all removed commits, in one pass.
pub fn standings(alloc: Global, removal: &Selected) -> Result<Standings, NoMemory>
    ensures { IfOk result (λ rows.
        AreStandingTo removal.now.set removal.now.events (length removal.now.events) rows.items) }
{
    let mut rows = Vec::with_capacity(alloc, removal.count())?;
    for place in 0..removal.count() {
        rows.push(standing_at(alloc, removal, &rows, place)?)?;
    }
    Ok(rows)
}
