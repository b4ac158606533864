//! The removed commits that hang on a commit by first parents.
ghost use Rattle.std.specs.Prelude.{◌≡◌, ◌<◌, length, suc, IfOk, OnOk};
ghost use Rattle.squash_delete.specs.Hangings.{AreHung, AreHungTo};
ghost use Rattle.plan_steps.specs.Ways.{AreBack};

use plain_model::{CommitId, NoMemory, ParentList, PlainEvent};
use plan_steps::{Selected, way_at, ways_back};
use std::alloc::Global;

/// For the place of each commit the removed ones that hang on it, in the order of the list.
pub type Hangings = Vec<ParentList>;

// Hangs the commit at a place, if it is removed, on the one that stays where its way back ends.
fn hang(
    removal: &Selected,
    back: &[Option<CommitId>],
    place: usize,
    rows: &mut [ParentList],
) -> Result<(), NoMemory>
    requires place { place < length removal.now.events }
    requires back { AreBack removal.now.set removal.now.events back.now }
    requires rows { AreHungTo removal.now.set removal.now.events place rows.old }
    ensures count { length rows.new ≡ length rows.old }
    ensures rows { OnOk result (AreHungTo removal.now.set removal.now.events (suc place) rows.new) }
{
    let _count = removal.count();
    if let PlainEvent::Commit { id, .. } = removal.nth(place) {
        if removal.has_at(place) {
            if let Some(commit) = way_at(back, place) {
                rows[removal.place(commit)].push(*id)?;
            }
        }
    }
    Ok(())
}

// No commit hangs on any.
fn none_hung(alloc: Global, removal: &Selected) -> Result<Hangings, NoMemory>
    ensures { IfOk result (λ rows. AreHungTo removal.now.set removal.now.events 0 rows.items) }
{
    let mut rows = Vec::with_capacity(alloc, removal.count())?;
    for _place in 0..removal.count() {
        rows.push(ParentList::empty(alloc))?;
    }
    Ok(rows)
}

/// Those of all commits, in one pass.
pub fn hangings(alloc: Global, removal: &Selected) -> Result<Hangings, NoMemory>
    ensures { IfOk result (λ rows. AreHung removal.now.set removal.now.events rows.items) }
{
    let back = ways_back(alloc, removal)?;
    let mut rows = none_hung(alloc, removal)?;
    for place in 0..removal.count() {
        hang(removal, &back, place, &mut rows)?;
    }
    Ok(rows)
}
