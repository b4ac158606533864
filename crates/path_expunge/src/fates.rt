//! What becomes of the events of a plan where its emptied commits give way.
ghost use Rattle.std.specs.Prelude.{
  ◌≡◌,
  ◌<◌,
  Some,
  length,
  slice_get,
  IfOk,
  IsSome,
};
ghost use Rattle.std.specs.List.{AllByRecursion};
ghost use Rattle.expunge_laws.specs.InLine.{IsInLine, is_cut_off, parents_in_line};
ghost use Rattle.path_expunge.specs.Fates.{FateIs, IsCommitFate, begins_anew, target_fate};
ghost use Rattle.plain_model.specs.Histories.{nodes};
ghost use Rattle.plain_model.specs.Lookups.{find_event};
ghost use Rattle.plain_model.specs.declared.id.AnyId.TheVariants.{Commit};
ghost use Rattle.plan_steps.specs.Tables.{IsTable};
ghost use Rattle.plan_steps.specs.Targets.{AreMoves, moving, target_for};
ghost use Rattle.plan_steps.specs.Ways.{AreBackOfRemoved};
ghost use Rattle.squash_laws.specs.Takings.{back_of};
ghost use Rattle.plain_model.specs.declared.policy.Lean.TheVariants as lean;

use plain_model::{CommitId, NoMemory, ParentList, PlainEvent};
use plan_steps::{Selected, lost_at, stand_in, target_at, target_of};
use std::alloc::Global;

/// What becomes of an event: nothing, other parents, other parents and a beginning without files, or another target.
#[derive(Drop)]
pub enum Fate {
    Same,
    Linked(ParentList),
    Anew(ParentList),
    Moved(CommitId),
}

// The commit in the place of another one, if there is one.
fn back_of(removal: &Selected, back: &[Option<CommitId>], commit: CommitId) -> Option<CommitId>
    requires back { AreBackOfRemoved removal.now.set removal.now.events back.now }
    requires there { IsSome (find_event (Commit commit) removal.now.events) }
    ensures { result ≡ back_of removal.now.set removal.now.events commit }
{
    let _count = removal.count();
    stand_in(removal, back, removal.place(commit), commit)
}

// The parents in the place of these, each once.
fn parents_in_line(
    alloc: Global,
    removal: &Selected,
    back: &[Option<CommitId>],
    parents: &[CommitId],
) -> Result<ParentList, NoMemory>
    requires back { AreBackOfRemoved removal.now.set removal.now.events back.now }
    requires there { AllByRecursion
        (λ p. IsSome (find_event (Commit p) removal.now.events)) parents.now }
    ensures { IfOk result
        (λ made. made ≡ parents_in_line removal.now.set removal.now.events parents.now) }
{
    let mut made = ParentList::new(alloc)?;
    for parent in parents {
        if let Some(commit) = back_of(removal, back, *parent) {
            if !made.as_slice().contains(&commit) {
                made.push(commit)?;
            }
        }
    }
    Ok(made)
}

// Whether nothing is in the place of the first of these parents.
fn is_cut_off(removal: &Selected, back: &[Option<CommitId>], parents: &[CommitId]) -> bool
    requires back { AreBackOfRemoved removal.now.set removal.now.events back.now }
    requires there { AllByRecursion
        (λ p. IsSome (find_event (Commit p) removal.now.events)) parents.now }
    ensures { result ≡ is_cut_off removal.now.set removal.now.events parents.now }
{
    match parents.first() {
        Some(parent) => back_of(removal, back, *parent).is_none(),
        None => false,
    }
}

// Whether a commit with these parents, in whose place others come, begins without files.
fn begins_anew(
    removal: &Selected,
    back: &[Option<CommitId>],
    parents: &[CommitId],
    made: &[CommitId],
) -> bool
    requires back { AreBackOfRemoved removal.now.set removal.now.events back.now }
    requires there { AllByRecursion
        (λ p. IsSome (find_event (Commit p) removal.now.events)) parents.now }
    requires made { made.now ≡ parents_in_line removal.now.set removal.now.events parents.now }
    ensures { result ≡ begins_anew removal.now.set removal.now.events parents.now }
{
    is_cut_off(removal, back, parents) && !made.is_empty()
}

// What becomes of a commit.
fn commit_fate(
    alloc: Global,
    removal: &Selected,
    back: &[Option<CommitId>],
    parents: &[CommitId],
) -> Result<Fate, NoMemory>
    requires back { AreBackOfRemoved removal.now.set removal.now.events back.now }
    requires there { AllByRecursion
        (λ p. IsSome (find_event (Commit p) removal.now.events)) parents.now }
    ensures { IfOk result (λ fate.
        IsCommitFate removal.now.set removal.now.events parents.now fate) }
{
    let made = parents_in_line(alloc, removal, back, parents)?;
    if begins_anew(removal, back, parents, made.as_slice()) {
        return Ok(Fate::Anew(made));
    }
    if made.as_slice() == parents {
        return Ok(Fate::Same);
    }
    Ok(Fate::Linked(made))
}

// What becomes of a tag or a reset that is on a commit, from where it goes.
fn target_fate(old: Option<CommitId>, new: Option<CommitId>) -> Fate
    ensures { result ≡ target_fate old new }
{
    let Some(new) = new else {
        return Fate::Same;
    };
    match old {
        Some(old) => if old == new {
            Fate::Same
        } else {
            Fate::Moved(new)
        },
        None => Fate::Same,
    }
}

// Where the tag or the reset at a place goes, or stays.
fn target_in(removal: &Selected, targets: &[Option<CommitId>], place: usize) -> Option<CommitId>
    requires place { place < length removal.now.events }
    requires targets { AreMoves removal.now.set
        (moving removal.now.set removal.now.events lean.Forward) removal.now.events targets.now }
    ensures { (event : _) → slice_get removal.now.events place ≡ Some event →
        result ≡ target_for (moving removal.now.set removal.now.events lean.Forward) event }
{
    match lost_at(removal, place) {
        Some(_) => target_at(targets, place),
        None => target_of(removal.nth(place)),
    }
}

// What becomes of the event at a place.
fn fate_at(
    alloc: Global,
    removal: &Selected,
    back: &[Option<CommitId>],
    targets: &[Option<CommitId>],
    place: usize,
) -> Result<Fate, NoMemory>
    requires place { place < length removal.now.events }
    requires back { AreBackOfRemoved removal.now.set removal.now.events back.now }
    requires targets { AreMoves removal.now.set
        (moving removal.now.set removal.now.events lean.Forward) removal.now.events targets.now }
    requires line { AllByRecursion
        (IsInLine removal.now.set removal.now.events) (nodes removal.now.events) }
    ensures { IfOk result (λ fate. (event : _) → slice_get removal.now.events place ≡ Some event →
        FateIs removal.now.set removal.now.events event fate) }
{
    let _count = removal.count();
    if removal.has_at(place) {
        return Ok(Fate::Same);
    }
    let event = removal.nth(place);
    match event {
        PlainEvent::Commit { parents, .. } => {
            commit_fate(alloc, removal, back, parents.as_slice())
        }
        _ => Ok(target_fate(target_of(event), target_in(removal, targets, place))),
    }
}

/// What becomes of all events. Those that aren't near stay as they are, and aren't looked at.
pub fn fates(
    alloc: Global,
    removal: &Selected,
    back: &[Option<CommitId>],
    targets: &[Option<CommitId>],
) -> Result<Vec<Fate>, NoMemory>
    requires back { AreBackOfRemoved removal.now.set removal.now.events back.now }
    requires targets { AreMoves removal.now.set
        (moving removal.now.set removal.now.events lean.Forward) removal.now.events targets.now }
    requires line { AllByRecursion
        (IsInLine removal.now.set removal.now.events) (nodes removal.now.events) }
    ensures { IfOk result (λ fates. IsTable Fate.Same
        (FateIs removal.now.set removal.now.events) removal.now.events fates.items) }
{
    let mut table = Vec::with_capacity(alloc, removal.count())?;
    let mut near = removal.next_near(0);
    for place in 0..removal.count() {
        if place < near {
            table.push(Fate::Same)?;
        } else {
            table.push(fate_at(alloc, removal, back, targets, place)?)?;
            near = removal.next_near(place + 1);
        }
    }
    Ok(table)
}
