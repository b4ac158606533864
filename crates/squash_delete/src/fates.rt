//! What becomes of the events of a list where the commits of a set push forward.
ghost use Rattle.std.specs.Prelude.{
  ◌≡◌,
  ◌<◌,
  Some,
  false,
  filter,
  if◌then◌else◌,
  length,
  map,
  slice_get,
  IfOk,
  IsSome,
};
ghost use Rattle.std.specs.List.{AllByRecursion, list_any};
ghost use Rattle.plain_model.specs.Lookups.{commit_id, find_event, id_of};
ghost use Rattle.plain_model.specs.declared.id.AnyId.TheVariants.{Commit};
ghost use Rattle.plain_model.specs.declared.policy.Lean.{Lean};
ghost use Rattle.plain_model.specs.declared.policy.Push.TheVariants as push;
ghost use Rattle.plan_steps.specs.Leaving.{goes};
ghost use Rattle.plan_steps.specs.Tables.{IsTable};
ghost use Rattle.plan_steps.specs.Targets.{AreMoves, target_for};
ghost use Rattle.squash_delete.specs.Chains.{AreLinks};
ghost use Rattle.squash_delete.specs.Fates.{FateIs, IsCommitFate, taken, target_fate};
ghost use Rattle.squash_delete.specs.Standings.{AreStandingTo};
ghost use Rattle.squash_delete.specs.Taking.{comment_taken};
ghost use Rattle.squash_laws.specs.Removed.{is_removed};
ghost use Rattle.squash_laws.specs.Takings.{target_after};

use crate::chains::{LinkTable, begins_anew, carried, links};
use crate::standing::{standing, standings};
use crate::taking::{Taking, comment_taken, ops_taken};
use plain_model::{
    CommitId, FileOp, IdList, Lean, NoMemory, OpList, ParentList, PlainEvent, Policy, Push, Text,
};
use plan_steps::{Selected, leaving_ids, lost_at, target_at, target_of, targets_of};
use std::alloc::Global;

/// What becomes of an event: nothing, other parents, operations and another comment, or another target.
#[derive(Drop)]
pub enum Fate {
    Same,
    Taken {
        parents: ParentList,
        ops: OpList,
        comment: Text,
    },
    Moved(CommitId),
}

// Whether some of these commits are removed.
fn is_any_removed(removal: &Selected, commits: &[CommitId]) -> bool
    requires { AllByRecursion (λ p. IsSome (find_event (Commit p) removal.now.events)) commits.now }
    ensures { result ≡ list_any (is_removed removal.now.set) commits.now }
{
    for commit in commits {
        if removal.has(*commit) {
            return true;
        }
    }
    false
}

// The comment of a commit, joined to those that it takes over where that is wanted.
fn comment_for(
    alloc: Global,
    removal: &Selected,
    taking: &Taking,
    own: &[u8],
    comments: bool,
) -> Result<Text, NoMemory>
    ensures { IfOk result (λ comment. comment
        ≡ (if comments then comment_taken removal.now.events taking.now own.now else own.now)) }
{
    if comments {
        comment_taken(alloc, removal.list(), taking, own)
    } else {
        Text::of(alloc, own)
    }
}

// What becomes of a commit with these parents, operations and this comment.
fn taken_fate(
    alloc: Global,
    removal: &Selected,
    table: &LinkTable,
    rows: &[ParentList],
    comments: bool,
    parents: &[CommitId],
    ops: &[FileOp],
    comment: &[u8],
) -> Result<Fate, NoMemory>
    requires there { AllByRecursion
        (λ p. IsSome (find_event (Commit p) removal.now.events)) parents.now }
    requires count { table.now.count ≡ length removal.now.events }
    requires table { AreLinks removal.now.set removal.now.events table.now }
    requires rows { AreStandingTo removal.now.set removal.now.events (length removal.now.events) rows.now }
    ensures { IfOk result (λ fate. (tags : Lean) (id : _) →
        IsCommitFate removal.now.set removal.now.events comments tags id parents.now ops.now comment.now fate) }
{
    let made = standing(alloc, removal, rows, parents)?;
    let before = carried(alloc, removal, table, parents)?;
    let anew = begins_anew(removal, table, parents);
    let taking = Taking::new(anew, &before, &[]);
    let ops = ops_taken(alloc, removal.list(), &taking, ops)?;
    let comment = comment_for(alloc, removal, &taking, comment, comments)?;
    Ok(Fate::Taken {
        parents: made,
        ops,
        comment,
    })
}

// What becomes of a commit that stays. Where none of its parents is removed, nothing does.
fn commit_fate(
    alloc: Global,
    removal: &Selected,
    table: &LinkTable,
    rows: &[ParentList],
    comments: bool,
    place: usize,
) -> Result<Fate, NoMemory>
    requires place { place < length removal.now.events }
    requires count { table.now.count ≡ length removal.now.events }
    requires table { AreLinks removal.now.set removal.now.events table.now }
    requires rows { AreStandingTo removal.now.set removal.now.events (length removal.now.events) rows.now }
    ensures { IfOk result (λ fate. (tags : Lean) (event : _) (c : _) →
        slice_get removal.now.events place ≡ Some event → commit_id event ≡ Some c →
        is_removed removal.now.set c ≡ false →
        FateIs removal.now.set removal.now.events comments tags event fate) }
{
    let _count = removal.count();
    let PlainEvent::Commit {
        parents,
        ops,
        comment,
        ..
    } = removal.nth(place)
    else {
        return Ok(Fate::Same);
    };
    let parents = parents.as_slice();
    if !is_any_removed(removal, parents) {
        return Ok(Fate::Same);
    }
    taken_fate(
        alloc,
        removal,
        table,
        rows,
        comments,
        parents,
        ops.as_slice(),
        comment.as_slice(),
    )
}

// What becomes of a tag or a reset that is on a commit, from where it goes.
fn target_fate(old: Option<CommitId>, new: Option<CommitId>) -> Fate
    ensures { result ≡ target_fate old new }
{
    let Some(new) = new else {
        return Fate::Same;
    };
    match old {
        Some(old) => if old == new {
            Fate::Same
        } else {
            Fate::Moved(new)
        },
        None => Fate::Same,
    }
}

// Where the tag or the reset at a place goes, or stays.
fn target_in(removal: &Selected, targets: &[Option<CommitId>], place: usize) -> Option<CommitId>
    requires { place < length removal.now.events }
    ensures { (tags : Lean) (event : _) →
        AreMoves removal.now.set (target_after removal.now.set removal.now.events push.Forward tags) removal.now.events targets.now →
        slice_get removal.now.events place ≡ Some event →
        result ≡ target_for (target_after removal.now.set removal.now.events push.Forward tags) event }
{
    match lost_at(removal, place) {
        Some(_) => target_at(targets, place),
        None => target_of(removal.nth(place)),
    }
}

// What becomes of the event at a place.
fn fate_at(
    alloc: Global,
    removal: &Selected,
    table: &LinkTable,
    rows: &[ParentList],
    targets: &[Option<CommitId>],
    comments: bool,
    place: usize,
) -> Result<Fate, NoMemory>
    requires place { place < length removal.now.events }
    requires count { table.now.count ≡ length removal.now.events }
    requires table { AreLinks removal.now.set removal.now.events table.now }
    requires rows { AreStandingTo removal.now.set removal.now.events (length removal.now.events) rows.now }
    ensures { IfOk result (λ fate. (tags : Lean) (event : _) →
        AreMoves removal.now.set (target_after removal.now.set removal.now.events push.Forward tags) removal.now.events targets.now →
        slice_get removal.now.events place ≡ Some event →
        FateIs removal.now.set removal.now.events comments tags event fate) }
{
    let _count = removal.count();
    if removal.has_at(place) {
        return Ok(Fate::Same);
    }
    let event = removal.nth(place);
    match event {
        PlainEvent::Commit { .. } => commit_fate(alloc, removal, table, rows, comments, place),
        _ => Ok(target_fate(target_of(event), target_in(removal, targets, place))),
    }
}

/// Which events go, and what becomes of all.
#[derive(Drop)]
pub struct Prepared {
    pub ids: IdList,
    pub fates: Vec<Fate>,
}

/// Finds both, in one pass. The list is only looked at.
pub fn prepare(
    alloc: Global,
    removal: &Selected,
    comments: bool,
    tags: Lean,
) -> Result<Prepared, NoMemory>
    ensures ids { IfOk result (λ made. made.ids ≡ map id_of
        (filter (goes removal.now.set (taken removal.now.set removal.now.events comments tags)) removal.now.events)) }
    ensures fates { IfOk result (λ made. IsTable Fate.Same
        (FateIs removal.now.set removal.now.events comments tags) removal.now.events made.fates.items) }
{
    let how = Policy {
        push: Push::Forward,
        tags,
    };
    let targets = targets_of(alloc, removal, how)?;
    let ids = leaving_ids(alloc, removal, &targets)?;
    let table = links(alloc, removal)?;
    let rows = standings(alloc, removal)?;
    let mut fates = Vec::with_capacity(alloc, removal.count())?;
    for place in 0..removal.count() {
        fates.push(fate_at(alloc, removal, &table, &rows, &targets, comments, place)?)?;
    }
    Ok(Prepared { ids, fates })
}
