//! Which commits are joined to a next one.
ghost use Rattle.std.specs.Prelude.{◌≡◌, ◌&&◌, ◌<◌, Some, bytes_eq, length, slice_get, IfOk};
ghost use Rattle.std.specs.List.{list_any};
ghost use Rattle.coalesce_laws.specs.Coalesce.{are_near, is_joined_to, joined_ones};
ghost use Rattle.history_laws.specs.Finding.{is_only};
ghost use Rattle.coalesce_simplify.specs.Joining.{agree, are_linked, only_of};
ghost use Rattle.plain_model.specs.Lookups.{children_of, commit_id, find_event, id_of};

use event_arena::Events;
use plain_model::{AnyId, CommitId, IdList, NoMemory, PlainEvent, Signed};
use plan_steps::Flagged;
use std::alloc::Global;

// Whether a list has the commit alone.
fn is_only(commit: CommitId, list: &[CommitId]) -> bool
    ensures { result ≡ is_only commit list.now }
{
    match list {
        [one] => *one == commit,
        _ => false,
    }
}

// The only child of a commit. It looks at two children at most.
fn only_child(events: &Events, commit: CommitId) -> Option<CommitId>
    ensures { result ≡ only_of (children_of commit events.now.list) }
{
    let mut children = events.children(commit);
    let child = children.next()?;
    if children.next().is_some() {
        return None;
    }
    Some(child)
}

// Whether one person committed both, with at most so many seconds between the two.
fn are_near(seconds: u64, one: &Signed, other: &Signed) -> bool
    ensures { result ≡ are_near seconds one.now other.now }
{
    let apart = if one.when.seconds < other.when.seconds {
        other.when.seconds - one.when.seconds
    } else {
        one.when.seconds - other.when.seconds
    };
    let person = one.person.as_ref();
    let other_person = other.person.as_ref();
    person.name.as_slice() == other_person.name.as_slice()
        && person.email.as_slice() == other_person.email.as_slice()
        && apart <= seconds
}

// Whether the branches, comments and committers of two commits agree.
fn agree(seconds: u64, event: &PlainEvent, child: &PlainEvent) -> bool
    ensures { result ≡ agree seconds event.now child.now }
{
    let PlainEvent::Commit {
        branch,
        committer,
        comment,
        ..
    } = event
    else {
        return false;
    };
    let PlainEvent::Commit {
        branch: next_branch,
        committer: next_committer,
        comment: next_comment,
        ..
    } = child
    else {
        return false;
    };
    branch.as_slice() == next_branch.as_slice()
        && comment.as_slice() == next_comment.as_slice()
        && are_near(seconds, committer, next_committer)
}

// Whether two commits are of the set, and the first one is the only parent of the second one, which has these parents.
fn are_linked(chosen: &Flagged, commit: CommitId, next: CommitId, parents: &[CommitId]) -> bool
    ensures { result ≡ are_linked chosen.now.set chosen.now.events commit next parents.now }
{
    chosen.has(commit) && chosen.has(next) && is_only(commit, parents)
}

// Whether a commit is joined to its only child.
fn is_joined_to(chosen: &Flagged, seconds: u64, event: &PlainEvent, child: &PlainEvent) -> bool
    requires event { find_event (id_of event.now) chosen.now.events ≡ Some event.now }
    requires child { find_event (id_of child.now) chosen.now.events ≡ Some child.now }
    requires only { (c d : _) → commit_id event.now ≡ Some c → commit_id child.now ≡ Some d →
        only_of (children_of c chosen.now.events) ≡ Some d }
    ensures { result ≡ is_joined_to seconds chosen.now.set chosen.now.events event.now child.now }
{
    let PlainEvent::Commit { id, .. } = event else {
        return false;
    };
    let PlainEvent::Commit {
        id: next,
        parents,
        ..
    } = child
    else {
        return false;
    };
    are_linked(chosen, *id, *next, parents.as_slice()) && agree(seconds, event, child)
}

// Whether the event at a place is joined to a next one.
fn is_joined_at(chosen: &Flagged, seconds: u64, place: usize) -> bool
    requires { place < length chosen.now.events }
    ensures { (event : _) → slice_get chosen.now.events place ≡ Some event → result
        ≡ list_any (is_joined_to seconds chosen.now.set chosen.now.events event) chosen.now.events }
{
    let _count = chosen.count();
    let event = chosen.nth(place);
    if !chosen.has_at(place) {
        return false;
    }
    let PlainEvent::Commit { id, .. } = event else {
        return false;
    };
    let Some(child) = only_child(chosen.events(), *id) else {
        return false;
    };
    match chosen.events().event(AnyId::Commit(child)) {
        Some(next) => is_joined_to(chosen, seconds, event, next),
        None => false,
    }
}

/// The ids of the commits that are joined to a next one, in the order of the list.
pub fn joined_ones(alloc: Global, chosen: &Flagged, seconds: u64) -> Result<IdList, NoMemory>
    ensures { IfOk result (λ ids. ids ≡ joined_ones seconds chosen.now.set chosen.now.events) }
{
    let mut ids = IdList::new(alloc)?;
    for place in 0..chosen.count() {
        if is_joined_at(chosen, seconds, place) {
            ids.push(chosen.nth(place).id())?;
        }
    }
    Ok(ids)
}
