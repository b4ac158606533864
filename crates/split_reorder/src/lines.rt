//! A line of commits: each has the one before it as its only parent, and is its only child.
ghost use Rattle.std.specs.Prelude.{◌≡◌, ◌&&◌};
ghost use Rattle.commit_laws.specs.Selected.{node_of};
ghost use Rattle.plain_model.specs.Lookups.{children_of};
ghost use Rattle.reorder_laws.specs.Reorder.{last_of, line_fault};
ghost use Rattle.history_laws.specs.Finding.{is_only};

use event_arena::Events;
use plain_model::{AnyId, CommitId, Fault};
use plan_steps::{event_number, parents_of};

/// The last of a commit and those after it.
pub fn last_of(first: CommitId, rest: &[CommitId]) -> CommitId
    ensures { result ≡ last_of first rest.now }
{
    match rest.last() {
        Some(last) => *last,
        None => first,
    }
}

// Whether a list has the commit alone.
fn is_only(commit: CommitId, list: &[CommitId]) -> bool
    ensures { result ≡ is_only commit list.now }
{
    match list {
        [one] => *one == commit,
        _ => false,
    }
}

// Whether a commit is the only child of another one. It looks at two children at most.
fn is_only_child(events: &Events, parent: CommitId, commit: CommitId) -> bool
    ensures { result ≡ is_only commit (children_of parent events.now.list) }
{
    let mut children = events.children(parent);
    match children.next() {
        Some(child) => child == commit && children.next().is_none(),
        None => false,
    }
}

// Whether a commit follows another one in a line.
fn follows(events: &Events, before: CommitId, commit: CommitId) -> bool
    ensures { result ≡ (is_only before (node_of events.now.list commit).parents
        && is_only commit (children_of before events.now.list)) }
{
    is_only(before, parents_of(events, commit)) && is_only_child(events, before, commit)
}

/// The fault of the first of some commits that doesn't follow the one before it.
pub fn line_fault(events: &Events, first: CommitId, rest: &[CommitId]) -> Option<Fault>
    ensures { result ≡ line_fault events.now.list first rest.now }
{
    let mut before = first;
    for commit in rest {
        if !follows(events, before, *commit) {
            let event = event_number(events, AnyId::Commit(*commit));
            return Some(Fault::NotLinear { event });
        }
        before = *commit;
    }
    None
}
