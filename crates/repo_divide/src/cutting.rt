//! Which link is cut, or why none is.
ghost use Rattle.edit_laws.specs.Selecting.{IsSelection};
ghost use Rattle.std.specs.Prelude.{◌≡◌, ◌==◌, ◌||◌, length, IfOk, IsSome};
ghost use Rattle.std.specs.List.{AllByRecursion};
ghost use Rattle.divide_laws.specs.Divide.{cut_link, link_between, link_said, only_link};
ghost use Rattle.plain_model.specs.Faults.{Returns};
ghost use Rattle.plain_model.specs.Lookups.{children_of, find_event};
ghost use Rattle.plain_model.specs.Snapshots.{commit_mark};
ghost use Rattle.plain_model.specs.Soundness.{IsCommitOf};
ghost use Rattle.plain_model.specs.declared.id.AnyId.TheVariants.{Commit};

use commit_laws::a_selection_has_its_commits_once;
use divide_laws::Link;
use event_arena::Events;
use plain_model::{AnyId, CommitId, Fault, Halt, Items, Mark, NoMemory, PlainEvent};
use plan_steps::{chosen, kind_fault, parents_of};
use std::alloc::Global;

/// The mark of a commit.
pub fn commit_mark(events: &Events, commit: CommitId) -> Mark
    requires { IsSome (find_event (Commit commit) events.now.list) }
    ensures { result ≡ commit_mark events.now.list commit }
{
    let event = events.event(AnyId::Commit(commit)).unwrap();
    let PlainEvent::Commit { mark, .. } = event else {
        unreachable!()
    };
    *mark
}

// The children of a commit.
fn children_of(
    alloc: Global,
    events: &Events,
    parent: CommitId,
) -> Result<Items<CommitId>, NoMemory>
    ensures { IfOk result (λ children. children ≡ children_of parent events.now.list) }
{
    let mut children = Items::new(alloc)?;
    for child in events.children(parent) {
        children.push(child)?;
    }
    Ok(children)
}

// The link of a commit to its only child, these being its children.
fn only_link(events: &Events, parent: CommitId, children: &[CommitId]) -> Result<Link, Fault>
    requires { IsCommitOf events.now.list parent }
    ensures { result ≡ only_link events.now.list parent children.now }
{
    match children {
        [child] => Ok(Link {
            parent,
            child: *child,
        }),
        _ => {
            let found = children.len() as u64;
            let mark = commit_mark(events, parent);
            Err(Fault::ChildCount { mark, found })
        }
    }
}

// The link of a commit to another one.
fn link_between(events: &Events, parent: CommitId, child: CommitId) -> Result<Link, Fault>
    requires { IsCommitOf events.now.list child }
    ensures { result ≡ link_between events.now.list parent child }
{
    if parents_of(events, child).contains(&parent) {
        Ok(Link { parent, child })
    } else {
        let mark = commit_mark(events, child);
        Err(Fault::NotAdjacent { mark })
    }
}

// A fault refuses the command.
fn answered(said: Result<Link, Fault>) -> Result<Link, Halt>
    ensures { Returns (λ link. link) result said }
{
    match said {
        Ok(link) => Ok(link),
        Err(fault) => Err(Halt::Refused(fault)),
    }
}

// The link that some commits say.
fn link_said(alloc: Global, events: &Events, commits: &[CommitId]) -> Result<Link, Halt>
    requires { AllByRecursion (IsCommitOf events.now.list) commits.now }
    ensures { Returns (λ link. link) result (link_said events.now.list commits.now) }
{
    match commits {
        [parent] => {
            let children = children_of(alloc, events, *parent)?;
            answered(only_link(events, *parent, children.as_slice()))
        }
        [parent, child] => answered(link_between(events, *parent, *child)),
        _ => {
            let found = commits.len() as u64;
            Err(Halt::Refused(Fault::WrongCount { found }))
        }
    }
}

// Whether so many events can say a link.
fn can_say(set: &[AnyId]) -> bool
    ensures { result ≡ (length set.now == 1 || length set.now == 2) }
{
    set.len() == 1 || set.len() == 2
}

/// The link that a selection says: that of a commit to its only child, or that of one to another. Refused where it
/// isn't one or two events, where one of them isn't a commit, where there is no child or several, and where the second
/// isn't a child of the first.
pub fn cut_link(alloc: Global, events: &Events, set: &[AnyId]) -> Result<Link, Halt>
    requires { IsSelection events.now.list set.now }
    ensures { Returns (λ link. link) result (cut_link set.now events.now.list) }
{
    if !can_say(set) {
        let found = set.len() as u64;
        return Err(Halt::Refused(Fault::WrongCount { found }));
    }
    if let Some(fault) = kind_fault(events, set) {
        return Err(Halt::Refused(fault));
    }
    let commits = chosen(alloc, set)?;
    a_selection_has_its_commits_once();
    link_said(alloc, events, commits.as_slice())
}
