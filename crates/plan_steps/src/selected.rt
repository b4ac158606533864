//! Which events a command is for: so many, and commits alone.
ghost use Rattle.std.specs.Prelude.{◌≡◌, IfOk};
ghost use Rattle.commit_laws.specs.Selected.{chosen, kind_fault, not_a_commit, the_commit};
ghost use Rattle.history_laws.specs.Finding.{event_number};

use event_arena::Events;
use plain_model::{AnyId, CommitId, Fault, Items, NoMemory};
use std::alloc::Global;

/// The number of an event, 0 where it isn't there.
pub fn event_number(events: &Events, id: AnyId) -> u64
    ensures { result ≡ event_number events.now.list id }
{
    events.number_of(id).unwrap_or(0) as u64
}

/// The fault of an event that isn't a commit.
fn not_a_commit(events: &Events, id: AnyId) -> Fault
    ensures { result ≡ not_a_commit events.now.list id }
{
    let event = event_number(events, id);
    Fault::NotACommit { event }
}

/// The one event of a set, which has to be a commit.
pub fn the_commit(events: &Events, set: &[AnyId]) -> Result<CommitId, Fault>
    ensures { result ≡ the_commit events.now.list set.now }
{
    match set {
        [AnyId::Commit(commit)] => Ok(*commit),
        [id] => Err(not_a_commit(events, *id)),
        _ => Err(Fault::WrongCount {
            found: set.len() as u64,
        }),
    }
}

/// The fault of the first event of a set that isn't a commit, if there is one.
pub fn kind_fault(events: &Events, set: &[AnyId]) -> Option<Fault>
    ensures { result ≡ kind_fault events.now.list set.now }
{
    for id in set {
        match id {
            AnyId::Commit(_) => {}
            _ => return Some(not_a_commit(events, *id)),
        }
    }
    None
}

/// The commits of a set, in the order of the set.
pub fn chosen(alloc: Global, set: &[AnyId]) -> Result<Items<CommitId>, NoMemory>
    ensures { IfOk result (λ commits. commits ≡ chosen set.now) }
{
    let mut commits = Items::new(alloc)?;
    for id in set {
        if let AnyId::Commit(commit) = id {
            commits.push(*commit)?;
        }
    }
    Ok(commits)
}
