//! A history is divided.
ghost use Rattle.edit_laws.specs.Selecting.{IsSelection};
ghost use Rattle.std.specs.Prelude.{◌≡◌, length, map, nat_lt, IfOk};
ghost use Rattle.divide_laws.specs.Divide.{divide_at, divide_of};
ghost use Rattle.divide_laws.specs.Sides.{is_commit_among};
ghost use Rattle.history_laws.specs.FirstParents.{ops_along};
ghost use Rattle.manifest_cache.specs.Kept.{AgreesWith};
ghost use Rattle.plain_model.specs.Faults.{Returns};
ghost use Rattle.plain_model.specs.Histories.{nodes};
ghost use Rattle.plain_model.specs.Soundness.{IsCommitOf, IsSound};
ghost use Rattle.plain_model.specs.declared.limit.TheConstants.{MAX_OPERATIONS};

use crate::cutting::{commit_mark, cut_link};
use crate::halving::halves;
use crate::parting::parted;
use crate::walk::late_side;
use divide_laws::{Halves, Link, halves_are_sound};
use event_arena::Events;
use manifest_cache::Manifests;
use plain_model::{AnyId, CommitId, EventList, Fault, Halt, MAX_OPERATIONS, Which};
use std::alloc::Global;

// Whether a commit has a flag.
fn is_flagged(events: &Events, commit: CommitId, flags: &[bool]) -> bool
    requires { length flags.now ≡ length events.now.list }
    ensures { (has : _) → flags.now ≡ map (is_commit_among has) events.now.list →
        IsCommitOf events.now.list commit → result ≡ has commit }
{
    let _count = events.count();
    match events.place(AnyId::Commit(commit)) {
        Some(place) => flags[place],
        None => false,
    }
}

// Whether the commits of a list have more operations than those of a history may have.
fn has_many(list: &EventList) -> bool
    ensures { result ≡ nat_lt MAX_OPERATIONS (length (ops_along (nodes list.now))) }
{
    let mut left = MAX_OPERATIONS;
    for row in list.as_slice() {
        let more = row.as_ref().ops().len() as u64;
        if left < more {
            return true;
        }
        left -= more;
    }
    false
}

// The halves of a history without a link.
fn divide_at(
    alloc: Global,
    events: &Events,
    manifests: &mut Manifests,
    cut: Link,
) -> Result<Halves, Halt>
    requires parent { IsCommitOf events.now.list cut.parent }
    requires child { IsCommitOf events.now.list cut.child }
    requires agrees { AgreesWith events.now.list manifests.old }
    ensures answer { Returns (λ halves. halves) result (divide_at events.now.list cut) }
    ensures kept { AgreesWith events.now.list manifests.new }
{
    let _count = events.count();
    let parent = cut.parent;
    let child = cut.child;
    let late = late_side(alloc, events, Link { parent, child })?;
    if is_flagged(events, parent, &late) {
        let mark = commit_mark(events, child);
        return Err(Halt::Refused(Fault::StillConnected { mark }));
    }
    let plan = parted(alloc, events, manifests, Link { parent, child })?;
    let halves = halves(alloc, &plan, &late)?;
    if has_many(&halves.late) {
        return Err(Halt::Refused(Fault::Limit {
            which: Which::Operations,
            number: MAX_OPERATIONS,
        }));
    }
    Ok(halves)
}

/// The two histories into which a history falls where the link between a commit and its only child is cut, or that
/// between two commits: the late one has the child, and all that links still join to it. Each commit keeps its tree.
/// Refused where it isn't one or two events, where one isn't a commit, where there is no such link, where other links
/// still join both commits, and where the late half would have more operations than a history may have. (reposurgeon
/// manual, `divide`.)
pub fn divide(
    alloc: Global,
    events: &Events,
    manifests: &mut Manifests,
    set: &[AnyId],
) -> Result<Halves, Halt>
    requires selection { IsSelection events.now.list set.now }
    requires agrees { AgreesWith events.now.list manifests.old }
    ensures answer { Returns (λ halves. halves) result (divide_of set.now events.now.list) }
    ensures early { IfOk result (λ halves. IsSound halves.early) }
    ensures late { IfOk result (λ halves. IsSound halves.late) }
    ensures kept { AgreesWith events.now.list manifests.new }
{
    let _count = events.count();
    match cut_link(alloc, events, set) {
        Ok(cut) => match divide_at(alloc, events, manifests, cut) {
            Ok(halves) => {
                halves_are_sound();
                Ok(halves)
            }
            Err(halt) => Err(halt),
        },
        Err(halt) => Err(halt),
    }
}
