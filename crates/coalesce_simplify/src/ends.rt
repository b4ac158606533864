//! Where tags and resets of joined commits go.
ghost use Rattle.std.specs.Prelude.{◌≡◌, ◌<◌, None, Some, length, slice_get, slice_index_or, suc, IfOk};
ghost use Rattle.coalesce_simplify.specs.Joining.{AreEndsFrom, AreJoined, EndIs, end_of};

use plain_model::{AnyId, CommitId, NoMemory, PlainEvent};
use plan_steps::Flagged;
use std::alloc::Global;

// What stands at a place.
fn end_in(ends: &[Option<CommitId>], place: usize) -> Option<CommitId>
    requires { place < length ends.now }
    ensures { result ≡ slice_index_or ends.now place None }
{
    ends[place]
}

// The commit that stays after the one at a place, if that is joined.
fn end_at(going: &Flagged, ends: &[Option<CommitId>], place: usize) -> Option<CommitId>
    requires place { place < length going.now.events }
    requires joined { AreJoined going.now.set going.now.events }
    requires ends { AreEndsFrom going.now.set going.now.events (suc place) ends.now }
    ensures { (event : _) → slice_get going.now.events place ≡ Some event →
        EndIs going.now.set going.now.events event result }
{
    let _count = going.count();
    let event = going.nth(place);
    if !going.has_at(place) {
        return None;
    }
    let PlainEvent::Commit { id, .. } = event else {
        return None;
    };
    let child = going.events().first_child(*id)?;
    let at = going.events().place(AnyId::Commit(child))?;
    if going.has_at(at) {
        end_in(ends, at)
    } else {
        Some(child)
    }
}

/// For the place of each joined commit the one that stays after it, in one pass from the end.
pub fn ends(alloc: Global, going: &Flagged) -> Result<Vec<Option<CommitId>>, NoMemory>
    requires { AreJoined going.now.set going.now.events }
    ensures { IfOk result (λ ends. AreEndsFrom going.now.set going.now.events 0 ends.items) }
{
    let count = going.count();
    let mut ends = vec![in alloc; None; count]?;
    for done in 0..count {
        let end = end_at(going, &ends, count - 1 - done);
        ends[count - 1 - done] = end;
    }
    Ok(ends)
}

/// The commit to which tags and resets of a commit go: itself, if it isn't joined.
pub fn end_of(going: &Flagged, ends: &[Option<CommitId>], commit: CommitId) -> CommitId
    requires joined { AreJoined going.now.set going.now.events }
    requires ends { AreEndsFrom going.now.set going.now.events 0 ends.now }
    ensures { result ≡ end_of going.now.set going.now.events commit }
{
    let _count = going.count();
    let Some(at) = going.events().place(AnyId::Commit(commit)) else {
        return commit;
    };
    if going.has_at(at) {
        end_in(ends, at).unwrap_or(commit)
    } else {
        commit
    }
}
