//! From where on a plan changes what trees depend on.
ghost use Rattle.std.specs.Prelude.{◌≡◌, ◌≤◌, ◌↔◌, IsTrue, length, take};
ghost use Rattle.manifest_cache.specs.Checking.{links, own_link};

use crate::equal_ops::same_ops;
use crate::walk::first_parent;
use event_arena::Plan;
use plain_model::{CommitId, PlainEvent};

fn same_id(one: Option<CommitId>, other: Option<CommitId>) -> bool
    ensures { IsTrue result ↔ one ≡ other }
{
    match (one, other) {
        (Some(one), Some(other)) => one.number() == other.number(),
        (None, None) => true,
        _ => false,
    }
}

// Whether two events are the same commit with the same first parent and operations, or both no commits.
fn is_alike(old: &PlainEvent, new: &PlainEvent) -> bool
    ensures { IsTrue result → own_link old.now ≡ own_link new.now }
{
    same_id(old.commit_id(), new.commit_id())
        && same_id(first_parent(old), first_parent(new))
        && same_ops(old.ops(), new.ops())
}

/// The number of events in front that are alike before and after.
pub fn first_changed(plan: &Plan) -> usize
    ensures within { result ≤ length plan.now.after }
    ensures alike { links (take result plan.now.before) ≡ links (take result plan.now.after) }
{
    let most = plan.old_count().min(plan.count());
    for place in 0..most {
        if !is_alike(plan.old_nth(place), plan.nth(place)) {
            return place;
        }
    }
    most
}
