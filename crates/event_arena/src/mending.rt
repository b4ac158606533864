//! How the links of a history follow a plan that touched few events.
ghost use Rattle.std.specs.Prelude.{◌≡◌, ◌≤◌, Some, length, true};
ghost use Rattle.event_arena.specs.Families.{IsRoomKept};
ghost use Rattle.event_arena.specs.Indices.{HasChildren};
ghost use Rattle.event_arena.specs.Touched.{AreMarksKept, DifferAtMost};

use crate::kept_marks::keep_marks;
use crate::links::Links;
use crate::relinking::relink_parents_of;
use crate::shifting::shift;
use crate::table::EventTable;
use crate::touched::Touched;
use plain_model::AnyId;

// Links the parents of touched events to their children anew: those that they have after, and those that they had. No other
// commit has other children than before. Answers whether there was room.
fn relink_touched(
    before: &EventTable,
    after: &EventTable,
    touched: &[AnyId],
    places: &mut Vec<usize>,
    links: &mut Links,
) -> bool
    requires places { length after.now ≤ length links.old.lists }
    requires touched { DifferAtMost (Some touched.now) before.now after.now }
    requires children { HasChildren links.old.lists after.now before.now }
    ensures room { IsRoomKept links.old links.new }
    ensures children { result ≡ true → HasChildren links.new.lists after.now after.now }
{
    let _before = before.count();
    let _after = after.count();
    for id in touched {
        if !relink_parents_of(before, *id, after, touched, places, links)
            || !relink_parents_of(after, *id, after, touched, places, links)
        {
            return false;
        }
    }
    true
}

// Whether it takes less to link the parents of some events anew than all commits of a list of so many events.
fn are_few(ids: &[AnyId], count: usize) -> bool {
    ids.len() <= count / 256 + 4
}

/// Mends the links of a history where a plan touched few events, put none in, and kept their order and all marks. Answers
/// whether it did; if not, both indices are to be filled anew. `places` is room to work in.
pub fn mend(
    before: &EventTable,
    after: &EventTable,
    touched: &Touched,
    places: &mut Vec<usize>,
    links: &mut Links,
) -> bool
    requires places { length before.now ≤ length links.old.lists }
    requires touched { DifferAtMost touched.now before.now after.now }
    requires children { HasChildren links.old.lists before.now before.now }
    ensures room { IsRoomKept links.old links.new }
    ensures count { result ≡ true → length after.now ≤ length before.now }
    ensures marks { result ≡ true → AreMarksKept before.now after.now }
    ensures children { result ≡ true → HasChildren links.new.lists after.now after.now }
{
    let Some(ids) = touched.ids() else {
        return false;
    };
    let old = before.count();
    let new = after.count();
    if old < new || !are_few(ids, new) {
        return false;
    }
    if !keep_marks(before, after, ids) || !shift(before, after, links) {
        return false;
    }
    relink_touched(before, after, ids, places, links)
}
