//! How children follow their commits, where events before these are gone.
ghost use Rattle.std.specs.Prelude.{◌≡◌, ◌≤◌, ◌<◌, Some, length, not, true};
ghost use Rattle.event_arena.specs.Families.{IsRoomKept};
ghost use Rattle.event_arena.specs.Indices.{HasChildren};
ghost use Rattle.plain_model.specs.Lookups.{place_of, same_id};

use crate::links::Links;
use crate::table::EventTable;
use plain_model::AnyId;

// Whether an id is another one.
fn is_other(id: &AnyId, other: &AnyId) -> bool
    ensures { result ≡ not (same_id id.now other.now) }
{
    *id != *other
}

// The first place of an event with the id, from a place on; the end, where there is none.
fn place_from(table: &EventTable, id: AnyId, from: usize) -> usize
    requires { from ≤ length table.now }
    ensures from { from ≤ result }
    ensures within { result ≤ length table.now }
    ensures found { result < length table.now → place_of id table.now ≡ Some result }
{
    let count = table.count();
    let mut place = from;
    while place < count && is_other(&table.id_at(place), &id) {
        place += 1;
    }
    place
}

/// Moves the children of each event to the place that the event has after. Answers whether each was there before, in the
/// same order; if not, the links are to be filled anew.
pub fn shift(before: &EventTable, after: &EventTable, links: &mut Links) -> bool
    requires places { length before.now ≤ length links.old.lists }
    requires children { HasChildren links.old.lists before.now before.now }
    ensures room { IsRoomKept links.old links.new }
    ensures children { result ≡ true → HasChildren links.new.lists after.now before.now }
{
    let count = before.count();
    // Each event is looked for behind the one before it, so that both lists are gone over once.
    let mut from = 0;
    for place in 0..after.count() {
        let old = place_from(before, after.id_at(place), from);
        if old >= count {
            return false;
        }
        links.copy(old, place);
        from = old + 1;
    }
    true
}
