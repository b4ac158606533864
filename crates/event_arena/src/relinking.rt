//! How commits are linked to their children anew, where few events were touched.
ghost use Rattle.std.specs.Prelude.{
  ◌≡◌,
  ◌≤◌,
  ◌<◌,
  ◌∷◌,
  [],
  length,
  map,
  slice_index_or,
  true,
};
ghost use Rattle.std.specs.List.Sorted.{IsNonDecreasingBy};
ghost use Rattle.event_arena.specs.Families.{IsRoomKept};
ghost use Rattle.event_arena.specs.Relinked.{
  AreAllKnown,
  AreKnown,
  AreRelinked,
  HasChildPlaces,
  HasPlaces,
  IsPart,
  IsPut,
  IsPutBefore,
  parents_at,
};
ghost use Rattle.plain_model.specs.Lookups.{children_of, event_parents, own_child, place_of};
ghost use Rattle.plain_model.specs.declared.id.AnyId.TheVariants.{Commit};

use crate::links::{Children, Links};
use crate::table::EventTable;
use plain_model::{AnyId, CommitId, PlainEvent};

// Puts the place of an event at the end, if it is there. Answers whether there was room.
fn push_place(table: &EventTable, id: AnyId, places: &mut Vec<usize>) -> bool
    ensures old { IsPart places.old.items places.new.items }
    ensures new { result ≡ true → HasPlaces (id ∷ []) table.now places.new.items }
{
    if let Some(place) = table.place(id) {
        if places.len() == places.capacity() {
            return false;
        }
        places.push_reserved(place);
    }
    true
}

// Puts the places of commits at the end. Answers whether there was room.
fn push_children(table: &EventTable, children: Children<'_>, places: &mut Vec<usize>) -> bool
    ensures old { IsPart places.old.items places.new.items }
    ensures new { result ≡ true → HasPlaces (map Commit children.entry) table.now places.new.items }
{
    for child in children {
        if !push_place(table, AnyId::Commit(child), places) {
            return false;
        }
    }
    true
}

// Puts the places of events at the end. Answers whether there was room.
fn push_places(table: &EventTable, ids: &[AnyId], places: &mut Vec<usize>) -> bool
    ensures old { IsPart places.old.items places.new.items }
    ensures new { result ≡ true → HasPlaces ids.now table.now places.new.items }
{
    for id in ids {
        if !push_place(table, *id, places) {
            return false;
        }
    }
    true
}

// Collects where children of a commit may be: those that it had, and the touched events. Answers whether there was room.
fn collect(
    table: &EventTable,
    touched: &[AnyId],
    children: Children<'_>,
    places: &mut Vec<usize>,
) -> bool
    ensures all { result ≡ true → (c : _) → AreKnown c touched.now children.entry table.now → HasChildPlaces c table.now places.new.items }
    ensures rising { result ≡ true → IsNonDecreasingBy (λ place. place) places.new.items }
{
    let _count = table.count();
    places.clear();
    if !push_children(table, children, places) || !push_places(table, touched, places) {
        return false;
    }
    places.sort_unstable_by_key(|place: &usize| -> usize { *place });
    true
}

// Puts an event before the children at a place, if it is a child of the commit. Answers whether there was room.
fn link_child(event: &PlainEvent, parent: CommitId, place: usize, links: &mut Links) -> bool
    requires { place < length links.old.lists }
    ensures room { IsRoomKept links.old links.new }
    ensures linked { result ≡ true → IsPutBefore place (own_child parent event.now) links.old.lists links.new.lists }
{
    if let PlainEvent::Commit { id, parents, .. } = event {
        if parents.as_slice().contains(&parent) {
            if !links.has_room() {
                return false;
            }
            links.add_child(place, *id);
        }
    }
    true
}

// Links a commit to its children anew, from the last place back. Answers whether there was room.
fn link_all(
    table: &EventTable,
    places: &Vec<usize>,
    parent: CommitId,
    place: usize,
    links: &mut Links,
) -> bool
    requires within { place < length links.old.lists }
    requires all { HasChildPlaces parent table.now places.now.items }
    requires rising { IsNonDecreasingBy (λ place. place) places.now.items }
    ensures room { IsRoomKept links.old links.new }
    ensures linked { result ≡ true → IsPut place (children_of parent table.now) links.old.lists links.new.lists }
{
    links.forget(place);
    let count = places.len();
    let mut next = table.count();
    for done in 0..count {
        let at = places[count - 1 - done];
        // A place may occur twice.
        if at < next {
            if !link_child(table.nth(at), parent, place, links) {
                return false;
            }
            next = at;
        }
    }
    true
}

// Links a commit to its children anew, if it is there. Answers whether there was room.
fn relink(
    table: &EventTable,
    touched: &[AnyId],
    parent: CommitId,
    places: &mut Vec<usize>,
    links: &mut Links,
) -> bool
    requires places { length table.now ≤ length links.old.lists }
    requires known { AreAllKnown touched.now table.now links.old.lists }
    ensures room { IsRoomKept links.old links.new }
    ensures linked { result ≡ true → AreRelinked (parent ∷ []) table.now links.old.lists links.new.lists }
{
    let Some(place) = table.place(AnyId::Commit(parent)) else {
        return true;
    };
    if !collect(table, touched, links.children(place), places) {
        return false;
    }
    link_all(table, places, parent, place, links)
}

// Links the parents of an event to their children anew, those that are there. Answers whether there was room.
fn relink_parents(
    table: &EventTable,
    touched: &[AnyId],
    event: &PlainEvent,
    places: &mut Vec<usize>,
    links: &mut Links,
) -> bool
    requires places { length table.now ≤ length links.old.lists }
    requires known { AreAllKnown touched.now table.now links.old.lists }
    ensures room { IsRoomKept links.old links.new }
    ensures linked { result ≡ true → AreRelinked (event_parents event.now) table.now links.old.lists links.new.lists }
{
    if let PlainEvent::Commit { parents, .. } = event {
        return relink_each(table, touched, parents.as_slice(), places, links);
    }
    true
}

// Links these commits to their children anew, those that are there. Answers whether there was room.
fn relink_each(
    table: &EventTable,
    touched: &[AnyId],
    commits: &[CommitId],
    places: &mut Vec<usize>,
    links: &mut Links,
) -> bool
    requires places { length table.now ≤ length links.old.lists }
    requires known { AreAllKnown touched.now table.now links.old.lists }
    ensures room { IsRoomKept links.old links.new }
    ensures linked { result ≡ true → AreRelinked commits.now table.now links.old.lists links.new.lists }
{
    for commit in commits {
        if !relink(table, touched, *commit, places, links) {
            return false;
        }
    }
    true
}

/// Links the parents that an event has in a list to their children in the table anew, as far as the parents and the event
/// are there. Answers whether there was room; if not, the links are to be filled anew.
pub fn relink_parents_of(
    list: &EventTable,
    id: AnyId,
    table: &EventTable,
    touched: &[AnyId],
    places: &mut Vec<usize>,
    links: &mut Links,
) -> bool
    requires places { length table.now ≤ length links.old.lists }
    requires known { AreAllKnown touched.now table.now links.old.lists }
    ensures room { IsRoomKept links.old links.new }
    ensures linked { result ≡ true → AreRelinked (parents_at id list.now) table.now links.old.lists links.new.lists }
{
    match list.event(id) {
        Some(event) => relink_parents(table, touched, event, places, links),
        None => true,
    }
}
