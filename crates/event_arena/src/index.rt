//! How the indices of a history are filled from its table of events.
ghost use Rattle.std.specs.Prelude.{
  ◌≡◌,
  ◌≤◌,
  ◌<◌,
  ◌+◌,
  ◌∷◌,
  ◌++◌,
  [],
  flat_map,
  length,
  max,
  slice_index_or,
  vec_capacity,
  vec_len,
  IsTrue,
};
ghost use Rattle.event_arena.specs.Indices.{HasChildren, IsLinked, IsLinkedEvent, IsMarkIndex};
ghost use Rattle.history_laws.specs.Once.{AreDistinct, AreMarkedOnce, AreParentsOnce, named};
ghost use Rattle.plain_model.specs.Lookups.{event_parents, marks_of, own_marks};
ghost use Rattle.plain_model.specs.Soundness.{are_distinct};
ghost use Rattle.plain_model.specs.declared.id.AnyId.TheVariants.{Commit};

use crate::links::Links;
use crate::table::EventTable;
use plain_model::{AnyId, CommitId, Mark, PlainEvent};

// Links a child to those of its parents that are in the table.
fn link_to(table: &EventTable, links: &mut Links, child: CommitId, parents: &[CommitId])
    requires once { IsTrue (are_distinct parents.now) }
    requires places { length table.now ≤ length links.old.lists }
    requires room { links.old.used + length parents.now ≤ links.old.link_room }
    ensures places { length links.new.lists ≡ length links.old.lists }
    ensures used { links.new.used ≤ links.old.used + length parents.now }
    ensures place_room { links.new.place_room ≡ links.old.place_room }
    ensures link_room { links.new.link_room ≡ links.old.link_room }
    ensures linked { IsLinked child parents.now table.now links.old.lists links.new.lists }
{
    for parent in parents {
        if let Some(place) = table.place(AnyId::Commit(*parent)) {
            links.add_child(place, child);
        }
    }
}

// Links an event to its parents, if it is a commit.
fn link(table: &EventTable, links: &mut Links, event: &PlainEvent)
    requires once { IsTrue (are_distinct (event_parents event.now)) }
    requires places { length table.now ≤ length links.old.lists }
    requires room { links.old.used + length (event_parents event.now) ≤ links.old.link_room }
    ensures places { length links.new.lists ≡ length links.old.lists }
    ensures used { links.new.used ≤ links.old.used + length (event_parents event.now) }
    ensures place_room { links.new.place_room ≡ links.old.place_room }
    ensures link_room { links.new.link_room ≡ links.old.link_room }
    ensures linked { IsLinkedEvent event.now table.now links.old.lists links.new.lists }
{
    if let PlainEvent::Commit { id, parents, .. } = event {
        link_to(table, links, *id, parents.as_slice());
    }
}

// Forgets all children, and makes places up to so many. Places that are there stay.
fn clear_places(count: usize, links: &mut Links)
    requires room { count ≤ links.old.place_room }
    requires places { length links.old.lists ≤ links.old.place_room }
    ensures places { length links.new.lists ≡ max (length links.old.lists) count }
    ensures empty { (k : _) → slice_index_or links.new.lists k [] ≡ [] }
    ensures used { links.new.used ≡ 0 }
    ensures place_room { links.new.place_room ≡ links.old.place_room }
    ensures link_room { links.new.link_room ≡ links.old.link_room }
{
    links.clear();
    for _place in links.places()..count {
        links.add_place();
    }
}

// Notes the aliases of a commit, in room that is there.
fn note_aliases(marks: &mut Vec<(u64, AnyId)>, aliases: &[Mark], id: CommitId)
    requires { vec_len marks.old + length aliases.now ≤ vec_capacity marks.old }
    ensures items { marks.new.items ≡ marks.old.items ++ named (Commit id) aliases.now }
    ensures len { vec_len marks.new ≡ vec_len marks.old + length aliases.now }
    ensures room { vec_capacity marks.new ≡ vec_capacity marks.old }
{
    for alias in aliases {
        marks.push_reserved((alias.number(), AnyId::Commit(id)));
    }
}

// Notes the marks of an event.
fn note_event(marks: &mut Vec<(u64, AnyId)>, event: &PlainEvent)
    requires { vec_len marks.old + length (own_marks event.now) ≤ vec_capacity marks.old }
    ensures items { marks.new.items ≡ marks.old.items ++ own_marks event.now }
    ensures len { vec_len marks.new ≡ vec_len marks.old + length (own_marks event.now) }
    ensures room { vec_capacity marks.new ≡ vec_capacity marks.old }
{
    match event {
        PlainEvent::Blob { id, mark, .. } => {
            marks.push_reserved((mark.number(), AnyId::Blob(*id)));
        }
        PlainEvent::Commit {
            id,
            mark,
            aliases,
            ..
        } => {
            marks.push_reserved((mark.number(), AnyId::Commit(*id)));
            note_aliases(marks, aliases.as_slice(), *id);
        }
        PlainEvent::Tag { id, mark, .. } => {
            if let Some(mark) = mark {
                marks.push_reserved((mark.number(), AnyId::Tag(*id)));
            }
        }
        _ => {}
    }
}

/// Fills both indices anew, in one pass over the table: the marks, in their order, and the links from each commit to its
/// children. It goes from the last event back, and each child is put before the others, so that children are in the
/// order of the table. Places that are there stay, and may be used again.
pub fn fill(table: &EventTable, marks: &mut Vec<(u64, AnyId)>, links: &mut Links)
    requires ids { AreDistinct table.now }
    requires marked { AreMarkedOnce (marks_of table.now) }
    requires once { AreParentsOnce table.now }
    requires mark_room { length (marks_of table.now) ≤ vec_capacity marks.old }
    requires place_room { length table.now ≤ links.old.place_room }
    requires places { length links.old.lists ≤ links.old.place_room }
    requires link_room { length (flat_map event_parents table.now) ≤ links.old.link_room }
    ensures index { IsMarkIndex marks.new.items table.now }
    ensures mark_room { vec_capacity marks.new ≡ vec_capacity marks.old }
    ensures places { length links.new.lists ≡ max (length links.old.lists) (length table.now) }
    ensures children { HasChildren links.new.lists table.now table.now }
    ensures place_room { links.new.place_room ≡ links.old.place_room }
    ensures link_room { links.new.link_room ≡ links.old.link_room }
{
    let count = table.count();
    marks.clear();
    clear_places(count, links);
    for done in 0..count {
        let event = table.nth(count - 1 - done);
        note_event(marks, event);
        link(table, links, event);
    }
    marks.sort_unstable_by_key(|marked: &(u64, AnyId)| -> u64 { marked.0 });
}
