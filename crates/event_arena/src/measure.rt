//! What a table of events comes to: its greatest mark, and the first id above all.
ghost use Rattle.std.specs.Prelude.{◌≡◌, ◌≤◌, ◌<◌, ◌^◌};
ghost use Rattle.plain_model.specs.Lookups.{
  AreIdsBelow,
  greatest_mark,
  greatest_of,
  id_number,
  next_number,
  top_mark,
};

use crate::table::EventTable;
use plain_model::{AnyId, Mark, PlainEvent};

// The greatest of a mark and others.
fn greatest_of(first: Mark, marks: &[Mark]) -> u64
    ensures value { result ≡ greatest_of first marks.now }
    ensures range { result < 2 ^ 32 }
{
    let mut greatest: u64 = first.number();
    for mark in marks {
        greatest = greatest.max(mark.number());
    }
    greatest
}

// The greatest mark of an event, or 0.
fn top_mark(event: &PlainEvent) -> u64
    ensures value { result ≡ top_mark event.now }
    ensures range { result < 2 ^ 32 }
{
    match event {
        PlainEvent::Blob { mark, .. } => mark.number(),
        PlainEvent::Commit { mark, aliases, .. } => greatest_of(*mark, aliases.as_slice()),
        PlainEvent::Tag {
            mark: Some(mark),
            ..
        } => mark.number(),
        _ => 0,
    }
}

/// The greatest mark of a table, or 0.
pub fn greatest_mark(table: &EventTable) -> u64
    ensures value { result ≡ greatest_mark table.now }
    ensures range { result < 2 ^ 32 }
{
    let mut greatest: u64 = 0;
    for place in 0..table.count() {
        greatest = greatest.max(top_mark(table.nth(place)));
    }
    greatest
}

// The number of an id, whatever its kind.
fn id_number(id: AnyId) -> u64
    ensures { result ≡ id_number id }
{
    match id {
        AnyId::Blob(id) => id.number(),
        AnyId::Commit(id) => id.number(),
        AnyId::Tag(id) => id.number(),
        AnyId::Reset(id) => id.number(),
        AnyId::Pass(id) => id.number(),
    }
}

/// One above the greatest number of an id, or 1 for an empty table. It looks at no event.
pub fn next_number(table: &EventTable) -> u64
    requires { AreIdsBelow (2 ^ 62) table.now }
    ensures value { result ≡ next_number table.now }
    ensures low { result ≤ 2 ^ 62 }
{
    let mut next: u64 = 1;
    for place in 0..table.count() {
        next = next.max(id_number(table.id_at(place)) + 1);
    }
    next
}
