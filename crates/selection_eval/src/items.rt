//! Items: spots, and ranges of events.
ghost use Rattle.std.specs.Prelude.{◌≡◌, IfOk};
ghost use Rattle.event_sets.specs.Sets.{greatest, least};
ghost use Rattle.plain_model.specs.Faults.{Returns};
ghost use Rattle.selection_eval.specs.Spots.{end, item, itemized, span, spot_text, with_item};

use crate::choosing::{no_name, some_or};
use crate::names::Names;
use crate::spots::spot;
use event_arena::Events;
use event_sets::EventSet;
use plain_model::{Fault, Halt};
use selection_parser::{Item, Spot};
use std::alloc::Global;

// The text of a spot; only one in angle brackets can be empty.
fn spot_text(spot: &Spot) -> &[u8]
    ensures { result.now ≡ spot_text spot.now }
{
    match spot {
        Spot::Named(text) => text.as_slice(),
        _ => &[],
    }
}

// An end of a range, which isn't empty.
fn end<'e>(
    alloc: Global,
    one: &Spot,
    events: &'e Events,
    names: &Names,
) -> Result<EventSet<'e>, Halt>
    ensures events { IfOk result (λ set. set.events ≡ events.now.list) }
    ensures ids { Returns (λ set. set.ids) result (end one.now events.now.list names.now) }
{
    match spot(alloc, one, events, names) {
        Ok(set) => some_or(set, no_name(alloc, spot_text(one))?),
        Err(halt) => Err(halt),
    }
}

// The events from one number to another, which must not be less.
fn span<'e>(
    alloc: Global,
    low: usize,
    high: usize,
    events: &'e Events,
) -> Result<EventSet<'e>, Halt>
    ensures events { IfOk result (λ set. set.events ≡ events.now.list) }
    ensures ids { Returns (λ set. set.ids) result (span low high events.now.list) }
{
    if high < low {
        return Err(Halt::Refused(Fault::ReversedRange {
            first: low as u64,
            last: high as u64,
        }));
    }
    Ok(EventSet::range(alloc, events, low, high)?)
}

// The events between two sets.
fn between<'e>(
    alloc: Global,
    left: &EventSet<'e>,
    right: &EventSet<'e>,
    events: &'e Events,
) -> Result<EventSet<'e>, Halt>
    requires left { left.now.events ≡ events.now.list }
    requires right { right.now.events ≡ events.now.list }
    ensures events { IfOk result (λ set. set.events ≡ events.now.list) }
    ensures ids { Returns (λ set. set.ids) result
        (span (least events.now.list left.now.ids) (greatest events.now.list right.now.ids)
        events.now.list) }
{
    span(alloc, left.least(alloc)?, right.greatest(alloc)?, events)
}

// The events of an item.
fn item<'e>(
    alloc: Global,
    one: &Item,
    events: &'e Events,
    names: &Names,
) -> Result<EventSet<'e>, Halt>
    ensures events { IfOk result (λ set. set.events ≡ events.now.list) }
    ensures ids { Returns (λ set. set.ids) result (item one.now events.now.list names.now) }
{
    match one {
        Item::One(one) => spot(alloc, one, events, names),
        Item::Span(first, last) => match end(alloc, first, events, names) {
            Ok(left) => match end(alloc, last, events, names) {
                Ok(right) => between(alloc, &left, &right, events),
                Err(halt) => Err(halt),
            },
            Err(halt) => Err(halt),
        },
    }
}

// A set, and then what an item has besides.
fn with_item<'e>(
    alloc: Global,
    set: &EventSet<'e>,
    one: &Item,
    events: &'e Events,
    names: &Names,
) -> Result<EventSet<'e>, Halt>
    requires { set.now.events ≡ events.now.list }
    ensures events { IfOk result (λ more. more.events ≡ events.now.list) }
    ensures ids { Returns (λ more. more.ids) result
        (with_item set.now.ids (item one.now events.now.list names.now)) }
{
    match item(alloc, one, events, names) {
        Ok(more) => Ok(set.union(alloc, &more)?),
        Err(halt) => Err(halt),
    }
}

/// The events of items, in their order, without repeats.
pub fn itemized<'e>(
    alloc: Global,
    items: &[Item],
    events: &'e Events,
    names: &Names,
) -> Result<EventSet<'e>, Halt>
    ensures events { IfOk result (λ set. set.events ≡ events.now.list) }
    ensures ids { Returns (λ set. set.ids) result (itemized items.now events.now.list names.now) }
{
    let mut set = EventSet::none(alloc, events)?;
    for one in items {
        match with_item(alloc, &set, one, events, names) {
            Ok(more) => set = more,
            Err(halt) => return Err(halt),
        }
    }
    Ok(set)
}
