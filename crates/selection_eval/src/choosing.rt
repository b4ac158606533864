//! Some of a set's events, or a refusal where there is none.
ghost use Rattle.std.specs.Prelude.{◌≡◌, option_to_list, slice_get, Some, IfOk};
ghost use Rattle.plain_model.specs.declared.fault.Fault.TheVariants.{NoSuchName};
ghost use Rattle.plain_model.specs.Faults.{Returns};
ghost use Rattle.selection_eval.specs.Spots.{first, picked, some_or};

use event_sets::EventSet;
use plain_model::{AnyId, Fault, Halt, Items, NoMemory};
use std::alloc::Global;

fn id_at(ids: &[AnyId], place: usize) -> Option<AnyId>
    ensures { result ≡ slice_get ids.now place }
{
    ids.get(place).copied()
}

// The event at this place of the list of a set, from 0, if there is one.
fn one_of<'e>(alloc: Global, set: &EventSet<'e>, place: usize) -> Result<EventSet<'e>, NoMemory>
    ensures events { IfOk result (λ one. one.events ≡ set.now.events) }
    ensures ids { IfOk result (λ one. one.ids
        ≡ option_to_list (slice_get set.now.ids place)) }
{
    let ids = set.ids(alloc)?;
    let _bits = set.bits();
    match id_at(ids.as_slice(), place) {
        Some(id) => EventSet::one(alloc, set.events(), id),
        None => EventSet::none(alloc, set.events()),
    }
}

/// The event of a set that has the number in its list, from 1, if there is one.
pub fn picked<'e>(alloc: Global, set: &EventSet<'e>, number: u64) -> Result<EventSet<'e>, NoMemory>
    ensures events { IfOk result (λ one. one.events ≡ set.now.events) }
    ensures ids { IfOk result (λ one. one.ids ≡ picked (Some number) set.now.ids) }
{
    if number == 0 {
        EventSet::none(alloc, set.events())
    } else {
        one_of(alloc, set, (number - 1) as usize)
    }
}

/// The first event of a set, if there is one.
#[tactic(auto, using(crate::proofs::Found::first_at))]
pub fn first<'e>(alloc: Global, set: &EventSet<'e>) -> Result<EventSet<'e>, NoMemory>
    ensures events { IfOk result (λ one. one.events ≡ set.now.events) }
    ensures ids { IfOk result (λ one. one.ids ≡ first set.now.ids) }
{
    one_of(alloc, set, 0)
}

/// The refusal of a text that names no event.
pub fn no_name(alloc: Global, text: &[u8]) -> Result<Fault, NoMemory>
    ensures { IfOk result (λ fault. fault ≡ NoSuchName text.now) }
{
    let name = Items::of(alloc, text)?;
    Ok(Fault::NoSuchName { name })
}

/// A set, or a fault where it is empty.
pub fn some_or<'e>(set: EventSet<'e>, fault: Fault) -> Result<EventSet<'e>, Halt>
    ensures events { IfOk result (λ some. some.events ≡ set.entry.events) }
    ensures ids { Returns (λ some. some.ids) result (some_or fault set.entry.ids) }
{
    if set.is_empty() {
        Err(Halt::Refused(fault))
    } else {
        Ok(set)
    }
}
