//! Bits: for each place of a history whether the event there is in a set.
ghost use Rattle.std.specs.Prelude.{◌≡◌, ◌∷◌, [], length, map, not, List, IfOk};
ghost use Rattle.std.specs.List.{list_any};
ghost use Rattle.event_sets.specs.Bits.{Adds, bits_of, both, picks};
ghost use Rattle.event_sets.specs.Once.{AreLive};
ghost use Rattle.plain_model.specs.Lookups.{is_listed};
ghost use Rattle.plain_model.specs.declared.id.AnyId.{AnyId};
ghost use Rattle.plain_model.specs.declared.id.AnyId.TheVariants.{Commit};

use event_arena::Events;
use plain_model::{AnyId, CommitId, IdList, NoMemory};
use std::alloc::Global;

/// No bit is set.
pub fn no_bits(alloc: Global, events: &Events) -> Result<Vec<bool>, NoMemory>
    ensures { IfOk result (λ bits. bits.items ≡ bits_of events.now.list []) }
{
    Ok(vec![in alloc; false; events.count()]?)
}

/// Sets the bit of an event, if it is there.
pub fn set_bit(events: &Events, id: AnyId, bits: &mut Vec<bool>)
    requires { length bits.old.items ≡ length events.now.list }
    ensures count { length bits.new.items ≡ length bits.old.items }
    ensures adds { Adds events.now.list (id ∷ []) bits.old.items bits.new.items }
{
    let _count = events.count();
    if let Some(place) = events.place(id) {
        bits[place] = true;
    }
}

/// Sets the bits of events.
pub fn set_bits(events: &Events, ids: &[AnyId], bits: &mut Vec<bool>)
    requires { length bits.old.items ≡ length events.now.list }
    ensures count { length bits.new.items ≡ length bits.old.items }
    ensures adds { Adds events.now.list ids.now bits.old.items bits.new.items }
{
    for id in ids {
        set_bit(events, *id, bits);
    }
}

/// Sets the bits of commits.
pub fn set_commits(events: &Events, commits: &[CommitId], bits: &mut Vec<bool>)
    requires { length bits.old.items ≡ length events.now.list }
    ensures count { length bits.new.items ≡ length bits.old.items }
    ensures adds { Adds events.now.list (map Commit commits.now) bits.old.items bits.new.items }
{
    for commit in commits {
        set_bit(events, AnyId::Commit(*commit), bits);
    }
}

/// The bits of a list.
pub fn bits_of(alloc: Global, events: &Events, ids: &[AnyId]) -> Result<Vec<bool>, NoMemory>
    ensures { IfOk result (λ bits. bits.items ≡ bits_of events.now.list ids.now) }
{
    let mut bits = no_bits(alloc, events)?;
    set_bits(events, ids, &mut bits);
    Ok(bits)
}

/// The events whose bits are set, ascending.
pub fn picked(alloc: Global, events: &Events, bits: &[bool]) -> Result<IdList, NoMemory>
    requires { length bits.now ≡ length events.now.list }
    ensures { IfOk result (λ ids. ids ≡ picks bits.now events.now.list) }
{
    let mut ids = IdList::new(alloc)?;
    for place in 0..events.count() {
        if bits[place] {
            ids.push(events.nth(place).id())?;
        }
    }
    Ok(ids)
}

/// Each bit the other way round.
pub fn others(alloc: Global, bits: &[bool]) -> Result<Vec<bool>, NoMemory>
    ensures { IfOk result (λ others. others.items ≡ map not bits.now) }
{
    let mut others = Vec::with_capacity(alloc, bits.len())?;
    for bit in bits {
        others.push(!*bit)?;
    }
    Ok(others)
}

/// What is set in both.
pub fn both(alloc: Global, left: &[bool], right: &[bool]) -> Result<Vec<bool>, NoMemory>
    requires { length left.now ≡ length right.now }
    ensures { IfOk result (λ bits. bits.items ≡ both left.now right.now) }
{
    let mut bits = Vec::with_capacity(alloc, left.len())?;
    for place in 0..left.len() {
        bits.push(left[place] & right[place])?;
    }
    Ok(bits)
}

/// Whether the bit of an event is set; for one that isn't there none is.
pub fn is_set(events: &Events, id: AnyId, bits: &[bool]) -> bool
    requires { length bits.now ≡ length events.now.list }
    ensures { (ids : List AnyId) → bits.now ≡ bits_of events.now.list ids →
        AreLive events.now.list ids → result ≡ is_listed id ids }
{
    match events.place(id) {
        Some(place) => bits[place],
        None => false,
    }
}

/// Whether some bit is set.
pub fn is_any_set(bits: &[bool]) -> bool
    ensures { result ≡ list_any (λ bit. bit) bits.now }
{
    for bit in bits {
        if *bit {
            return true;
        }
    }
    false
}
