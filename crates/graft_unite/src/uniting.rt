//! The history that several become.
ghost use Rattle.std.specs.Prelude.{◌≡◌, ◌<◌, length, map, IfOk};
ghost use Rattle.std.specs.List.{AllByRecursion};
ghost use Rattle.graft_laws.specs.Joined.{AreNameBytes, IsPart};
ghost use Rattle.graft_laws.specs.Unite.{numbered_anew, oldest_place, unite_of, with_parts};
ghost use Rattle.graft_unite.specs.Ages.{part_at};
ghost use Rattle.graft_unite.specs.Dates.{AreDatesOf};
ghost use Rattle.graft_unite.specs.Uniting.{marked};
ghost use Rattle.plain_model.specs.Faults.{Returns};
ghost use Rattle.plain_model.specs.Lookups.{next_number};

use crate::ages::places_by_age;
use crate::dates::Dates;
use crate::further::join;
use crate::limits::{judge, mark_behind};
use crate::part::Part;
use crate::used::Names;
use event_arena::{Events, Plan};
use graft_laws::a_unite_keeps_soundness;
use manifest_cache::Manifests;
use plain_model::{Fault, Halt, NoMemory};
use renumbering::renumber;
use std::alloc::Global;

/// A history made of several, and the place of the oldest of them, from 0. (own)
#[derive(Drop)]
pub struct United {
    pub events: Events,
    pub base: usize,
}

// The commits of a history by their seconds.
fn dates_of(alloc: Global, events: &Events) -> Result<Dates, NoMemory>
    ensures { IfOk result (AreDatesOf events.now.list) }
{
    let mut dates = Dates::new(alloc);
    for place in 0..events.count() {
        dates.note(events.nth(place))?;
    }
    Ok(dates)
}

// The plan of a base behind which the parts at some places are put, in their order. All marks are given anew. Refused by the first
// new name, part by part, that is in use in the list so far or in the part.
fn joined_parts(
    alloc: Global,
    base: &Events,
    parts: &[Part],
    places: &[usize],
    prune: bool,
) -> Result<Plan, Halt>
    requires next { base.now.next_id ≡ next_number base.now.list }
    requires within { AllByRecursion (λ k. k < length parts.now) places.now }
    ensures joined { Returns (λ plan. plan.after) result
        (marked (with_parts prune base.now.list (map (part_at parts.now) places.now))) }
    ensures before { IfOk result (λ plan. plan.before ≡ base.now.list) }
    ensures made_at { IfOk result (λ plan. plan.made_at ≡ base.now.next_id) }
    ensures next { IfOk result (λ plan. plan.next ≡ next_number plan.after) }
{
    let mut plan = renumber(alloc, base)?;
    let mut used = Names::of(alloc, base)?;
    let mut dates = dates_of(alloc, base)?;
    // There is one: each mark occurs once.
    let Some(mark) = mark_behind(base, 1) else {
        return Err(Halt::Memory);
    };
    let mut come = (base.next_id(), mark);
    for place in places {
        match join(
            alloc,
            &parts[*place],
            prune,
            come,
            &mut plan,
            &mut used,
            &mut dates,
        ) {
            Ok(after) => come = after,
            Err(halt) => return Err(halt),
        }
    }
    Ok(plan)
}

// The same plan, if no limit is passed and no tree fails.
fn united_plan(
    alloc: Global,
    base: &Events,
    parts: &[Part],
    places: &[usize],
    prune: bool,
) -> Result<Plan, Halt>
    requires next { base.now.next_id ≡ next_number base.now.list }
    requires within { AllByRecursion (λ k. k < length parts.now) places.now }
    requires parts { AllByRecursion IsPart parts.now }
    ensures united { Returns (λ plan. plan.after) result
        (numbered_anew prune (with_parts prune base.now.list (map (part_at parts.now) places.now))) }
    ensures before { IfOk result (λ plan. plan.before ≡ base.now.list) }
    ensures made_at { IfOk result (λ plan. plan.made_at ≡ base.now.next_id) }
    ensures next { IfOk result (λ plan. plan.next ≡ next_number plan.after) }
{
    let _count = base.count();
    let mut trees = Manifests::new(alloc)?;
    match joined_parts(alloc, base, parts, places, prune) {
        Ok(plan) => match judge(&mut trees, &plan, prune) {
            Ok(()) => Ok(plan),
            Err(halt) => Err(halt),
        },
        Err(halt) => Err(halt),
    }
}

// A history of its own with the same events. There are 2^62 numbers for ids, more than a session can ever give, so that their end
// counts as that of memory.
fn copied(alloc: Global, events: &Events) -> Result<Events, NoMemory>
    ensures list { IfOk result (λ copy. copy.list ≡ events.now.list) }
    ensures next_id { IfOk result (λ copy. copy.next_id ≡ next_number events.now.list) }
{
    let _count = events.count();
    if (1 << 62) < events.next_id() {
        return Err(NoMemory);
    }
    let list = events.plain()?;
    Events::from_plain(alloc, list)
}

/// The history that several become. The oldest is the base: its events come first, with their ids and names. All but lines that
/// are passed through come behind it, part by part by age, under new ids; names that are in use go below that of the part, and
/// each root is on the latest commit before it. All marks are given anew. With `prune` such a root begins without files. Refused
/// where there are fewer than two, by the first new name, part by part, that is in use in the list so far or in the part, by the
/// first limit that is passed, and without `prune` by the first operation that a tree refuses. (reposurgeon manual, `unite`; the
/// order, the parents and the marks: own.)
pub fn unite(alloc: Global, parts: &[Part], prune: bool) -> Result<United, Halt>
    requires names { AllByRecursion (λ part. AreNameBytes part.name) parts.now }
    ensures returns { Returns (λ united. united.events.list) result (unite_of prune parts.now) }
    ensures next { IfOk result
        (λ united. united.events.next_id ≡ next_number united.events.list) }
    ensures base { IfOk result
        (λ united. united.base ≡ oldest_place (λ part. part.events) parts.now) }
{
    if parts.len() < 2 {
        return Err(Halt::Refused(Fault::WrongCount {
            found: parts.len() as u64,
        }));
    }
    let order = places_by_age(alloc, parts)?;
    let places = order.as_slice();
    let base = places[0];
    let mut events = copied(alloc, parts[base].events())?;
    match united_plan(alloc, &events, parts, &places[1..], prune) {
        Ok(plan) => {
            a_unite_keeps_soundness();
            events.reserve_for(&plan)?;
            events.carry_out(plan);
            Ok(United { events, base })
        }
        Err(halt) => Err(halt),
    }
}
