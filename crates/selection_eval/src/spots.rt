//! Spots: single events, and what texts in angle brackets name.
ghost use Rattle.std.specs.Prelude.{◌≡◌, drop, length, option_to_list, None, Some, IfOk, if◌then◌else◌};
ghost use Rattle.event_sets.specs.Sets.{numbered};
ghost use Rattle.plain_model.specs.Faults.{Returns};
ghost use Rattle.plain_model.specs.Lookups.{find_mark};
ghost use Rattle.plain_model.specs.declared.fault.Fault.TheVariants.{NoSuchEvent, NoSuchMark};
ghost use Rattle.selection_eval.specs.Days.{value_of};
ghost use Rattle.selection_eval.specs.Names.{assigned};
ghost use Rattle.selection_eval.specs.Spots.{
  assigned_or,
  commit_at,
  is_numbered,
  named,
  some_or,
  spot,
  tag_or_tip,
};

use crate::choosing::{picked, some_or};
use crate::dates::dated;
use crate::days::{is_count, is_date_form, value_of};
use crate::names::Names;
use crate::tags::tag_or_tip;
use crate::testing::{EventTest, passing};
use event_arena::Events;
use event_sets::EventSet;
use plain_model::{Fault, Halt, Mark, NoMemory, PlainEvent};
use selection_parser::Spot;
use std::alloc::Global;

// Commits.
#[derive(Drop)]
struct Commits;

impl EventTest for Commits {
    ghost use Rattle.selection_eval.specs.Names.{assigned};
    ghost use Rattle.history_laws.specs.Finding.{is_commit};

    ghost test = { λ _. is_commit };

    fn passes(&mut self, event: &PlainEvent) -> Result<bool, NoMemory> {
        match event {
            PlainEvent::Commit { .. } => Ok(true),
            _ => Ok(false),
        }
    }
}

// The commit of a number among commits, from 1.
fn commit_at<'e>(alloc: Global, number: u64, events: &'e Events) -> Result<EventSet<'e>, Halt>
    ensures events { IfOk result (λ set. set.events ≡ events.now.list) }
    ensures ids { Returns (λ set. set.ids) result (commit_at number events.now.list) }
{
    let commits = passing(alloc, events, &mut Commits)?;
    some_or(
        picked(alloc, &commits, number)?,
        Fault::NoSuchEvent { number },
    )
}

// The number after a `#`.
fn number_of(text: &[u8]) -> Option<u64>
    ensures { result ≡ (if is_numbered text.now then Some (value_of (drop 1 text.now)) else None) }
{
    match text {
        [b'#', digits @ ..] if is_count(digits) => Some(value_of(digits)),
        _ => None,
    }
}

// What a text that is no number and no date names.
fn by_name<'e>(
    alloc: Global,
    text: &[u8],
    events: &'e Events,
    names: &Names,
) -> Result<EventSet<'e>, Halt>
    ensures events { IfOk result (λ set. set.events ≡ events.now.list) }
    ensures ids { Returns (λ set. set.ids) result
        (assigned_or events.now.list (assigned text.now names.now)
        (tag_or_tip text.now events.now.list)) }
{
    match names.get(text) {
        Some(ids) => Ok(EventSet::listed(alloc, events, ids)?),
        None => tag_or_tip(alloc, text, events),
    }
}

/// What a text in angle brackets names, by the first form that fits.
#[tactic(auto, unfolding(crate::specs::Spots::named))]
pub fn named<'e>(
    alloc: Global,
    text: &[u8],
    events: &'e Events,
    names: &Names,
) -> Result<EventSet<'e>, Halt>
    ensures events { IfOk result (λ set. set.events ≡ events.now.list) }
    ensures ids { Returns (λ set. set.ids) result (named text.now events.now.list names.now) }
{
    match number_of(text) {
        Some(number) => commit_at(alloc, number, events),
        None => {
            if is_date_form(text) {
                dated(alloc, text, events)
            } else {
                by_name(alloc, text, events, names)
            }
        }
    }
}

// The event of a number; else this one is reported.
fn numbered<'e>(
    alloc: Global,
    number: u64,
    reported: u64,
    events: &'e Events,
) -> Result<EventSet<'e>, Halt>
    ensures events { IfOk result (λ set. set.events ≡ events.now.list) }
    ensures ids { Returns (λ set. set.ids) result
        (some_or (NoSuchEvent reported) (numbered events.now.list number)) }
{
    some_or(
        EventSet::numbered(alloc, events, number)?,
        Fault::NoSuchEvent { number: reported },
    )
}

// The event with a mark. A number that is no mark is none of a sound history.
fn marked<'e>(alloc: Global, number: u64, events: &'e Events) -> Result<EventSet<'e>, Halt>
    ensures events { IfOk result (λ set. set.events ≡ events.now.list) }
    ensures ids { Returns (λ set. set.ids) result
        (some_or (NoSuchMark number) (option_to_list (find_mark number events.now.list))) }
{
    let _count = events.count();
    match Mark::new(number) {
        Some(mark) => some_or(
            EventSet::marked(alloc, events, mark)?,
            Fault::NoSuchMark { mark: number },
        ),
        None => Err(Halt::Refused(Fault::NoSuchMark { mark: number })),
    }
}

/// The events of a spot: one, or those that a text in angle brackets names.
pub fn spot<'e>(
    alloc: Global,
    one: &Spot,
    events: &'e Events,
    names: &Names,
) -> Result<EventSet<'e>, Halt>
    ensures events { IfOk result (λ set. set.events ≡ events.now.list) }
    ensures ids { Returns (λ set. set.ids) result (spot one.now events.now.list names.now) }
{
    match one {
        Spot::Number(number) => numbered(alloc, *number, *number, events),
        Spot::Marked(number) => marked(alloc, *number, events),
        Spot::Last => numbered(alloc, events.count() as u64, 0, events),
        Spot::Named(text) => named(alloc, text.as_slice(), events, names),
    }
}
