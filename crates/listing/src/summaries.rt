//! A history in one line.
ghost use Rattle.std.specs.Prelude.{◌≡◌, ◌++◌, codes, decimal, IfOk, OnOk};
ghost use Rattle.std.specs.List.{count_by};
ghost use Rattle.listing.specs.Summaries.{is_blob, is_pass, is_reset, is_tag, kinds_text, numbers_of, resolve_text, spaced, summary_text};
ghost use Rattle.history_laws.specs.Finding.{is_commit};

use event_arena::Events;
use plain_model::{AnyId, NoMemory, NumberList, PlainEvent, Text};
use std::alloc::Global;

fn numbers_of(alloc: Global, events: &Events, set: &[AnyId]) -> Result<NumberList, NoMemory>
    ensures { IfOk result (λ numbers. numbers ≡ numbers_of events.now.list set.now) }
{
    let mut numbers = NumberList::new(alloc)?;
    for id in set {
        if let Some(number) = events.number_of(*id) {
            numbers.push(number as u64)?;
        }
    }
    Ok(numbers)
}

fn push_spaced(numbers: &[u64], into: &mut Text) -> Result<(), NoMemory>
    ensures { OnOk result (into.new ≡ into.old ++ spaced numbers.now) }
{
    let [first, rest @ ..] = numbers else {
        return Ok(());
    };
    into.push_number(*first)?;
    for number in rest {
        into.push(b' ')?;
        into.push_number(*number)?;
    }
    Ok(())
}

/// Puts the numbers of the given events in one line, in the order of the ids.
#[tactic(auto, unfolding(crate::specs::Summaries::resolve_text))]
pub fn resolve(events: &Events, set: &[AnyId], into: &mut Text) -> Result<(), NoMemory>
    ensures { OnOk result (into.new ≡ into.old ++ resolve_text events.now.list set.now) }
{
    let numbers = numbers_of(into.alloc(), events, set)?;
    push_spaced(numbers.as_slice(), into)?;
    into.push(b'\n')
}

// How many events there are of each kind.
#[derive(Clone, Copy)]
struct Counts {
    blobs: u64,
    commits: u64,
    tags: u64,
    resets: u64,
    passes: u64,
}

fn counts_of(events: &Events) -> Counts
    ensures blobs { result.blobs ≡ count_by is_blob events.now.list }
    ensures commits { result.commits ≡ count_by is_commit events.now.list }
    ensures tags { result.tags ≡ count_by is_tag events.now.list }
    ensures resets { result.resets ≡ count_by is_reset events.now.list }
    ensures passes { result.passes ≡ count_by is_pass events.now.list }
{
    let mut blobs = 0;
    let mut commits = 0;
    let mut tags = 0;
    let mut resets = 0;
    let mut passes = 0;
    for place in 0..events.count() {
        match events.nth(place) {
            PlainEvent::Blob { .. } => blobs += 1,
            PlainEvent::Commit { .. } => commits += 1,
            PlainEvent::Tag { .. } => tags += 1,
            PlainEvent::Reset { .. } => resets += 1,
            PlainEvent::Pass { .. } => passes += 1,
        }
    }
    Counts {
        blobs,
        commits,
        tags,
        resets,
        passes,
    }
}

// Puts a number, and of what it is.
fn push_many(number: u64, of_what: &[u8], into: &mut Text) -> Result<(), NoMemory>
    ensures { OnOk result (into.new ≡ into.old ++ (decimal number ++ of_what.now)) }
{
    into.push_number(number)?;
    into.push_all(of_what)
}

// Puts how many events there are of each kind.
fn push_kinds(counts: Counts, into: &mut Text) -> Result<(), NoMemory>
    ensures { OnOk result (into.new ≡ into.old ++ kinds_text
        counts.blobs counts.commits counts.tags counts.resets counts.passes) }
{
    push_many(counts.blobs, b" blobs, ", into)?;
    push_many(counts.commits, b" commits, ", into)?;
    push_many(counts.tags, b" tags, ", into)?;
    push_many(counts.resets, b" resets, ", into)?;
    push_many(counts.passes, b" passthroughs", into)
}

/// Puts a name and how many events the history has of each kind.
#[tactic(auto, unfolding(crate::specs::Summaries::summary_text))]
pub fn summary(name: &[u8], events: &Events, into: &mut Text) -> Result<(), NoMemory>
    ensures { OnOk result (into.new ≡ into.old ++ summary_text name.now events.now.list) }
{
    let counts = counts_of(events);
    into.push_all(name)?;
    into.push_all(b": ")?;
    push_many(events.count() as u64, b" events, ", into)?;
    push_kinds(counts, into)?;
    into.push(b'\n')
}
