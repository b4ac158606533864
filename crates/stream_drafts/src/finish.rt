//! The end of a stream: blobs and commits without a mark get one, and commits their aliases.
ghost use Rattle.std.specs.Prelude.{
  ◌≡◌,
  ◌≤◌,
  ◌<◌,
  ◌+◌,
  ◌∷◌,
  All,
  List,
  map,
  nat_eq,
  ℕ,
  Err,
  IfOk,
  OnErr,
  OnOk,
};
ghost use Rattle.plain_model.specs.declared.event.PlainEvent.{PlainEvent};
ghost use Rattle.plain_model.specs.Marks.{IsMark};
ghost use Rattle.std.specs.HashMap.{get};
ghost use Rattle.plain_model.specs.Lookups.{greatest_of};
ghost use Rattle.stream_grammar.specs.Known.{alias_marks, with_aliases, with_marks};
ghost use Rattle.stream_drafts.specs.Aliased.{AreGrouped};
ghost use Rattle.stream_drafts.specs.Whole.{IsMarked};
ghost use Rattle.stream_drafts.specs.Events.{
  event_of,
  event_without_mark,
  events_of,
};
ghost use Rattle.stream_grammar.specs.Limits.{own_want, unmarked_count};

use crate::draft::{Draft, Unmarked};
use crate::grouping::aliases_in;
use plain_model::{
    CommitId, EventList, Items, MAX_MARK, Mark, MarkList, NoMemory, PlainEvent, Shared,
};
use std::alloc::Global;
use std::collections::HashMap;

/// Why drafts are no history.
#[derive(Clone, Copy, Debug, PartialEq, Eq)]
pub enum FinishFault {
    /// A blob or a commit without a mark would get one above the last, :4294967295.
    MarksSpent,
    Memory,
}

impl From<NoMemory> for FinishFault {
    ghost use Rattle.stream_drafts.specs.declared.finish.FinishFault.TheVariants.{Memory};

    ghost from_gives = { λ _ fault. fault ≡ Memory };

    fn from(_error: NoMemory) -> FinishFault {
        FinishFault::Memory
    }
}

/// The greatest of a number and the marks of some aliases.
pub fn greatest_of(first: u64, aliases: &[(Mark, CommitId)]) -> u64
    requires { first ≤ MAX_MARK }
    ensures value { result ≡ greatest_of first (alias_marks aliases.now) }
    ensures range { result ≤ MAX_MARK }
{
    let mut greatest = first;
    for (mark, _) in aliases {
        greatest = greatest.max(mark.number());
    }
    greatest
}

// The mark above the last, which is the last from then on.
fn next_mark(last: &mut u64) -> Result<Mark, FinishFault>
    requires { last.old ≤ MAX_MARK }
    ensures mark { IfOk result (λ m. m ≡ last.old + 1) }
    ensures last { OnOk result (last.new ≡ last.old + 1) }
    ensures range { last.new ≤ MAX_MARK }
    ensures spent { OnErr result (last.old ≡ MAX_MARK) }
    ensures is_mark { IfOk result IsMark }
{
    let next = Mark::new(*last + 1).ok_or(FinishFault::MarksSpent)?;
    *last += 1;
    Ok(next)
}

// The blob or the commit with its mark, and as a commit with its aliases.
fn with_mark(
    alloc: Global,
    groups: &HashMap<u64, MarkList>,
    unmarked: Unmarked,
    mark: Mark,
) -> Result<PlainEvent, NoMemory>
    ensures event { IfOk result (λ e. (aliases : List (ℕ × ℕ)) (last : ℕ) (events : List PlainEvent) →
        AreGrouped aliases (get nat_eq groups.now) → mark ≡ last + 1 →
        with_aliases aliases (with_marks last (event_without_mark unmarked ∷ events))
        ≡ e ∷ with_aliases aliases (with_marks (last + 1) events)) }
    ensures marked { IfOk result (λ e. IsMark mark → IsMarked e) }
{
    match unmarked {
        Unmarked::Blob { id, bytes } => Ok(PlainEvent::Blob { id, mark, bytes }),
        Unmarked::Commit { id, fields } => {
            let aliases = aliases_in(alloc, groups, id)?;
            Ok(fields.into_event(id, mark, aliases))
        }
    }
}

// The event of a draft; a blob or a commit without a mark gets the one above the last, and a commit its aliases.
fn marked_event(
    alloc: Global,
    groups: &HashMap<u64, MarkList>,
    draft: Draft,
    last: &mut u64,
) -> Result<Shared<PlainEvent>, FinishFault>
    requires { last.old ≤ MAX_MARK }
    ensures event { IfOk result (λ e. (aliases : List (ℕ × ℕ)) (events : List PlainEvent) →
        AreGrouped aliases (get nat_eq groups.now) →
        with_aliases aliases (with_marks last.old (event_of draft ∷ events))
        ≡ e ∷ with_aliases aliases (with_marks last.new events)) }
    ensures marked { IfOk result IsMarked }
    ensures last { OnOk result (last.new ≡ last.old + own_want (event_of draft)) }
    ensures range { last.new ≤ MAX_MARK }
    ensures spent { result ≡ Err FinishFault.MarksSpent →
        (last.old ≡ MAX_MARK) × (own_want (event_of draft) ≡ 1) }
{
    match draft {
        Draft::Whole(event) => Ok(event.with_aliases(alloc, groups)?),
        Draft::Unmarked(unmarked) => {
            let mark = next_mark(last)?;
            let event = with_mark(alloc, groups, Box::into_inner(unmarked), mark)?;
            Ok(Shared::new(alloc, event)?)
        }
    }
}

/// The events of the drafts, where those without a mark get the next ones above the greatest, and commits their aliases.
pub fn marked_events(
    alloc: Global,
    drafts: Vec<Draft>,
    groups: &HashMap<u64, MarkList>,
    greatest: u64,
) -> Result<EventList, FinishFault>
    requires { greatest ≤ MAX_MARK }
    ensures list { IfOk result (λ list. (aliases : List (ℕ × ℕ)) → AreGrouped aliases (get nat_eq groups.now) →
        list ≡ with_aliases aliases (with_marks greatest (events_of drafts.items))) }
    ensures marked { IfOk result (All IsMarked) }
    ensures fits { OnOk result (greatest + unmarked_count (events_of drafts.items) ≤ MAX_MARK) }
    ensures spent { result ≡ Err FinishFault.MarksSpent →
        MAX_MARK < greatest + unmarked_count (events_of drafts.items) }
{
    let mut rows = Items::empty(alloc);
    let mut last = greatest;
    for draft in drafts {
        let event = marked_event(alloc, groups, draft, &mut last)?;
        rows.push(event)?;
    }
    Ok(EventList::of_rows(rows))
}
