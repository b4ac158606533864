//! All messages of a box are judged, before any lands.
ghost use Rattle.std.specs.Prelude.{◌≡◌, ◌+◌, ◌≤◌, ◌<◌, ◌==◌, length, IfOk, OnOk, is_some};
ghost use Rattle.std.specs.List.{AllByRecursion};
ghost use Rattle.mailbox_edit.specs.Judged.{IsLeft, IsLeftAfter, body_or_none, has_rest};
ghost use Rattle.mailbox_edit.specs.Landings.{IsLandable, landed_all};
ghost use Rattle.mailbox_laws.specs.Boxes.{InBody, Rest, lines_in, rest_from};
ghost use Rattle.mailbox_laws.specs.Landing.{fault_unless, land_of, lowest};
ghost use Rattle.mailbox_reader.specs.FirstTags.{AreFirst};
ghost use Rattle.mailbox_reader.specs.Reading.{rest_after, size_after};
ghost use Rattle.plain_model.specs.Faults.{Returns};
ghost use Rattle.plain_model.specs.declared.fault.Fault.TheVariants as fault;

use crate::landing::{Landing, note_landing};
use event_arena::Events;
use mailbox_lines::next_line;
use mailbox_reader::{Extent, FirstTags, body_of, head_of, lower, nothing, wrong_message};
use plain_model::{Fault, Halt, NoMemory};
use std::alloc::Global;

// What is before the first line of hyphens, where so many lines are.
#[tactic(auto, unfolding(mailbox_laws::specs::Landing::lowest))]
fn wrong_front(count: u64) -> Option<Fault>
    ensures { result ≡ lowest (fault_unless (count == 0) (fault.BadMessage 1)) }
{
    if count == 0 {
        None
    } else {
        Some(Fault::BadMessage { line: 1 })
    }
}

// The bytes of a body with the number of its first line: what follows the empty line, which has the number, or nothing.
fn body_after(end: u64, then: Option<&[u8]>) -> (&[u8], u64)
    requires { end + size_after then < 18446744073709551615 }
    ensures later { (rest_after end then.entry).later ≡ (rest_from InBody result.1 (lines_in result.0.now)).later }
    ensures body { body_or_none (rest_after end then.entry) ≡ body_or_none (rest_from InBody result.1 (lines_in result.0.now)) }
    ensures has { has_rest then.entry ≡ is_some (rest_after end then.entry).body }
    ensures fits { result.1 + length result.0.now ≤ end + size_after then.entry }
    ensures shorter { length result.0.now ≤ size_after then.entry }
{
    match then {
        Some(body) => (body, end + 1),
        None => (&[], end),
    }
}

// Judges the message with the line of hyphens that has the number, and notes it for its event. What is wrong so far comes
// in and goes out, with how far the message goes.
fn judge<'a>(
    events: &Events,
    tags: &FirstTags,
    line: u64,
    after: &'a [u8],
    wrong: Option<Fault>,
    landings: &mut Vec<Landing<'a>>,
) -> Result<(Option<Fault>, Extent<'a>), NoMemory>
    requires tags { AreFirst events.now.list tags.now }
    requires fits { line + 1 + length after.now < 18446744073709551615 }
    requires landable { AllByRecursion (IsLandable events.now.list) landings.old.items }
    ensures left { (whole : Rest) → IfOk result (λ r.
        IsLeftAfter events.now.list whole line (lines_in after.now) wrong landings.old.items →
        IsLeft events.now.list whole r.1.next (lines_in r.1.rest.now) r.0 landings.new.items) }
    ensures landable { OnOk result (AllByRecursion (IsLandable events.now.list) landings.new.items) }
    ensures fits { IfOk result
        (λ r. r.1.next + length r.1.rest.now ≤ line + 1 + length after.now) }
    ensures shorter { IfOk result (λ r. length r.1.rest.now ≤ length after.now) }
{
    let mut said = nothing();
    let (bad, end, then) = head_of(after, line + 1, &mut said);
    let has_body = then.is_some();
    let (body, first) = body_after(end, then);
    let extent = body_of(body, first);
    let found = lower(
        wrong,
        wrong_message(events, tags, line, &said, bad, end, has_body),
    );
    if found.is_none() {
        note_landing(events, tags, said, body, extent.count, landings)?;
    }
    Ok((found, extent))
}

/// All messages of a box with their events, or the fault at its lowest line. Only in that order: nothing lands before all
/// are judged.
pub fn landings_of<'a>(
    alloc: Global,
    events: &Events,
    bytes: &'a [u8],
) -> Result<Vec<Landing<'a>>, Halt>
    ensures landings { Returns (λ landings. landed_all landings.items events.now.list) result
        (land_of events.now.list bytes.now) }
    ensures landable { IfOk result
        (λ landings. AllByRecursion (IsLandable events.now.list) landings.items) }
{
    let tags = FirstTags::of(alloc, events)?;
    let mut landings = Vec::new(alloc);
    let front = body_of(bytes, 1);
    let mut wrong = wrong_front(front.count);
    let mut rest = front.rest;
    let mut line = front.next;
    while let Some((_, after)) = next_line(rest) {
        let (found, extent) = judge(events, &tags, line, after, wrong, &mut landings)?;
        wrong = found;
        rest = extent.rest;
        line = extent.next;
    }
    match wrong {
        Some(fault) => Err(Halt::Refused(fault)),
        None => Ok(landings),
    }
}
