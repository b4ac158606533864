//! The plan by which dates of selected events move.
ghost use Rattle.std.specs.Prelude.{
  ◌≡◌,
  ◌<◌,
  Some,
  is_some,
  length,
  slice_get,
  unwrap_or,
  IfOk,
  IfSome,
  OnOk,
};
ghost use Rattle.event_arena.specs.Changes.{changed};
ghost use Rattle.event_arena.specs.Plans.{Plans};
ghost use Rattle.event_fields.specs.Shifts.{IsZone};
ghost use Rattle.people_laws.specs.Dates.{
  all_dated,
  at_seconds,
  can_move,
  dated,
  dated_in,
  first_stuck,
  in_range,
  moved_by,
  moved_when,
  time_offset_of,
};
ghost use Rattle.plain_model.specs.Lookups.{find_event, id_of};

use crate::signing::set_both;
use event_arena::{Events, Plan, Role};
use event_fields::Zone;
use people_laws::time_offset_keeps_soundness;
use plain_model::{AnyId, Fault, Halt, MAX_SECONDS, NoMemory, PlainEvent, Signed, When};
use plan_steps::{Flagged, event_number};
use std::alloc::Global;

// ---- one date

// Seconds that a date may have.
fn in_range(seconds: u64) -> Option<u64>
    ensures { result ≡ in_range seconds }
{
    if seconds <= MAX_SECONDS {
        Some(seconds)
    } else {
        None
    }
}

// So many seconds later, or earlier.
fn moved_by(offset: i64, seconds: u64) -> Option<u64>
    ensures { result ≡ moved_by offset seconds }
{
    let by = offset.unsigned_abs();
    if offset >= 0 {
        in_range(seconds.checked_add(by)?)
    } else if by <= seconds {
        in_range(seconds - by)
    } else {
        None
    }
}

// A date at these seconds, in the zone that is given, or else in its own.
fn at_seconds(zone: &Option<Zone>, when: When, seconds: u64) -> When
    ensures { result ≡ at_seconds zone.now when seconds }
{
    match zone {
        Some(zone) => When {
            seconds,
            minus: zone.is_minus(),
            offset: zone.offset(),
        },
        None => When { seconds, ..when },
    }
}

// A date that moves, if it stays in the range.
fn moved_when(seconds: i64, zone: &Option<Zone>, when: When) -> Option<When>
    ensures { result ≡ moved_when seconds zone.now when }
{
    let moved = moved_by(seconds, when.seconds)?;
    Some(at_seconds(zone, when, moved))
}

// ---- which events can move

// Whether all dates of an event stay in the range.
fn can_move(seconds: i64, zone: &Option<Zone>, event: &PlainEvent) -> bool
    ensures { result ≡ is_some (dated seconds zone.now event.now) }
{
    match event {
        PlainEvent::Commit {
            author,
            committer,
            ..
        } => {
            moved_when(seconds, zone, author.when).is_some()
                && moved_when(seconds, zone, committer.when).is_some()
        }
        PlainEvent::Tag {
            tagger: Some(tagger),
            ..
        } => moved_when(seconds, zone, tagger.when).is_some(),
        _ => true,
    }
}

// Whether an event that a set names can move, if it is there.
fn can_move_at(events: &Events, id: AnyId, seconds: i64, zone: &Option<Zone>) -> bool
    ensures { result ≡ can_move seconds zone.now (find_event id events.now.list) }
{
    match events.event(id) {
        Some(event) => can_move(seconds, zone, event),
        None => true,
    }
}

// The number of the first event of a set that has a date which can't move.
fn first_stuck(events: &Events, set: &[AnyId], seconds: i64, zone: &Option<Zone>) -> Option<u64>
    ensures { result ≡ first_stuck seconds zone.now events.now.list set.now }
{
    for id in set {
        if !can_move_at(events, *id, seconds, zone) {
            return Some(event_number(events, *id));
        }
    }
    None
}

// ---- the plan

// The same person, at another date.
fn at_when(who: &Signed, when: When) -> Result<Signed, NoMemory>
    ensures { IfOk result (λ signed. signed ≡ record who.now { when = when }) }
{
    let person = who.person.share()?;
    Ok(Signed { person, when })
}

// Moves the dates of an event, if they all stay in the range.
fn date(
    plan: &mut Plan,
    event: &PlainEvent,
    seconds: i64,
    zone: &Option<Zone>,
) -> Result<(), NoMemory>
    requires { find_event (id_of event.now) plan.old.after ≡ Some event.now }
    ensures { OnOk result (plan.new ≡ record plan.old {
      after = changed (id_of event.now) (λ event. unwrap_or (dated seconds zone.now event) event) plan.old.after;
    }) }
{
    match event {
        PlainEvent::Commit {
            id,
            author,
            committer,
            ..
        } => {
            let Some(wrote) = moved_when(seconds, zone, author.when) else {
                return Ok(());
            };
            let Some(made) = moved_when(seconds, zone, committer.when) else {
                return Ok(());
            };
            let wrote = at_when(author, wrote)?;
            let made = at_when(committer, made)?;
            set_both(plan, *id, wrote, made)
        }
        PlainEvent::Tag { id, tagger, .. } => match tagger {
            Some(tagger) => {
                let Some(made) = moved_when(seconds, zone, tagger.when) else {
                    return Ok(());
                };
                let made = at_when(tagger, made)?;
                plan.set_signed(AnyId::Tag(*id), Role::Tagger, made)
            }
            None => Ok(()),
        },
        _ => Ok(()),
    }
}

// Moves the dates of the event at a place, if it is one of the set.
fn date_at(
    flagged: &Flagged,
    plan: &mut Plan,
    event: &PlainEvent,
    place: usize,
    seconds: i64,
    zone: &Option<Zone>,
) -> Result<(), NoMemory>
    requires place { place < length flagged.now.events }
    requires event { slice_get flagged.now.events place ≡ Some event.now }
    requires found { find_event (id_of event.now) plan.old.after ≡ Some event.now }
    ensures { OnOk result (plan.new ≡ record plan.old {
      after = changed (id_of event.now) (dated_in seconds zone.now flagged.now.set) plan.old.after;
    }) }
{
    if flagged.has_at(place) {
        date(plan, event, seconds, zone)
    } else {
        Ok(())
    }
}

// Moves the dates of all events of the set, in one pass.
fn date_all(
    flagged: &Flagged,
    plan: &mut Plan,
    seconds: i64,
    zone: &Option<Zone>,
) -> Result<(), NoMemory>
    requires { plan.old.after ≡ flagged.now.events }
    ensures { OnOk result (plan.new ≡ record plan.old {
      after = all_dated seconds zone.now flagged.now.set flagged.now.events;
    }) }
{
    for place in 0..flagged.count() {
        date_at(flagged, plan, flagged.nth(place), place, seconds, zone)?;
    }
    Ok(())
}

// What every zone keeps.
fn known(zone: &Option<Zone>)
    ensures { IfSome zone.now IsZone }
{
    if let Some(zone) = zone {
        let _offset = zone.offset();
    }
}

/// The plan by which the dates of the selected events move, and go into a zone if one is given. Refused is the first of them,
/// in the order of the selection, that has a date which would leave the range: all are judged before any moves. It takes time for the
/// selection and for the history once. (reposurgeon manual, `timeoffset`; the range: own.)
pub fn time_offset(
    alloc: Global,
    events: &Events,
    set: &[AnyId],
    seconds: i64,
    zone: Option<Zone>,
) -> Result<Plan, Halt>
    ensures { Plans events.now events.now.next_id result (time_offset_of seconds zone set.now events.now.list) }
{
    let _count = events.count();
    known(&zone);
    time_offset_keeps_soundness();
    if let Some(event) = first_stuck(events, set, seconds, &zone) {
        return Err(Halt::Refused(Fault::MomentRange { event }));
    }
    let flagged = Flagged::new(alloc, events, set)?;
    let mut plan = Plan::new(alloc, events)?;
    date_all(&flagged, &mut plan, seconds, &zone)?;
    Ok(plan)
}
