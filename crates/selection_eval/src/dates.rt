//! What texts of date form name: events by their dates.
ghost use Rattle.std.specs.Prelude.{◌≡◌, ◌≤◌, IfOk, OnOk};
ghost use Rattle.civil_dates.specs.Dates.{date_text};
ghost use Rattle.event_sets.specs.Sets.{passing};
ghost use Rattle.plain_model.specs.declared.limit.TheConstants.{MAX_SECONDS};
ghost use Rattle.plain_model.specs.Faults.{Returns};
ghost use Rattle.selection_eval.specs.Spots.{
  dated,
  is_at_moment,
  is_on_day,
  is_signed,
  stamp_dated,
  stamped,
};

use crate::choosing::{no_name, picked, some_or};
use crate::days::{email_in, is_day, is_moment, stamp_parts};
use crate::testing::{EventTest, are_equal, passing};
use civil_dates::push_date;
use event_arena::Events;
use event_sets::EventSet;
use plain_model::{Fault, Halt, Items, NoMemory, PlainEvent, Signed, Text};
use std::alloc::Global;

// Puts a date in the place of another.
fn set_date(seconds: u64, date: &mut Text) -> Result<(), NoMemory>
    requires { seconds ≤ MAX_SECONDS }
    ensures { OnOk result (date.new ≡ date_text seconds) }
{
    date.truncate(0);
    push_date(seconds, date)
}

// ---- tests

// The day of a commit's committer or a tag's tagger is that of a text.
#[derive(Drop)]
struct OnDay<'t> {
    text: &'t [u8],
    date: Text,
}

impl<'t> OnDay<'t> {
    #[tactic(auto, using(crate::proofs::DayTexts::day_front))]
    fn shows(&mut self, signed: &Signed) -> Result<bool, NoMemory>
        requires { signed.now.when.seconds ≤ MAX_SECONDS }
        ensures shows { IfOk result (λ shows. shows ≡ is_on_day self.old.text.now signed.now) }
        ensures same { self.new.text ≡ self.old.text }
    {
        set_date(signed.when.seconds, &mut self.date)?;
        self.date.truncate(10);
        Ok(are_equal(self.date.as_slice(), self.text))
    }
}

impl<'t> EventTest for OnDay<'t> {
    ghost use Rattle.selection_eval.specs.Spots.{is_on_day, is_signed};

    ghost test = { λ t. is_signed (is_on_day t.text.now) };

    fn passes(&mut self, event: &PlainEvent) -> Result<bool, NoMemory> {
        match event {
            PlainEvent::Commit { committer, .. } => self.shows(committer),
            PlainEvent::Tag { tagger, .. } => match tagger {
                Some(tagger) => self.shows(tagger),
                None => Ok(false),
            },
            _ => Ok(false),
        }
    }
}

// The second of a commit's committer or a tag's tagger is that of a text.
#[derive(Drop)]
struct AtMoment<'t> {
    text: &'t [u8],
    date: Text,
}

impl<'t> AtMoment<'t> {
    fn shows(&mut self, signed: &Signed) -> Result<bool, NoMemory>
        requires { signed.now.when.seconds ≤ MAX_SECONDS }
        ensures shows { IfOk result (λ shows. shows ≡ is_at_moment self.old.text.now signed.now) }
        ensures same { self.new.text ≡ self.old.text }
    {
        set_date(signed.when.seconds, &mut self.date)?;
        Ok(are_equal(self.date.as_slice(), self.text))
    }
}

impl<'t> EventTest for AtMoment<'t> {
    ghost use Rattle.selection_eval.specs.Spots.{is_at_moment, is_signed};

    ghost test = { λ t. is_signed (is_at_moment t.text.now) };

    fn passes(&mut self, event: &PlainEvent) -> Result<bool, NoMemory> {
        match event {
            PlainEvent::Commit { committer, .. } => self.shows(committer),
            PlainEvent::Tag { tagger, .. } => match tagger {
                Some(tagger) => self.shows(tagger),
                None => Ok(false),
            },
            _ => Ok(false),
        }
    }
}

// The second of a commit's committer is that of a text, and the email is that of another.
#[derive(Drop)]
struct Stamped<'t> {
    moment: AtMoment<'t>,
    email: &'t [u8],
}

impl<'t> EventTest for Stamped<'t> {
    ghost use Rattle.selection_eval.specs.Spots.{has_stamp, is_committed};

    ghost test = { λ t. is_committed (has_stamp t.moment.text.now t.email.now) };

    fn passes(&mut self, event: &PlainEvent) -> Result<bool, NoMemory> {
        match event {
            PlainEvent::Commit { committer, .. } => {
                let shows = self.moment.shows(committer)?;
                Ok(shows && are_equal(committer.person.as_ref().email.as_slice(), self.email))
            }
            _ => Ok(false),
        }
    }
}

// ---- events

// The events of a day.
fn of_day<'e>(alloc: Global, text: &[u8], events: &'e Events) -> Result<EventSet<'e>, NoMemory>
    ensures events { IfOk result (λ set. set.events ≡ events.now.list) }
    ensures ids { IfOk result (λ set. set.ids
        ≡ passing (is_signed (is_on_day text.now)) events.now.list) }
{
    let mut test = OnDay {
        text,
        date: Items::empty(alloc),
    };
    passing(alloc, events, &mut test)
}

// The events of a second.
fn of_moment<'e>(alloc: Global, text: &[u8], events: &'e Events) -> Result<EventSet<'e>, NoMemory>
    ensures events { IfOk result (λ set. set.events ≡ events.now.list) }
    ensures ids { IfOk result (λ set. set.ids
        ≡ passing (is_signed (is_at_moment text.now)) events.now.list) }
{
    let mut test = AtMoment {
        text,
        date: Items::empty(alloc),
    };
    passing(alloc, events, &mut test)
}

// The commits of a second and an email, or the one of them that has the number.
fn of_stamp<'e>(
    alloc: Global,
    moment: &[u8],
    email: &[u8],
    number: Option<u64>,
    events: &'e Events,
) -> Result<EventSet<'e>, NoMemory>
    ensures events { IfOk result (λ set. set.events ≡ events.now.list) }
    ensures ids { IfOk result (λ set. set.ids
        ≡ stamped moment.now (email.now, number) events.now.list) }
{
    let moment = AtMoment {
        text: moment,
        date: Items::empty(alloc),
    };
    let mut test = Stamped { moment, email };
    let set = passing(alloc, events, &mut test)?;
    match number {
        Some(number) => picked(alloc, &set, number),
        None => Ok(set),
    }
}

// What a text names that is no day and no moment.
fn stamp_dated<'e>(alloc: Global, text: &[u8], events: &'e Events) -> Result<EventSet<'e>, Halt>
    ensures events { IfOk result (λ set. set.events ≡ events.now.list) }
    ensures ids { Returns (λ set. set.ids) result (stamp_dated text.now events.now.list) }
{
    match stamp_parts(text) {
        Some((moment, rest)) => {
            let (email, number) = email_in(rest);
            let set = of_stamp(alloc, moment, email, number, events)?;
            some_or(set, no_name(alloc, text)?)
        }
        None => {
            let text = Items::of(alloc, text)?;
            Err(Halt::Refused(Fault::BadMoment { text }))
        }
    }
}

/// The events that a text of date form names. Refused where it is no such text, or where no event has its date.
pub fn dated<'e>(alloc: Global, text: &[u8], events: &'e Events) -> Result<EventSet<'e>, Halt>
    ensures events { IfOk result (λ set. set.events ≡ events.now.list) }
    ensures ids { Returns (λ set. set.ids) result (dated text.now events.now.list) }
{
    if is_day(text) {
        some_or(of_day(alloc, text, events)?, no_name(alloc, text)?)
    } else if is_moment(text) {
        some_or(of_moment(alloc, text, events)?, no_name(alloc, text)?)
    } else {
        stamp_dated(alloc, text, events)
    }
}
