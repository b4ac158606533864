//! Stamps of commits: when and by whom they were committed, and which of several with one stamp
//! each is. The commits of the whole history are counted once, and not again for each chosen one.
ghost use Rattle.std.specs.Prelude.{
  ◌≡◌,
  ◌+◌,
  ◌<◌,
  ◌≤◌,
  ◌^◌,
  ◌++◌,
  [],
  bytes_eq,
  if◌then◌else◌,
  slice_get,
  unwrap_or,
  IfOk,
  OnOk,
};
ghost use Rattle.history_laws.specs.Finding.{IsDated};
ghost use Rattle.listing.specs.Listings.{line_of};
ghost use Rattle.listing.specs.Stamping.{AreCounts, CountsOneMore, IsRankAfter, counted, ranks};
ghost use Rattle.listing.specs.Stamps.{stamp_line, stamp_of, stamp_text, which_text};
ghost use Rattle.plain_model.specs.Lookups.{find_event, number_of};
ghost use Rattle.plain_model.specs.Paths.{Bytes};
ghost use Rattle.plain_model.specs.Text.{line};
ghost use Rattle.plain_model.specs.declared.limit.TheConstants.{MAX_SECONDS};

use crate::finding::{event_at, event_of};
use civil_dates::push_date;
use event_arena::Events;
use plain_model::{AnyId, Items, NoMemory, NumberList, PlainEvent, Signed, Text};
use std::alloc::Global;
use std::collections::BTreeMap;
use std::marker::Model;

/// How many commits have each stamp. Contracts see the stamps with their counts, in byte order.
#[derive(Drop)]
struct StampCounts {
    alloc: Global,
    by_stamp: BTreeMap<Vec<u8>, u64>,
}

impl Model for StampCounts {
    ghost use Rattle.std.specs.Prelude.{ℕ};
    ghost use Rattle.branch_tips.specs.Entries.{tips_in};
    ghost use Rattle.plain_model.specs.Trees.{TreeOf};

    ghost Value = { TreeOf ℕ };

    ghost view = { λ c. tips_in c.by_stamp.entries };
}

impl StampCounts {
    fn new(alloc: Global) -> StampCounts
        ensures { result ≡ [] }
    {
        StampCounts {
            alloc,
            by_stamp: BTreeMap::new(alloc),
        }
    }

    fn count(&self, stamp: &[u8]) -> u64
        ensures { result ≡ counted self.now stamp.now }
    {
        self.by_stamp.get(stamp).copied().unwrap_or(0)
    }

    // One commit more has the stamp. The answer is which of them it is.
    fn add(&mut self, stamp: Text) -> Result<u64, NoMemory>
        requires { counted self.old stamp + 1 < 2 ^ 64 }
        ensures which { IfOk result (λ which. which ≡ counted self.old stamp + 1) }
        ensures counts { OnOk result ((other : Bytes) → counted self.new other
            ≡ counted self.old other + (if bytes_eq other stamp then 1 else 0)) }
    {
        let which = self.count(stamp.as_slice()) + 1;
        self.by_stamp.insert(stamp.into_items(), which)?;
        Ok(which)
    }

    // Counts an event's stamp, if it is a commit. The answer is which of those with its stamp it
    // is, or 0.
    fn note(&mut self, event: &PlainEvent) -> Result<u64, NoMemory>
        requires dated { IsDated event.now }
        requires room { (stamp : Bytes) → counted self.old stamp + 1 < 2 ^ 64 }
        ensures which { IfOk result (λ which. IsRankAfter self.old event.now which) }
        ensures counts { OnOk result (CountsOneMore self.old event.now self.new) }
    {
        match event {
            PlainEvent::Commit { committer, .. } => {
                let mut stamp = Items::empty(self.alloc);
                push_stamp(committer, &mut stamp)?;
                let which = self.add(stamp)?;
                Ok(which)
            }
            _ => Ok(0),
        }
    }
}

/// The stamps of a whole history.
#[derive(Drop)]
struct Stamped {
    counts: StampCounts,
    // For each event, which of the commits with its stamp it is; 0 where it isn't a commit.
    ranks: NumberList,
}

fn all_stamps(alloc: Global, events: &Events) -> Result<Stamped, NoMemory>
    ensures counts { IfOk result (λ made. AreCounts made.counts events.now.list) }
    ensures ranks { IfOk result (λ made. made.ranks ≡ ranks [] events.now.list) }
{
    let mut counts = StampCounts::new(alloc);
    let mut ranks = NumberList::new(alloc)?;
    for place in 0..events.count() {
        let which = counts.note(event_at(events, place))?;
        ranks.push(which)?;
    }
    Ok(Stamped { counts, ranks })
}

// Puts the date and the email.
fn push_stamp(committer: &Signed, into: &mut Text) -> Result<(), NoMemory>
    requires { committer.now.when.seconds ≤ MAX_SECONDS }
    ensures { OnOk result (into.new ≡ into.old ++ stamp_of committer.now) }
{
    push_date(committer.when.seconds, into)?;
    into.push(b'!')?;
    into.push_all(committer.person.as_ref().email.as_slice())
}

// Puts which one it is, where there are several.
fn push_which(several: u64, which: u64, into: &mut Text) -> Result<(), NoMemory>
    ensures { OnOk result (into.new ≡ into.old ++ which_text several which) }
{
    if 1 < several {
        into.push(b'#')?;
        into.push_number(which)?;
    }
    Ok(())
}

fn push_stamped(
    counts: &StampCounts,
    committer: &Signed,
    which: u64,
    into: &mut Text,
) -> Result<(), NoMemory>
    requires { committer.now.when.seconds ≤ MAX_SECONDS }
    ensures { OnOk result (into.new ≡ into.old ++ line (stamp_of committer.now
        ++ which_text (counted counts.now (stamp_of committer.now)) which)) }
{
    let mut stamp = into.empty_like();
    push_stamp(committer, &mut stamp)?;
    into.push_all(stamp.as_slice())?;
    push_which(counts.count(stamp.as_slice()), which, into)?;
    into.push(b'\n')
}

fn rank_at(ranks: &[u64], place: usize) -> u64
    ensures { result ≡ unwrap_or (slice_get ranks.now place) 0 }
{
    ranks.get(place).copied().unwrap_or(0)
}

fn push_stamp_line(
    events: &Events,
    stamped: &Stamped,
    id: &AnyId,
    into: &mut Text,
) -> Result<(), NoMemory>
    requires counts { AreCounts stamped.now.counts events.now.list }
    requires ranks { stamped.now.ranks ≡ ranks [] events.now.list }
    ensures { let all = events.now.list in
        OnOk result (into.new ≡
        into.old ++ line_of (stamp_line all) (number_of id.now all) (find_event id.now all)) }
{
    let Some(place) = events.place(*id) else {
        return Ok(());
    };
    let which = rank_at(stamped.ranks.as_slice(), place);
    match event_of(events, *id) {
        Some(PlainEvent::Commit { committer, .. }) => {
            push_stamped(&stamped.counts, committer, which, into)
        }
        _ => Ok(()),
    }
}

/// Puts the stamps of the commits among the given events, in the order of the ids.
#[tactic(auto, unfolding(crate::specs::Stamps::stamp_text))]
pub fn stamp(events: &Events, set: &[AnyId], into: &mut Text) -> Result<(), NoMemory>
    ensures { OnOk result (into.new ≡ into.old ++ stamp_text events.now.list set.now) }
{
    let stamped = all_stamps(into.alloc(), events)?;
    for id in set {
        push_stamp_line(events, &stamped, id, into)?;
    }
    Ok(())
}
