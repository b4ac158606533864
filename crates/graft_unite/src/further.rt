//! One further part of a `unite`, behind a plan.
ghost use Rattle.std.specs.Prelude.{
  ◌≡◌,
  ◌≤◌,
  ◌+◌,
  ◌++◌,
  length,
  take,
  IfOk,
  IsErrOf,
  OnOk,
  None,
  Some,
};
ghost use Rattle.graft_laws.specs.Faults.{name_fault};
ghost use Rattle.graft_laws.specs.Joining.{added, new_names, without_passes};
ghost use Rattle.graft_laws.specs.Unite.{part_fault};
ghost use Rattle.graft_unite.specs.Dates.{AreDatesOf};
ghost use Rattle.graft_unite.specs.Uniting.{IsKnown, clashing, joining, marked_part};
ghost use Rattle.graft_unite.specs.Used.{AreNamesOf};
ghost use Rattle.plain_model.specs.Lookups.{AreIdsBelow, marks_of};
ghost use Rattle.plain_model.specs.declared.fault.Halt.TheVariants.{Refused};
ghost use Rattle.plain_model.specs.declared.limit.TheConstants.{MAX_MARK};
ghost use Rattle.renumbering.specs.Renumbered.{renumbered_from};

use crate::appending::append_part;
use crate::clashes::name_fault;
use crate::dates::Dates;
use crate::joining::Join;
use crate::limits::mark_behind;
use crate::part::Part;
use crate::used::Names;
use event_arena::{Events, Plan};
use plain_model::{Halt, NoMemory, ParentList};
use std::alloc::Global;
use std::marker::Model;

// Names that are in use go below one, where neither those nor the part's own may be given; each root is on the latest commit before it.
#[derive(Drop)]
struct Uniting<'a> {
    prefix: &'a [u8],
    used: &'a Names,
    own: &'a Names,
    dates: &'a Dates,
    prune: bool,
}

impl<'a> Model for Uniting<'a> {
    ghost use Rattle.graft_unite.specs.Uniting.{Uniting};

    ghost Value = { Uniting };

    ghost view = { λ u. record {
      prune = u.prune;
      prefix = u.prefix.now;
      used = u.used.now;
      own = u.own.now;
      dates = u.dates.now;
    } };
}

impl<'a> Join for Uniting<'a> {
    ghost use Rattle.graft_unite.specs.Uniting.{clashing, joining};

    ghost joining = { λ u. joining u };

    ghost clashing = { λ u name. clashing u name };

    fn prefix(&self) -> &[u8] {
        self.prefix
    }

    fn is_taken(&self, name: &[u8]) -> bool {
        self.used.has(name)
    }

    fn clashes(&self, name: &[u8]) -> bool {
        self.used.has(name) || self.own.has(name)
    }

    fn parents(&self, alloc: Global, seconds: u64) -> Result<ParentList, NoMemory> {
        match self.dates.latest(seconds) {
            Some(commit) => ParentList::of(alloc, &[commit]),
            None => ParentList::new(alloc),
        }
    }

    fn prunes(&self) -> bool {
        self.prune
    }
}

// How a part is joined to a list of which so much is known.
fn united_under<'a>(
    prefix: &'a [u8],
    used: &'a Names,
    own: &'a Names,
    dates: &'a Dates,
    prune: bool,
) -> Uniting<'a>
    ensures { result ≡ record {
      prune = prune;
      prefix = prefix.now;
      used = used.now;
      own = own.now;
      dates = dates.now;
    } }
{
    Uniting {
        prefix,
        used,
        own,
        dates,
        prune,
    }
}

// Puts what is known of the events of a plan from a place on to what is known of those before it.
fn note_from(
    alloc: Global,
    plan: &Plan,
    from: usize,
    used: &mut Names,
    dates: &mut Dates,
) -> Result<(), NoMemory>
    requires { from ≤ length plan.now.after }
    ensures names { OnOk result (AreNamesOf (take from plan.now.after) used.old
        → AreNamesOf plan.now.after used.new) }
    ensures dates { OnOk result (AreDatesOf (take from plan.now.after) dates.old
        → AreDatesOf plan.now.after dates.new) }
{
    for place in from..plan.count() {
        let event = plan.nth(place);
        used.note(alloc, event)?;
        dates.note(event)?;
    }
    Ok(())
}

// Puts the events of a part behind a plan, unless a new name may not be given. The answer is the number and the mark that come next.
fn append_united(
    alloc: Global,
    how: &Uniting,
    part: &Events,
    next: u64,
    mark: u64,
    plan: &mut Plan,
) -> Result<(u64, u64), Halt>
    requires next { plan.old.next ≡ next }
    requires later { plan.old.made_at ≤ plan.old.next }
    requires low { AreIdsBelow plan.old.next plan.old.after }
    requires mark { 1 ≤ mark }
    requires fits { mark ≤ MAX_MARK + 1 }
    ensures free { OnOk result (name_fault (clashing how.now) (new_names (joining how.now) part.now.list) ≡ None) }
    ensures plan { OnOk result (plan.new ≡ record plan.old {
      after = plan.old.after ++ renumbered_from mark (added (joining how.now) next part.now.list);
      next = next + length (without_passes part.now.list);
    }) }
    ensures next { IfOk result (λ come. come.0 ≡ next + length (without_passes part.now.list)) }
    ensures mark { IfOk result (λ come. come.1 ≡ mark + length (marks_of part.now.list)) }
    ensures fits { IfOk result (λ come. come.1 ≤ MAX_MARK + 1) }
    ensures refused { (fault : _) → IsErrOf result (Refused fault)
        → name_fault (clashing how.now) (new_names (joining how.now) part.now.list) ≡ Some fault }
{
    if let Some(fault) = name_fault(alloc, how, part)? {
        return Err(Halt::Refused(fault));
    }
    // No memory holds as many events as there are ids, and histories within the limits have far fewer marks than there are.
    let Some(mark_after) = mark_behind(part, mark) else {
        return Err(Halt::Memory);
    };
    let before = plan.count();
    let count = part.count() as u64;
    if (1 << 63) <= next || (1 << 63) - next <= count {
        return Err(Halt::Memory);
    }
    append_part(alloc, how, part, next, mark, plan)?;
    Ok((next + (plan.count() - before) as u64, mark_after))
}

/// Joins a further part of a `unite` to the list that a plan leaves, of which so much is known: the number and the mark that come
/// next, its names, and its commits by their seconds. The answer is the number and the mark that come then. Refused where a new
/// name is in use in the list or in the part. (reposurgeon manual, `unite`; the commits of roots: own.)
pub fn join(
    alloc: Global,
    part: &Part,
    prune: bool,
    come: (u64, u64),
    plan: &mut Plan,
    used: &mut Names,
    dates: &mut Dates,
) -> Result<(u64, u64), Halt>
    requires known { IsKnown plan.old.after come.0 come.1 used.old dates.old }
    requires next { plan.old.next ≡ come.0 }
    requires later { plan.old.made_at ≤ plan.old.next }
    requires fits { come.1 ≤ MAX_MARK + 1 }
    ensures free { OnOk result (part_fault prune plan.old.after part.now ≡ None) }
    ensures plan { OnOk result (plan.new ≡ record plan.old {
      after = plan.old.after ++ marked_part prune plan.old.after part.now;
      next = come.0 + length (without_passes part.now.events);
    }) }
    ensures known { IfOk result
        (λ after. IsKnown plan.new.after after.0 after.1 used.new dates.new) }
    ensures next { IfOk result (λ after. plan.new.next ≡ after.0) }
    ensures fits { IfOk result (λ after. after.1 ≤ MAX_MARK + 1) }
    ensures refused { (fault : _) → IsErrOf result (Refused fault)
        → part_fault prune plan.old.after part.now ≡ Some fault }
{
    let from = plan.count();
    let own = Names::of(alloc, part.events())?;
    let how = united_under(part.name(), used, &own, dates, prune);
    match append_united(alloc, &how, part.events(), come.0, come.1, plan) {
        Ok(after) => {
            note_from(alloc, plan, from, used, dates)?;
            Ok(after)
        }
        Err(halt) => Err(halt),
    }
}
