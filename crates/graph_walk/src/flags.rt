//! Flags for the events of a list, one for each place.
ghost use Rattle.std.specs.Prelude.{◌≡◌, false, length, replicate, IfOk};
ghost use Rattle.std.specs.List.{list_any};
ghost use Rattle.graph_walk.specs.Flags.{FlagsOf, is_flagged_commit};

use event_arena::EventTable;
use plain_model::{AnyId, CommitId, NoMemory};
use std::alloc::Global;

/// No flag at any place.
pub fn no_flags(alloc: Global, events: &EventTable) -> Result<Vec<bool>, NoMemory>
    ensures { IfOk result (λ flags. flags.items ≡ replicate (length events.now) false) }
{
    Ok(vec![in alloc; false; events.count()]?)
}

// Flags the events with these ids, where there is no flag yet.
fn flag_ids(events: &EventTable, ids: &[AnyId], flags: &mut [bool])
    requires { flags.old ≡ replicate (length events.now) false }
    ensures { FlagsOf events.now ids.now flags.new }
{
    let _count = events.count();
    for id in ids {
        if let Some(place) = events.place(*id) {
            flags[place] = true;
        }
    }
}

/// Flags for the events with these ids.
pub fn flags_of(alloc: Global, events: &EventTable, ids: &[AnyId]) -> Result<Vec<bool>, NoMemory>
    ensures { IfOk result (λ flags. FlagsOf events.now ids.now flags.items) }
{
    let mut flags = no_flags(alloc, events)?;
    flag_ids(events, ids, &mut flags);
    Ok(flags)
}

/// Whether one of these commits is flagged.
pub fn is_any_flagged(events: &EventTable, set: &[CommitId], flags: &[bool]) -> bool
    requires { length flags.now ≡ length events.now }
    ensures { result ≡ list_any (is_flagged_commit flags.now events.now) set.now }
{
    for commit in set {
        if let Some(place) = events.place(AnyId::Commit(*commit)) {
            if flags[place] {
                return true;
            }
        }
    }
    false
}
