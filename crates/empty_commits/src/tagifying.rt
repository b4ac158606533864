//! The plan of a `tagify`.
ghost use Rattle.std.specs.Prelude.{◌≡◌, ◌<◌, ◌+◌, ◌^◌, length, IfOk};
ghost use Rattle.event_arena.specs.Plans.{Plans, leaving};
ghost use Rattle.tagify_laws.specs.InPlace.{in_place};
ghost use Rattle.tagify_laws.specs.Tagify.{tagged, tagify_of};

use crate::empties::Empties;
use crate::moving::move_all;
use crate::names::taken_name;
use crate::tagging::{append_all, order_from};
use event_arena::{Events, Plan};
use plain_model::{AnyId, Fault, Halt, NoMemory};
use std::alloc::Global;
use tagify_laws::{
    a_tagify_keeps_soundness, nothing_changes_where_no_commit_becomes_a_tag,
    tags_are_in_the_place_of_commits,
};

// The plan that puts tags in the place of commits.
fn tagified(alloc: Global, events: &Events, empties: &Empties) -> Result<Plan, NoMemory>
    requires events { empties.now.events ≡ events.now.list }
    requires low { events.now.next_id < 2 ^ 62 }
    ensures { IfOk result (λ plan. plan ≡ record (leaving events.now
        (in_place empties.now.set empties.now.events events.now.next_id empties.now.events)) {
          next = events.now.next_id + length (tagged empties.now.set empties.now.events);
        }) }
{
    let _count = empties.count();
    let order = order_from(alloc, empties, events.next_id())?;
    let mut plan = Plan::new(alloc, events)?;
    move_all(alloc, empties, &mut plan)?;
    append_all(alloc, empties, &mut plan)?;
    plan.remove_all(empties.ids())?;
    let _left = plan.count();
    plan.set_order(order)?;
    Ok(plan)
}

/// The plan that makes tags of the selected commits that have no operation, and one parent. Each tag is on the commit before,
/// with the committer and the comment of its commit, and has its place in the list; what else was on that commit goes to the
/// one before too. Refused by the first name of a new tag that a tag has already. (reposurgeon manual, `tagify`; the names,
/// and what is refused: own.)
pub fn tagify(alloc: Global, events: &Events, set: &[AnyId]) -> Result<Plan, Halt>
    requires { events.now.next_id < 2 ^ 62 }
    ensures { Plans events.now
        (events.now.next_id + length (tagged set.now events.now.list)) result
        (tagify_of events.now.next_id set.now events.now.list) }
{
    let _count = events.count();
    let _next = events.next_id();
    let empties = Empties::of(alloc, events, set)?;
    nothing_changes_where_no_commit_becomes_a_tag();
    if empties.ids().as_slice().is_empty() {
        return Ok(Plan::new(alloc, events)?);
    }
    if let Some(name) = taken_name(alloc, events, &empties)? {
        return Err(Halt::Refused(Fault::NameTaken { name }));
    }
    tags_are_in_the_place_of_commits();
    a_tagify_keeps_soundness();
    let plan = tagified(alloc, events, &empties)?;
    Ok(plan)
}
