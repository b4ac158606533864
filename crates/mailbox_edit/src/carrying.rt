//! The plan that lands all messages of a box.
ghost use Rattle.std.specs.Prelude.{◌≡◌, OnOk};
ghost use Rattle.std.specs.List.{AllByRecursion};
ghost use Rattle.event_arena.specs.Plans.{Plans};
ghost use Rattle.mailbox_edit.specs.Landings.{IsLandable, landed_all};
ghost use Rattle.mailbox_laws.specs.Landing.{land_of};

use crate::giving::land;
use crate::judging::landings_of;
use crate::landing::Landing;
use event_arena::{Events, Plan};
use mailbox_laws::a_landing_keeps_soundness;
use plain_model::{Halt, NoMemory};
use std::alloc::Global;
use stream_fields::People;

// Lands messages, one after another.
fn land_all(alloc: Global, plan: &mut Plan, landings: &[Landing<'_>]) -> Result<(), NoMemory>
    requires { AllByRecursion (IsLandable plan.old.after) landings.now }
    ensures { OnOk result
        (plan.new ≡ record plan.old { after = landed_all landings.now plan.old.after }) }
{
    let mut people = People::new(alloc);
    for landing in landings {
        land(alloc, &mut people, plan, landing)?;
    }
    Ok(())
}

/// The plan that lands every message of a box on the event that it names: its comment, and who and when where the message
/// says it. Refused is the fault at the lowest line of the box, with 70 before 71 before 72 at one line: all messages are
/// judged by the history as it is, before any lands. An event that a message leaves as it is isn't copied. It takes time
/// for the box and for the history once, however many messages there are. (reposurgeon manual, `msgin`; the form and the
/// faults: own.)
pub fn msgin(alloc: Global, events: &Events, bytes: &[u8]) -> Result<Plan, Halt>
    ensures { Plans events.now events.now.next_id result (land_of events.now.list bytes.now) }
{
    let _count = events.count();
    a_landing_keeps_soundness();
    let landings = landings_of(alloc, events, bytes)?;
    let mut plan = Plan::new(alloc, events)?;
    land_all(alloc, &mut plan, &landings)?;
    Ok(plan)
}
