//! The plan of an expunge.
ghost use Rattle.std.specs.Prelude.{◌≡◌, Ok, IfOk, OnOk};
ghost use Rattle.event_arena.specs.Plans.{Plans, leaving};
ghost use Rattle.expunge_laws.specs.Expunged.{expunge_of, expunged};
ghost use Rattle.manifest_cache.specs.Kept.{AgreesWith};
ghost use Rattle.expunge_laws.specs.Matching.{matched_by};
ghost use Rattle.squash_laws.specs.Takings.{is_none};

use crate::commits::replace_ops;
use crate::emptied::emptied;
use crate::matcher::Matcher;
use crate::matching::Matching;
use crate::pushing::give_way;
use event_arena::{Events, Plan};
use expunge_laws::{
    an_expunge_comes_to_its_end, an_expunge_keeps_soundness, emptied_commits_give_way_in_line,
    what_no_matched_path_touches_stays,
};
use manifest_cache::Manifests;
use plain_model::{AnyId, Halt, NoMemory};
use plan_steps::{Selected, limit_passed, put_near_in_order, sweep_touched};
use std::alloc::Global;

// Whether there is no event in a set.
fn is_nothing(set: &[AnyId]) -> bool
    ensures { result ≡ is_none set.now }
{
    match set {
        [] => true,
        _ => false,
    }
}

// Takes the matched paths out of a plan of a history, whatever the limits are.
fn remove_paths(
    alloc: Global,
    events: &Events,
    manifests: &mut Manifests,
    matching: &mut Matching<'_>,
    plan: &mut Plan,
) -> Result<(), NoMemory>
    requires agrees { AgreesWith events.now.list manifests.old }
    requires before { plan.old.before ≡ events.now.list }
    requires whole { plan.old.after ≡ events.now.list }
    ensures after { OnOk result
        (expunged (matched_by matching.old) events.now.list ≡ Ok plan.new.after) }
    ensures others { OnOk result (plan.new ≡ record plan.old { after = plan.new.after }) }
    ensures kept { AgreesWith events.now.list manifests.new }
{
    let _count = events.count();
    let flags = replace_ops(alloc, events, manifests, matching, plan)?;
    let set = emptied(alloc, plan, &flags.touched)?;
    what_no_matched_path_touches_stays();
    if is_nothing(set.as_slice()) {
        sweep_touched(alloc, plan, &flags.touched, &flags.named)?;
        return Ok(());
    }
    emptied_commits_give_way_in_line();
    an_expunge_comes_to_its_end();
    give_way(alloc, events, plan, set.as_slice())?;
    sweep_touched(alloc, plan, &flags.touched, &flags.named)?;
    let removal = Selected::of(alloc, events, set.as_slice())?;
    put_near_in_order(alloc, &removal, plan)?;
    Ok(())
}

// What an expunge leaves, whatever the limits are.
fn expunged(
    alloc: Global,
    events: &Events,
    manifests: &mut Manifests,
    matchers: &[Matcher],
) -> Result<Plan, NoMemory>
    requires { AgreesWith events.now.list manifests.old }
    ensures after { IfOk result (λ plan.
        expunged (matched_by matchers.now) events.now.list ≡ Ok plan.after) }
    ensures made { IfOk result (λ plan. plan ≡ leaving events.now plan.after) }
    ensures kept { AgreesWith events.now.list manifests.new }
{
    let mut matching = Matching::new(alloc, matchers)?;
    let mut plan = Plan::new(alloc, events)?;
    remove_paths(alloc, events, manifests, &mut matching, &mut plan)?;
    Ok(plan)
}

/// The plan that takes all matched paths out of a history. A commit that this empties goes, unless it is a merge, with
/// the tags and resets that no commit is left for; blobs go that nothing names any more. What a copy or a rename carries
/// out of a matched path stays. Refused by the first limit that is passed. (reposurgeon manual, `expunge`.)
pub fn expunge(
    alloc: Global,
    events: &Events,
    manifests: &mut Manifests,
    matchers: &[Matcher],
) -> Result<Plan, Halt>
    requires agrees { AgreesWith events.now.list manifests.old }
    ensures plans { Plans events.now events.now.next_id result
        (expunge_of (matched_by matchers.now) events.now.list) }
    ensures kept { AgreesWith events.now.list manifests.new }
{
    let _count = events.count();
    let plan = expunged(alloc, events, manifests, matchers)?;
    if let Some(fault) = limit_passed(&plan) {
        return Err(Halt::Refused(fault));
    }
    an_expunge_keeps_soundness();
    Ok(plan)
}
