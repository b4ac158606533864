//! The commits of a plan get what is in the place of their operations.
ghost use Rattle.std.specs.Prelude.{◌≡◌, ◌<◌, Some, length, map, slice_get, IfOk, OnOk};
ghost use Rattle.std.specs.List.{AllByRecursion, list_any};
ghost use Rattle.event_arena.specs.Changes.{changed};
ghost use Rattle.expunge_laws.specs.Expunged.{replaced_event, replaced_events};
ghost use Rattle.expunge_laws.specs.Untouched.{may_be_touched, may_touch};
ghost use Rattle.manifest_cache.specs.Kept.{AgreesWith};
ghost use Rattle.expunge_laws.specs.Matching.{matched_by};
ghost use Rattle.plain_model.specs.Histories.{begun, tree};
ghost use Rattle.plain_model.specs.Lookups.{find_event, id_of};
ghost use Rattle.plain_model.specs.Soundness.{IsCommitOf};
ghost use Rattle.plan_steps.specs.Flags.{FlagsNamed};

use crate::leaving::leave_out;
use crate::matching::Matching;
use crate::naming::{PlaceFlags, named_apart};
use crate::replacing::{may_touch, replaced_all};
use event_arena::{Events, Plan};
use expunge_laws::what_names_matched_paths_goes;
use manifest_cache::Manifests;
use path_tree::PathTree;
use plain_model::{CommitId, FileOp, NoMemory, PlainEvent, Steps};
use plan_steps::named_after;
use std::alloc::Global;

// The steps of folding the trees of parents, which nobody looks at.
struct FoldSteps;

// The tree with which a commit with these parents begins.
fn begun(
    alloc: Global,
    events: &Events,
    manifests: &mut Manifests,
    parents: &[CommitId],
) -> Result<PathTree, NoMemory>
    requires agrees { AgreesWith events.now.list manifests.old }
    requires there { AllByRecursion (IsCommitOf events.now.list) parents.now }
    ensures tree { IfOk result (λ t. begun (tree events.now.list) parents.now ≡ Some t) }
    ensures kept { AgreesWith events.now.list manifests.new }
{
    match parents.first() {
        Some(parent) => {
            let mut steps: Steps<FoldSteps> = Steps::new();
            let tree = manifests.get(events, *parent, &mut steps)?;
            tree.share()
        }
        None => PathTree::new(alloc),
    }
}

// Whether some of these operations may touch a matched path, as far as it is known without a tree.
fn may_any_touch(matching: &mut Matching<'_>, ops: &[FileOp]) -> bool
    ensures touched { result ≡ list_any (may_touch (matched_by matching.old)) ops.now }
    ensures same { matching.new ≡ matching.old }
{
    for op in ops {
        if may_touch(matching, op) {
            return true;
        }
    }
    false
}

// Gives the commit at a place what is in the place of its operations, and answers whether a matched path may be touched
// there. Its tree is asked for only where one may be.
fn replace_at(
    alloc: Global,
    events: &Events,
    manifests: &mut Manifests,
    matching: &mut Matching<'_>,
    plan: &mut Plan,
    place: usize,
    event: &PlainEvent,
) -> Result<bool, NoMemory>
    requires agrees { AgreesWith events.now.list manifests.old }
    requires at { slice_get events.now.list place ≡ Some event.now }
    requires found { find_event (id_of event.now) plan.old.after ≡ Some event.now }
    ensures changed { OnOk result (plan.new ≡ record plan.old {
      after = changed (id_of event.now)
          (replaced_event (matched_by matching.old) events.now.list) plan.old.after;
    }) }
    ensures touched { IfOk result
        (λ touched. touched ≡ may_be_touched (matched_by matching.old) event.now) }
    ensures same { matching.new ≡ matching.old }
    ensures kept { AgreesWith events.now.list manifests.new }
{
    let _count = events.count();
    let PlainEvent::Commit {
        id,
        parents,
        ops,
        ..
    } = event
    else {
        return Ok(false);
    };
    if !may_any_touch(matching, ops.as_slice()) {
        return Ok(false);
    }
    let begun = begun(alloc, events, manifests, parents.as_slice())?;
    let made = replaced_all(alloc, matching, ops.as_slice(), begun)?;
    plan.set_ops(*id, made)?;
    Ok(true)
}

// Gives all commits what is in the place of their operations, in one pass.
fn replace_with_trees(
    alloc: Global,
    events: &Events,
    manifests: &mut Manifests,
    matching: &mut Matching<'_>,
    plan: &mut Plan,
) -> Result<PlaceFlags, NoMemory>
    requires agrees { AgreesWith events.now.list manifests.old }
    requires whole { plan.old.after ≡ events.now.list }
    ensures changed { OnOk result (plan.new ≡ record plan.old {
      after = replaced_events (matched_by matching.old) events.now.list;
    }) }
    ensures touched { IfOk result (λ flags.
        flags.touched.items ≡ map (may_be_touched (matched_by matching.old)) events.now.list) }
    ensures named { IfOk result (λ flags. FlagsNamed events.now.list
        (replaced_events (matched_by matching.old) events.now.list) flags.named.items) }
    ensures kept { AgreesWith events.now.list manifests.new }
{
    let mut touched = Vec::with_capacity(alloc, events.count())?;
    for place in 0..events.count() {
        let is_touched = replace_at(
            alloc,
            events,
            manifests,
            matching,
            plan,
            place,
            events.nth(place),
        )?;
        touched.push(is_touched)?;
    }
    let named = named_after(alloc, plan)?;
    Ok(PlaceFlags { touched, named })
}

/// Gives all commits what is in the place of their operations, and answers at which places a matched path may be touched,
/// and which blobs are named after. Where the paths of a history stand apart, as in nearly each one, what names a matched
/// path just goes, and no tree is asked for.
pub fn replace_ops(
    alloc: Global,
    events: &Events,
    manifests: &mut Manifests,
    matching: &mut Matching<'_>,
    plan: &mut Plan,
) -> Result<PlaceFlags, NoMemory>
    requires agrees { AgreesWith events.now.list manifests.old }
    requires whole { plan.old.after ≡ events.now.list }
    ensures changed { OnOk result (plan.new ≡ record plan.old {
      after = replaced_events (matched_by matching.old) events.now.list;
    }) }
    ensures touched { IfOk result (λ flags.
        flags.touched.items ≡ map (may_be_touched (matched_by matching.old)) events.now.list) }
    ensures named { IfOk result (λ flags. FlagsNamed events.now.list
        (replaced_events (matched_by matching.old) events.now.list) flags.named.items) }
    ensures kept { AgreesWith events.now.list manifests.new }
{
    let _count = events.count();
    if let Some(noted) = named_apart(alloc, events, matching)? {
        what_names_matched_paths_goes();
        leave_out(alloc, events, &noted, plan)?;
        return Ok(noted.flags);
    }
    replace_with_trees(alloc, events, manifests, matching, plan)
}
