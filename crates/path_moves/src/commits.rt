//! The commits of a plan get what is in the place of their operations.
ghost use Rattle.std.specs.Prelude.{◌≡◌, ◌+◌, None, Ok, Some, length, map, slice_get, IfErr, IfOk, IsOk, OnOk};
ghost use Rattle.event_arena.specs.Changes.{changed, with_ops};
ghost use Rattle.manifest_cache.specs.Kept.{AgreesWith};
ghost use Rattle.path_move_laws.specs.MovedOps.{first_fault};
ghost use Rattle.path_move_laws.specs.Moves.{event_fault, first_of, moved_event, moved_events};
ghost use Rattle.path_move_laws.specs.PathMaps.{image_of};
ghost use Rattle.path_moves.specs.Commits.{AreKept, IsMoved, MayMoveTo, Reports};
ghost use Rattle.path_moves.specs.Pairs.{ArePaired};
ghost use Rattle.plain_model.specs.Lookups.{event_ops, find_event, id_of};
ghost use Rattle.plain_model.specs.Trees.{apply_all};
ghost use Rattle.plain_model.specs.declared.id.AnyId.TheVariants.{Commit};

use crate::kept::Kept;
use crate::moving::{Place, move_op};
use crate::pairs::Pair;
use event_arena::{Events, Plan};
use manifest_cache::{Manifests, same_ops};
use path_move_laws::{PathMap, an_operation_moves_the_image};
use plain_model::{CommitId, FileOp, Halt, Mark, NoMemory, OpList, PlainEvent};
use std::alloc::Global;

/// What is in the place of the operations of a commit, and the trees after them.
#[derive(Drop)]
struct Moved {
    ops: OpList,
    pair: Pair,
}

// What is in the place of the operations of a commit that begins with a tree, or the fault of the first tree that has one.
fn moved_ops(
    alloc: Global,
    map: &PathMap,
    mark: Mark,
    ops: &[FileOp],
    begun: Pair,
) -> Result<Moved, Halt>
    requires paired { ArePaired (image_of map.now) begun.tree begun.image }
    requires applies { IsOk (apply_all ops.now begun.tree) }
    ensures moved { IfOk result (λ moved. IsMoved (image_of map.now) mark ops.now begun.tree
        moved.ops moved.pair.tree moved.pair.image) }
    ensures fault { IfErr result
        (Reports (first_fault (image_of map.now) mark 1 ops.now begun.tree)) }
{
    an_operation_moves_the_image();
    let mut pair = begun;
    let mut made = OpList::empty(alloc);
    for place in 0..ops.len() {
        let at = Place {
            mark,
            number: place as u64 + 1,
        };
        pair = move_op(alloc, map, at, &ops[place], pair, &mut made)?;
    }
    Ok(Moved { ops: made, pair })
}

/// Gives a commit of the plan other operations, unless they are those that it has.
pub fn give_ops(
    plan: &mut Plan,
    commit: CommitId,
    ops: &[FileOp],
    made: OpList,
) -> Result<(), NoMemory>
    requires { (e : _) × (find_event (Commit commit) plan.old.after ≡ Some e) × (event_ops e ≡ ops.now) }
    ensures { OnOk result (plan.new ≡ record plan.old {
      after = changed (Commit commit) (with_ops made) plan.old.after;
    }) }
{
    // Each setting copies the event, so none is set that stays as it is.
    if same_ops(made.as_slice(), ops) {
        return Ok(());
    }
    plan.set_ops(commit, made)
}

// Gives the commit at a place what is in the place of its operations.
fn move_at(
    alloc: Global,
    events: &Events,
    manifests: &mut Manifests,
    map: &PathMap,
    kept: &mut Kept,
    plan: &mut Plan,
    place: usize,
    event: &PlainEvent,
) -> Result<(), Halt>
    requires agrees { AgreesWith events.now.list manifests.old }
    requires pairs { AreKept (image_of map.now) events.now.list kept.old.pairs.items }
    requires due { length kept.old.due.items ≡ length events.now.list }
    requires may { MayMoveTo (image_of map.now) events.now.list place }
    requires at { slice_get events.now.list place ≡ Some event.now }
    requires found { find_event (id_of event.now) plan.old.after ≡ Some event.now }
    ensures changed { OnOk result (plan.new ≡ record plan.old {
      after = changed (id_of event.now) (moved_event (image_of map.now) events.now.list) plan.old.after;
    }) }
    ensures calm { OnOk result (event_fault (image_of map.now) events.now.list event.now ≡ None) }
    ensures fault { IfErr result (Reports (event_fault (image_of map.now) events.now.list event.now)) }
    ensures may { OnOk result (MayMoveTo (image_of map.now) events.now.list (place + 1)) }
    ensures pairs { OnOk result (AreKept (image_of map.now) events.now.list kept.new.pairs.items) }
    ensures due { OnOk result (length kept.new.due.items ≡ length events.now.list) }
    ensures agrees { AgreesWith events.now.list manifests.new }
{
    let _count = events.count();
    let PlainEvent::Commit {
        id,
        mark,
        parents,
        ops,
        ..
    } = event
    else {
        return Ok(());
    };
    let begun = kept.begun(alloc, events, manifests, map, parents.as_slice())?;
    let moved = moved_ops(alloc, map, *mark, ops.as_slice(), begun)?;
    kept.keep(map, events, place, moved.pair);
    give_ops(plan, *id, ops.as_slice(), moved.ops)?;
    Ok(())
}

/// Gives all commits what is in the place of their operations, in one pass, or finds the first fault of a tree.
pub fn move_ops(
    alloc: Global,
    events: &Events,
    manifests: &mut Manifests,
    map: &PathMap,
    plan: &mut Plan,
) -> Result<(), Halt>
    requires agrees { AgreesWith events.now.list manifests.old }
    requires whole { plan.old.after ≡ events.now.list }
    ensures changed { OnOk result (plan.new ≡ record plan.old {
      after = moved_events (image_of map.now) events.now.list;
    }) }
    ensures calm { OnOk result (first_of (image_of map.now) events.now.list events.now.list ≡ None) }
    ensures fault { IfErr result
        (Reports (first_of (image_of map.now) events.now.list events.now.list)) }
    ensures agrees { AgreesWith events.now.list manifests.new }
{
    let mut kept = Kept::new(alloc, events)?;
    for place in 0..events.count() {
        let event = events.nth(place);
        move_at(alloc, events, manifests, map, &mut kept, plan, place, event)?;
    }
    Ok(())
}
