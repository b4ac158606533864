//! A move for which the names that operations say are enough: no tree is looked at.
ghost use Rattle.std.specs.Prelude.{◌≡◌, map, IfOk, IsTrue, OnOk, Some};
ghost use Rattle.std.specs.List.{AllByRecursion};
ghost use Rattle.event_arena.specs.Changes.{changed};
ghost use Rattle.path_move_laws.specs.ByName.{GoesByName, IsNamed, named_event};
ghost use Rattle.path_move_laws.specs.MovedOps.{mapped_op};
ghost use Rattle.path_move_laws.specs.Moves.{moved_events};
ghost use Rattle.path_move_laws.specs.PathMaps.{image_of};
ghost use Rattle.plain_model.specs.Lookups.{event_ops, find_event, id_of};

use crate::commits::give_ops;
use crate::images::mapped_op;
use event_arena::{Events, Plan};
use path_move_laws::PathMap;
use plain_model::{FileOp, NoMemory, OpList, PlainEvent};
use std::alloc::Global;

// The same operation where its paths go.
fn named_op(alloc: Global, map: &PathMap, op: &FileOp) -> Result<FileOp, NoMemory>
    requires { IsNamed (image_of map.now) op.now }
    ensures { IfOk result (λ mapped. mapped ≡ mapped_op (image_of map.now) op.now) }
{
    match mapped_op(alloc, map, op)? {
        Some(mapped) => Ok(mapped),
        None => unreachable!(),
    }
}

// The same operations where their paths go.
fn named_ops(alloc: Global, how: &PathMap, ops: &[FileOp]) -> Result<OpList, NoMemory>
    requires { AllByRecursion (IsNamed (image_of how.now)) ops.now }
    ensures { IfOk result (λ made. made ≡ map (mapped_op (image_of how.now)) ops.now) }
{
    let mut made = OpList::empty(alloc);
    for place in 0..ops.len() {
        made.push(named_op(alloc, how, &ops[place])?)?;
    }
    Ok(made)
}

// Gives an event of the plan its operations where their paths go.
fn name_at(
    alloc: Global,
    map: &PathMap,
    plan: &mut Plan,
    event: &PlainEvent,
) -> Result<(), NoMemory>
    requires named { AllByRecursion (IsNamed (image_of map.now)) (event_ops event.now) }
    requires found { find_event (id_of event.now) plan.old.after ≡ Some event.now }
    ensures { OnOk result (plan.new ≡ record plan.old {
      after = changed (id_of event.now) (named_event (image_of map.now)) plan.old.after;
    }) }
{
    let PlainEvent::Commit { id, ops, .. } = event else {
        return Ok(());
    };
    let made = named_ops(alloc, map, ops.as_slice())?;
    give_ops(plan, *id, ops.as_slice(), made)
}

/// Gives all commits their operations where their paths go.
pub fn name_ops(
    alloc: Global,
    events: &Events,
    map: &PathMap,
    plan: &mut Plan,
) -> Result<(), NoMemory>
    requires named { GoesByName (image_of map.now) events.now.list }
    requires whole { plan.old.after ≡ events.now.list }
    ensures { OnOk result (plan.new ≡ record plan.old {
      after = moved_events (image_of map.now) events.now.list;
    }) }
{
    for place in 0..events.count() {
        name_at(alloc, map, plan, events.nth(place))?;
    }
    Ok(())
}
