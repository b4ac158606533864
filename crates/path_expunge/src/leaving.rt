//! What names a matched path is left out, where paths stand apart.
ghost use Rattle.std.specs.Prelude.{◌≡◌, ◌<◌, Some, filter, length, map, not, slice_get, IfOk, OnOk};
ghost use Rattle.std.specs.List.{list_any};
ghost use Rattle.event_arena.specs.Changes.{changed};
ghost use Rattle.expunge_laws.specs.Apart.{event_without};
ghost use Rattle.path_expunge.specs.Apart.{takes};
ghost use Rattle.plain_model.specs.Lookups.{event_ops, find_event, id_of};

use crate::naming::{Named, Noted};
use event_arena::{Events, Plan};
use plain_model::{Copied, FileOp, NoMemory, OpList};
use std::alloc::Global;

// Copies of the operations that name none.
fn ops_left(alloc: Global, named: &Named<'_>, ops: &[FileOp]) -> Result<OpList, NoMemory>
    ensures { IfOk result (λ left. left ≡ filter (λ op. not (takes named.now op)) ops.now) }
{
    let mut left = OpList::empty(alloc);
    for op in ops {
        if !named.takes(op) {
            left.push(op.copied(alloc)?)?;
        }
    }
    Ok(left)
}

// Takes what names such a path out of the commit at a place. At an event that is no commit it doesn't look.
fn leave_out_at(
    alloc: Global,
    events: &Events,
    named: &Named<'_>,
    plan: &mut Plan,
    place: usize,
) -> Result<(), NoMemory>
    requires place { place < length events.now.list }
    requires found { (event : _) → slice_get events.now.list place ≡ Some event →
        find_event (id_of event) plan.old.after ≡ Some event }
    ensures { (event : _) → slice_get events.now.list place ≡ Some event →
        OnOk result (plan.new ≡ record plan.old {
          after = changed (id_of event) (event_without (takes named.now)) plan.old.after;
        }) }
{
    let Some(id) = events.table().commit_at(place) else {
        return Ok(());
    };
    let left = ops_left(alloc, named, events.table().ops_at(place))?;
    plan.set_ops(id, left)
}

/// Takes what names a path that is taken out of all commits that name one. The others aren't looked at.
pub fn leave_out(
    alloc: Global,
    events: &Events,
    noted: &Noted<'_>,
    plan: &mut Plan,
) -> Result<(), NoMemory>
    requires whole { plan.old.after ≡ events.now.list }
    requires touched { noted.now.flags.touched.items
        ≡ map (λ e. list_any (takes noted.now.paths) (event_ops e)) events.now.list }
    ensures { OnOk result (plan.new ≡ record plan.old {
      after = map (event_without (takes noted.now.paths)) events.now.list;
    }) }
{
    for place in 0..events.count() {
        if noted.flags.touched[place] {
            leave_out_at(alloc, events, &noted.paths, plan, place)?;
        }
    }
    Ok(())
}
