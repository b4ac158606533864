//! Blobs that nothing names any more.
ghost use Rattle.std.specs.Prelude.{
  ◌≡◌,
  ◌<◌,
  ◌∷◌,
  ◌++◌,
  [],
  Some,
  false,
  filter,
  flat_map,
  if◌then◌else◌,
  length,
  map,
  option_to_list,
  slice_get,
  slice_index_or,
  true,
  IfOk,
  OnErr,
  OnOk,
};
ghost use Rattle.edit_laws.specs.Sweeping.{is_left_over, swept};
ghost use Rattle.event_arena.specs.Changes.{without_all};
ghost use Rattle.plain_model.specs.Lookups.{id_of, is_listed, op_blobs};
ghost use Rattle.plan_steps.specs.Flags.{
  AreCandidates,
  FlagsAdd,
  FlagsAll,
  FlagsIds,
  FlagsNamed,
  FlagsSome,
  KeepNames,
  OthersKeepNames,
  event_blobs,
  has_flag,
  is_unflagged,
};

use crate::selection::Selected;
use event_arena::{EventTable, Plan};
use plain_model::{AnyId, Content, FileOp, IdList, NoMemory, PlainEvent};
use std::alloc::Global;

// The blob that an operation names.
fn blob_of(op: &FileOp) -> Option<AnyId>
    ensures { option_to_list result ≡ op_blobs op.now }
{
    match op {
        FileOp::Modify {
            content: Content::Blob(blob),
            ..
        } => Some(AnyId::Blob(*blob)),
        _ => None,
    }
}

/// Flags the blob that an operation names, where the list has it.
pub fn flag_blob(table: &EventTable, op: &FileOp, flags: &mut [bool])
    requires { length flags.old ≡ length table.now }
    ensures { FlagsAdd table.now (op_blobs op.now) flags.old flags.new }
{
    let _count = table.count();
    if let Some(id) = blob_of(op) {
        if let Some(place) = table.place(id) {
            flags[place] = true;
        }
    }
}

/// Flags the blobs that operations name, where the list after has them.
pub fn flag_blobs(plan: &Plan, ops: &[FileOp], flags: &mut [bool])
    requires { length flags.old ≡ length plan.now.after }
    ensures { FlagsAdd plan.now.after (flat_map op_blobs ops.now) flags.old flags.new }
{
    for op in ops {
        flag_blob(plan.after(), op, flags);
    }
}

// Flags for the blobs that were named before.
fn named_before(alloc: Global, plan: &Plan) -> Result<Vec<bool>, NoMemory>
    ensures { IfOk result (λ flags. FlagsNamed plan.now.after plan.now.before flags.items) }
{
    let mut flags = vec![in alloc; false; plan.count()]?;
    let old = plan.before();
    for place in 0..plan.old_count() {
        flag_blobs(plan, old.ops_at(place), &mut flags);
    }
    Ok(flags)
}

// Flags for the blobs that operations of removed commits named before.
fn named_by_removed(alloc: Global, removal: &Selected, plan: &Plan) -> Result<Vec<bool>, NoMemory>
    ensures { IfOk result (λ flags. FlagsNamed plan.now.after
        (filter (λ event. is_listed (id_of event) removal.now.set) removal.now.events) flags.items) }
{
    let mut flags = vec![in alloc; false; plan.count()]?;
    let count = removal.count();
    let mut place = removal.next_near(0);
    while place < count {
        if removal.has_at(place) {
            flag_blobs(plan, removal.nth(place).ops(), &mut flags);
        }
        place = removal.next_near(place + 1);
    }
    Ok(flags)
}

// Flags the blobs that operations of an event name after, if it is there.
fn flag_event(plan: &Plan, id: AnyId, flags: &mut [bool])
    requires { FlagsSome plan.now.after flags.old }
    ensures { FlagsSome plan.now.after flags.new }
{
    let _count = plan.count();
    if let Some(event) = plan.event(id) {
        flag_blobs(plan, event.ops(), flags);
    }
}

// Flags for blobs that operations of near events name after. Others name some as well.
fn named_near(alloc: Global, removal: &Selected, plan: &Plan) -> Result<Vec<bool>, NoMemory>
    ensures { IfOk result (λ flags. FlagsSome plan.now.after flags.items) }
{
    let mut flags = vec![in alloc; false; plan.count()]?;
    let count = removal.count();
    let mut place = removal.next_near(0);
    while place < count {
        flag_event(plan, removal.nth(place).id(), &mut flags);
        place = removal.next_near(place + 1);
    }
    Ok(flags)
}

// Whether the blobs that operations name have flags, where the list after has them.
fn are_flagged(plan: &Plan, ops: &[FileOp], flags: &[bool]) -> bool
    requires { length flags.now ≡ length plan.now.after }
    ensures { result ≡ true → FlagsIds plan.now.after (flat_map op_blobs ops.now) flags.now }
{
    let _count = plan.count();
    for op in ops {
        if let Some(id) = blob_of(op) {
            if let Some(place) = plan.place(id) {
                if !flags[place] {
                    return false;
                }
            }
        }
    }
    true
}

// Whether the blobs that operations of removed commits named have flags, where the list after has them.
fn are_all_flagged(removal: &Selected, plan: &Plan, flags: &[bool]) -> bool
    requires { length flags.now ≡ length plan.now.after }
    ensures { result ≡ true → FlagsAll plan.now.after
        (filter (λ event. is_listed (id_of event) removal.now.set) removal.now.events) flags.now }
{
    let count = removal.count();
    let mut place = removal.next_near(0);
    while place < count {
        if removal.has_at(place) && !are_flagged(plan, removal.nth(place).ops(), flags) {
            return false;
        }
        place = removal.next_near(place + 1);
    }
    true
}

/// Flags for the blobs that are named after.
pub fn named_after(alloc: Global, plan: &Plan) -> Result<Vec<bool>, NoMemory>
    ensures { IfOk result (λ flags. FlagsNamed plan.now.after plan.now.after flags.items) }
{
    let mut flags = vec![in alloc; false; plan.count()]?;
    for place in 0..plan.count() {
        flag_blobs(plan, plan.after().ops_at(place), &mut flags);
    }
    Ok(flags)
}

// The id of the event at a place, if it is a blob that was named before, and isn't any more.
fn over_at(plan: &Plan, before: &[bool], after: &[bool], place: usize) -> Option<AnyId>
    requires within { place < length plan.now.after }
    requires before { AreCandidates plan.now.before plan.now.after before.now }
    requires after { FlagsNamed plan.now.after plan.now.after after.now }
    ensures { (event : _) → slice_get plan.now.after place ≡ Some event → option_to_list result
        ≡ (if is_left_over plan.now.before plan.now.after event then id_of event ∷ [] else []) }
{
    if !before[place] || after[place] {
        return None;
    }
    match plan.nth(place) {
        PlainEvent::Blob { id, .. } => Some(AnyId::Blob(*id)),
        _ => None,
    }
}

// The ids of the blobs that were named before, and aren't any more; they are some of those with a flag.
fn left_over(alloc: Global, plan: &Plan, before: &[bool]) -> Result<IdList, NoMemory>
    requires { AreCandidates plan.now.before plan.now.after before.now }
    ensures { IfOk result (λ ids. ids
        ≡ map id_of (filter (is_left_over plan.now.before plan.now.after) plan.now.after)) }
{
    let after = named_after(alloc, plan)?;
    let mut ids = IdList::new(alloc)?;
    for place in 0..plan.count() {
        if let Some(id) = over_at(plan, before, &after, place) {
            ids.push(id)?;
        }
    }
    Ok(ids)
}

// Takes away the events with these ids, in one pass, if there are any.
fn take_away(plan: &mut Plan, ids: &IdList) -> Result<(), NoMemory>
    ensures ok { OnOk result (plan.new ≡ record plan.old { after = without_all ids.now plan.old.after }) }
    ensures err { OnErr result (plan.new ≡ plan.old) }
{
    if ids.as_slice().is_empty() {
        return Ok(());
    }
    plan.remove_all(ids)
}

// Takes away those of the blobs with a flag that were named before, and aren't any more.
fn sweep_some(alloc: Global, plan: &mut Plan, before: &[bool]) -> Result<(), NoMemory>
    requires { AreCandidates plan.old.before plan.old.after before.now }
    ensures swept { OnOk result (plan.new ≡ record plan.old {
      after = swept plan.old.before plan.old.after;
    }) }
    ensures err { OnErr result (plan.new ≡ plan.old) }
{
    let _count = plan.count();
    let ids = left_over(alloc, plan, before)?;
    take_away(plan, &ids)
}

/// Takes away each blob that some operation named before and none names after, in one pass over each list.
pub fn sweep(alloc: Global, plan: &mut Plan) -> Result<(), NoMemory>
    ensures swept { OnOk result (plan.new ≡ record plan.old {
      after = swept plan.old.before plan.old.after;
    }) }
    ensures err { OnErr result (plan.new ≡ plan.old) }
{
    let before = named_before(alloc, plan)?;
    sweep_some(alloc, plan, &before)
}

/// The same, where events that aren't removed keep what they name. Only blobs that removed commits named can be left over,
/// and mostly the events near them name those still; else all are looked at.
pub fn sweep_removed(alloc: Global, removal: &Selected, plan: &mut Plan) -> Result<(), NoMemory>
    requires before { plan.old.before ≡ removal.now.events }
    requires kept { KeepNames removal.now.set removal.now.events plan.old.after }
    ensures swept { OnOk result (plan.new ≡ record plan.old {
      after = swept plan.old.before plan.old.after;
    }) }
    ensures err { OnErr result (plan.new ≡ plan.old) }
{
    let near = named_near(alloc, removal, plan)?;
    if are_all_flagged(removal, plan, &near) {
        return Ok(());
    }
    let before = named_by_removed(alloc, removal, plan)?;
    sweep_some(alloc, plan, &before)
}

// Whether the list has an event with the id, which has no flag.
fn is_unflagged(table: &EventTable, id: &AnyId, flags: &[bool]) -> bool
    requires { length flags.now ≡ length table.now }
    ensures { result ≡ is_unflagged flags.now table.now id.now }
{
    let _count = table.count();
    match table.place(*id) {
        Some(place) => !flags[place],
        None => false,
    }
}

// Puts the blobs that operations name, and that have no flag, behind others.
fn push_unflagged(
    table: &EventTable,
    ops: &[FileOp],
    flags: &[bool],
    ids: &mut IdList,
) -> Result<(), NoMemory>
    requires { length flags.now ≡ length table.now }
    ensures { OnOk result (ids.new ≡ ids.old
        ++ filter (is_unflagged flags.now table.now) (flat_map op_blobs ops.now)) }
{
    for op in ops {
        if let Some(id) = blob_of(op) {
            if is_unflagged(table, &id, flags) {
                ids.push(id)?;
            }
        }
    }
    Ok(())
}

// The blobs that touched events named, and that have no flag.
fn touched_unflagged(
    alloc: Global,
    plan: &Plan,
    touched: &[bool],
    flags: &[bool],
) -> Result<IdList, NoMemory>
    requires touched { length touched.now ≡ length plan.now.before }
    requires flags { length flags.now ≡ length plan.now.before }
    ensures { IfOk result (λ ids. ids ≡ filter (is_unflagged flags.now plan.now.before)
        (flat_map event_blobs (filter (has_flag touched.now plan.now.before) plan.now.before))) }
{
    let mut ids = IdList::new(alloc)?;
    let old = plan.before();
    for place in 0..plan.old_count() {
        if touched[place] {
            push_unflagged(old, old.ops_at(place), flags, &mut ids)?;
        }
    }
    Ok(ids)
}

/// The same, where an edit has touched the events before that have a flag in `touched`, and the others keep what they name.
/// Those before that are named after have a flag in `named`. Only what touched events named is looked at.
pub fn sweep_touched(
    alloc: Global,
    plan: &mut Plan,
    touched: &[bool],
    named: &[bool],
) -> Result<(), NoMemory>
    requires touched { length touched.now ≡ length plan.old.before }
    requires named { FlagsNamed plan.old.before plan.old.after named.now }
    requires kept { OthersKeepNames (has_flag touched.now plan.old.before) plan.old.before plan.old.after }
    ensures swept { OnOk result (plan.new ≡ record plan.old {
      after = swept plan.old.before plan.old.after;
    }) }
    ensures err { OnErr result (plan.new ≡ plan.old) }
{
    let _count = plan.old_count();
    let ids = touched_unflagged(alloc, plan, touched, named)?;
    take_away(plan, &ids)
}
