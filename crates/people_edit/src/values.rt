//! The plan by which a field of selected events is set.
ghost use Rattle.std.specs.Prelude.{◌≡◌, ◌<◌, Some, length, slice_get, IfOk, OnOk};
ghost use Rattle.event_arena.specs.Changes.{changed};
ghost use Rattle.event_arena.specs.Plans.{IsPlanOf};
ghost use Rattle.event_fields.specs.declared.field.Field.TheVariants as field;
ghost use Rattle.people_laws.specs.Values.{set_field_of, valued_in, with_text};
ghost use Rattle.plain_model.specs.Lookups.{find_event, id_of};

use event_arena::{Events, Plan};
use event_fields::{Field, FieldValue};
use people_laws::values_keep_soundness;
use plain_model::{AnyId, NoMemory, PlainEvent, Text};
use plan_steps::Flagged;
use std::alloc::Global;

// Gives a commit or a tag another comment.
fn comment(plan: &mut Plan, event: &PlainEvent, text: &Text) -> Result<(), NoMemory>
    requires { find_event (id_of event.now) plan.old.after ≡ Some event.now }
    ensures { OnOk result (plan.new ≡ record plan.old {
      after = changed (id_of event.now) (with_text field.Comment text.now) plan.old.after;
    }) }
{
    match event {
        PlainEvent::Commit { id, .. } => plan.set_comment(AnyId::Commit(*id), text.copy()?),
        PlainEvent::Tag { id, .. } => plan.set_comment(AnyId::Tag(*id), text.copy()?),
        _ => Ok(()),
    }
}

// Puts a commit or a reset on another branch.
fn branch(plan: &mut Plan, event: &PlainEvent, text: &Text) -> Result<(), NoMemory>
    requires { find_event (id_of event.now) plan.old.after ≡ Some event.now }
    ensures { OnOk result (plan.new ≡ record plan.old {
      after = changed (id_of event.now) (with_text field.Branch text.now) plan.old.after;
    }) }
{
    match event {
        PlainEvent::Commit { id, .. } => plan.set_label(AnyId::Commit(*id), text.copy()?),
        PlainEvent::Reset { id, .. } => plan.set_label(AnyId::Reset(*id), text.copy()?),
        _ => Ok(()),
    }
}

// Gives a tag another name.
fn name(plan: &mut Plan, event: &PlainEvent, text: &Text) -> Result<(), NoMemory>
    requires { find_event (id_of event.now) plan.old.after ≡ Some event.now }
    ensures { OnOk result (plan.new ≡ record plan.old {
      after = changed (id_of event.now) (with_text field.Name text.now) plan.old.after;
    }) }
{
    match event {
        PlainEvent::Tag { id, .. } => plan.set_label(AnyId::Tag(*id), text.copy()?),
        _ => Ok(()),
    }
}

// Gives an event the value, where it has the field.
fn give(plan: &mut Plan, event: &PlainEvent, value: &FieldValue) -> Result<(), NoMemory>
    requires { find_event (id_of event.now) plan.old.after ≡ Some event.now }
    ensures { OnOk result (plan.new ≡ record plan.old {
      after = changed (id_of event.now) (with_text value.now.field value.now.text) plan.old.after;
    }) }
{
    match value.field() {
        Field::Comment => comment(plan, event, value.text()),
        Field::Branch => branch(plan, event, value.text()),
        Field::Name => name(plan, event, value.text()),
    }
}

// Gives the event at a place the value, if it is one of the set.
fn give_at(
    flagged: &Flagged,
    plan: &mut Plan,
    event: &PlainEvent,
    place: usize,
    value: &FieldValue,
) -> Result<(), NoMemory>
    requires place { place < length flagged.now.events }
    requires event { slice_get flagged.now.events place ≡ Some event.now }
    requires found { find_event (id_of event.now) plan.old.after ≡ Some event.now }
    ensures { OnOk result (plan.new ≡ record plan.old {
      after = changed (id_of event.now) (valued_in value.now flagged.now.set) plan.old.after;
    }) }
{
    if flagged.has_at(place) {
        give(plan, event, value)
    } else {
        Ok(())
    }
}

// Gives all events of the set the value, in one pass.
fn give_all(flagged: &Flagged, plan: &mut Plan, value: &FieldValue) -> Result<(), NoMemory>
    requires { plan.old.after ≡ flagged.now.events }
    ensures { OnOk result (plan.new ≡ record plan.old {
      after = set_field_of value.now flagged.now.set flagged.now.events;
    }) }
{
    for place in 0..flagged.count() {
        give_at(flagged, plan, flagged.nth(place), place, value)?;
    }
    Ok(())
}

/// The plan by which the selected events that have the field get the value. Nothing is refused. It takes time for the selection
/// and for the history once. (reposurgeon manual, `setfield`; which fields: own.)
pub fn set_field(
    alloc: Global,
    events: &Events,
    set: &[AnyId],
    value: &FieldValue,
) -> Result<Plan, NoMemory>
    ensures plan { IfOk result (IsPlanOf events.now events.now.next_id) }
    ensures after { IfOk result (λ plan. plan.after ≡ set_field_of value.now set.now events.now.list) }
{
    let _count = events.count();
    let _text = value.text();
    values_keep_soundness();
    let flagged = Flagged::new(alloc, events, set)?;
    let mut plan = Plan::new(alloc, events)?;
    give_all(&flagged, &mut plan, value)?;
    Ok(plan)
}
