//! New names that may not be given.
ghost use Rattle.std.specs.Prelude.{◌≡◌, ◌∷◌, [], IfOk, if◌then◌else◌};
ghost use Rattle.graft_laws.specs.Faults.{name_fault};
ghost use Rattle.graft_laws.specs.Joining.{new_name, new_names};
ghost use Rattle.graft_laws.specs.Names.{below, prefixed_branch};

use crate::joining::Join;
use crate::names::{prefixed_branch, prefixed_tag};
use event_arena::Events;
use plain_model::{Fault, NoMemory, PlainEvent, Text};
use std::alloc::Global;

// The fault of a new name, if it is in use.
fn fault_of<J: Join>(how: &J, name: Text) -> Option<Fault>
    ensures { result ≡ name_fault (J.clashing how.now) (name ∷ []) }
{
    if how.clashes(name.as_slice()) {
        Some(Fault::NameTaken { name })
    } else {
        None
    }
}

// The fault of a branch, if it is put under the prefix.
fn branch_fault<J: Join>(alloc: Global, how: &J, branch: &[u8]) -> Result<Option<Fault>, NoMemory>
    ensures { IfOk result (λ fault. fault ≡ name_fault (J.clashing how.now)
        (if (J.joining how.now).is_taken branch.now
        then prefixed_branch (J.joining how.now).prefix branch.now ∷ [] else [])) }
{
    if !how.is_taken(branch) {
        return Ok(None);
    }
    let name = prefixed_branch(alloc, how.prefix(), branch)?;
    Ok(fault_of(how, name))
}

// The fault of a tag's name, if it is put under the prefix.
fn tag_fault<J: Join>(alloc: Global, how: &J, tag: &[u8]) -> Result<Option<Fault>, NoMemory>
    ensures { IfOk result (λ fault. fault ≡ name_fault (J.clashing how.now)
        (if (J.joining how.now).is_taken tag.now
        then below (J.joining how.now).prefix tag.now ∷ [] else [])) }
{
    if !how.is_taken(tag) {
        return Ok(None);
    }
    let name = prefixed_tag(alloc, how.prefix(), tag)?;
    Ok(fault_of(how, name))
}

// The fault of the new name of an event, if it gets one.
fn event_fault<J: Join>(
    alloc: Global,
    how: &J,
    event: &PlainEvent,
) -> Result<Option<Fault>, NoMemory>
    ensures { IfOk result (λ fault. fault
        ≡ name_fault (J.clashing how.now) (new_name (J.joining how.now) event.now)) }
{
    match event {
        PlainEvent::Commit { branch, .. } => branch_fault(alloc, how, branch.as_slice()),
        PlainEvent::Reset { branch, .. } => branch_fault(alloc, how, branch.as_slice()),
        PlainEvent::Tag { name, .. } => tag_fault(alloc, how, name.as_slice()),
        PlainEvent::Blob { .. } => Ok(None),
        PlainEvent::Pass { .. } => Ok(None),
    }
}

/// The fault of the first new name, in the order of a part's events, that is in use.
pub fn name_fault<J: Join>(alloc: Global, how: &J, part: &Events) -> Result<Option<Fault>, NoMemory>
    ensures { IfOk result (λ fault. fault
        ≡ name_fault (J.clashing how.now) (new_names (J.joining how.now) part.now.list)) }
{
    for place in 0..part.count() {
        if let Some(fault) = event_fault(alloc, how, part.nth(place))? {
            return Ok(Some(fault));
        }
    }
    Ok(None)
}
