//! Whether commits can be pushed back.
ghost use Rattle.std.specs.Prelude.{◌≡◌, ◌<◌, Some, length, slice_get, suc, IfOk};
ghost use Rattle.squash_delete.specs.Backing.{AreCountedTo, own_fault};
ghost use Rattle.squash_laws.specs.Squash.{fault_before, first_back_fault};

use plain_model::{Fault, NoMemory, PlainEvent, Push};
use plan_steps::Selected;
use std::alloc::Global;

// Counts the commit at a place as a child of its first parent.
fn count_child(removal: &Selected, place: usize, counts: &mut [usize])
    requires place { place < length removal.now.events }
    requires counts { AreCountedTo removal.now.events place counts.old }
    ensures { AreCountedTo removal.now.events (suc place) counts.new }
{
    let _count = removal.count();
    if let PlainEvent::Commit { parents, .. } = removal.nth(place) {
        if let Some(parent) = parents.as_slice().first() {
            counts[removal.place(*parent)] += 1;
        }
    }
}

// For the place of each commit how many have it as their first parent.
fn count_children(alloc: Global, removal: &Selected) -> Result<Vec<usize>, NoMemory>
    ensures { IfOk result
        (λ counts. AreCountedTo removal.now.events (length removal.now.events) counts.items) }
{
    let mut counts = vec![in alloc; 0; removal.count()]?;
    for place in 0..removal.count() {
        count_child(removal, place, &mut counts);
    }
    Ok(counts)
}

// Why the commit at a place can't be pushed back, if it is removed.
fn fault_at(removal: &Selected, counts: &[usize], place: usize) -> Option<Fault>
    requires place { place < length removal.now.events }
    requires counts { AreCountedTo removal.now.events (length removal.now.events) counts.now }
    ensures { (event : _) → slice_get removal.now.events place ≡ Some event →
        result ≡ own_fault removal.now.set removal.now.events event }
{
    let _count = removal.count();
    if !removal.has_at(place) {
        return None;
    }
    match removal.nth(place) {
        PlainEvent::Commit { mark, parents, .. } => match parents.as_slice().first() {
            None => Some(Fault::PushbackRoot { mark: *mark }),
            Some(parent) if counts[removal.place(*parent)] > 1 => Some(Fault::PushbackFork {
                mark: *mark,
            }),
            Some(_) => None,
        },
        _ => None,
    }
}

// Why the first removed commit that can't be pushed back can't be.
fn back_fault(alloc: Global, removal: &Selected) -> Result<Option<Fault>, NoMemory>
    ensures { IfOk result
        (λ fault. fault ≡ first_back_fault removal.now.set removal.now.events removal.now.events) }
{
    let counts = count_children(alloc, removal)?;
    for place in 0..removal.count() {
        if let Some(fault) = fault_at(removal, &counts, place) {
            return Ok(Some(fault));
        }
    }
    Ok(None)
}

/// Why the history as it is refuses to be squashed so, if it does.
pub fn fault_before(
    alloc: Global,
    removal: &Selected,
    push: Push,
) -> Result<Option<Fault>, NoMemory>
    ensures { IfOk result (λ fault. fault ≡ fault_before push removal.now.set removal.now.events) }
{
    match push {
        Push::Back => back_fault(alloc, removal),
        Push::Forward | Push::Discard => Ok(None),
    }
}
