//! The events of some kinds.
ghost use Rattle.std.specs.Prelude.{◌≡◌, IfOk, length, nat_lt, ◌==◌};
ghost use Rattle.event_sets.specs.Kinds.{is_of};
ghost use Rattle.event_sets.specs.Sets.{passing};
ghost use Rattle.plain_model.specs.Lookups.{children_of};

use crate::set::EventSet;
use event_arena::Events;
use plain_model::{CommitId, NoMemory, PlainEvent};
use selection_parser::KindSet;
use std::alloc::Global;

// Whether a commit has no child.
fn is_head(events: &Events, commit: CommitId) -> bool
    ensures { result ≡ length (children_of commit events.now.list) == 0 }
{
    events.children(commit).next().is_none()
}

// Whether it has several.
fn is_fork(events: &Events, commit: CommitId) -> bool
    ensures { result ≡ nat_lt 1 (length (children_of commit events.now.list)) }
{
    let mut children = events.children(commit);
    children.next().is_some() && children.next().is_some()
}

// Whether an event is of one of the kinds.
#[tactic(auto, unfolding(crate::specs::Kinds::is_of))]
fn is_of(events: &Events, kinds: KindSet, event: &PlainEvent) -> bool
    ensures { result ≡ is_of events.now.list kinds event.now }
{
    match event {
        PlainEvent::Blob { .. } => kinds.blobs,
        PlainEvent::Commit {
            id,
            parents,
            ops,
            ..
        } => {
            let parent_count = parents.as_slice().len();
            let op_count = ops.as_slice().len();
            kinds.commits
                | (kinds.heads & is_head(events, *id))
                | (kinds.roots & (parent_count == 0))
                | (kinds.merges & (parent_count > 1))
                | (kinds.forks & is_fork(events, *id))
                | (kinds.empties & (op_count == 0))
        }
        PlainEvent::Tag { .. } => kinds.tags,
        PlainEvent::Reset { .. } => kinds.resets,
        PlainEvent::Pass { .. } => kinds.passes,
    }
}

impl<'e> EventSet<'e> {
    /// The events that are of one of the kinds, ascending.
    pub fn of_kinds(
        alloc: Global,
        events: &'e Events,
        kinds: KindSet,
    ) -> Result<EventSet<'e>, NoMemory>
        ensures events { IfOk result (λ set. set.events ≡ events.now.list) }
        ensures ids { IfOk result (λ set. set.ids
            ≡ passing (is_of events.now.list kinds) events.now.list) }
    {
        let mut bits = Vec::with_capacity(alloc, events.count())?;
        for place in 0..events.count() {
            bits.push(is_of(events, kinds, events.nth(place)))?;
        }
        Ok(EventSet::of_bits(events, bits))
    }
}
