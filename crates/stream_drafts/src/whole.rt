//! Events that lack nothing but a commit's aliases, which come at the end.
ghost use Rattle.std.specs.Prelude.{◌≡◌, ◌∷◌, List, ℕ, nat_eq, IfOk};
ghost use Rattle.std.specs.HashMap.{get};
ghost use Rattle.plain_model.specs.declared.event.PlainEvent.{PlainEvent};
ghost use Rattle.stream_grammar.specs.Known.{with_aliases, with_marks};
ghost use Rattle.stream_grammar.specs.Limits.{own_want};
ghost use Rattle.stream_drafts.specs.Aliased.{AreGrouped};
ghost use Rattle.stream_drafts.specs.Whole.{IsMarked, IsWhole, given_aliases};

use plain_model::{Copied, MarkList, NoMemory, PlainEvent, Shared};
use std::alloc::Global;
use std::collections::HashMap;
use std::marker::Model;

/// An event that is no blob or commit without a mark. As a commit it has no aliases yet.
#[derive(Drop)]
pub struct WholeEvent {
    event: Shared<PlainEvent>,
}

impl Model for WholeEvent {
    ghost use Rattle.plain_model.specs.declared.event.PlainEvent.{PlainEvent};
    ghost use Rattle.stream_drafts.specs.Whole.{IsWhole};

    ghost Value = { PlainEvent };

    ghost view = { λ w. w.event };

    ghost invariant = { λ w. IsWhole w.event };
}

// A commit with these aliases; another event as it is.
fn given_aliases(
    alloc: Global,
    event: &PlainEvent,
    marks: &MarkList,
) -> Result<PlainEvent, NoMemory>
    ensures { IfOk result (λ made. made ≡ given_aliases event.now marks.now) }
{
    let mut made = event.copied(alloc)?;
    let marks = marks.copied(alloc)?;
    if let PlainEvent::Commit { aliases, .. } = &mut made {
        *aliases = marks;
    }
    Ok(made)
}

impl WholeEvent {
    /// The event, which is shared from now on.
    pub fn new(alloc: Global, event: PlainEvent) -> Result<WholeEvent, NoMemory>
        requires { IsWhole event }
        ensures { IfOk result (λ made. made ≡ event) }
    {
        let event = Shared::new(alloc, event)?;
        Ok(WholeEvent { event })
    }

    pub fn as_ref(&self) -> &PlainEvent
        ensures value { result.now ≡ self.now }
        ensures whole { IsWhole self.now }
    {
        self.event.as_ref()
    }

    /// The event itself, or for a commit that has aliases a changed copy, which shares the large fields.
    pub fn with_aliases(
        self,
        alloc: Global,
        groups: &HashMap<u64, MarkList>,
    ) -> Result<Shared<PlainEvent>, NoMemory>
        ensures event { IfOk result (λ e. (aliases : List (ℕ × ℕ)) (last : ℕ) (events : List PlainEvent) →
            AreGrouped aliases (get nat_eq groups.now) →
            with_aliases aliases (with_marks last (self ∷ events))
            ≡ e ∷ with_aliases aliases (with_marks last events)) }
        ensures marked { IfOk result IsMarked }
        ensures last { own_want self ≡ 0 }
    {
        // Mostly no commit has any, and no event is looked at.
        if groups.is_empty() {
            return Ok(self.event);
        }
        let PlainEvent::Commit { id, .. } = self.event.as_ref() else {
            return Ok(self.event);
        };
        match groups.get(&id.number()) {
            Some(marks) => {
                let event = given_aliases(alloc, self.event.as_ref(), marks)?;
                Shared::new(alloc, event)
            }
            None => Ok(self.event),
        }
    }
}
