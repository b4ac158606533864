//! A change of a history that is made whole before it is carried out.
ghost use Rattle.std.specs.Prelude.{
  ◌≡◌,
  ◌≤◌,
  ◌<◌,
  ◌+◌,
  ◌^◌,
  ◌∷◌,
  ◌++◌,
  [],
  None,
  Some,
  length,
  option_map,
  slice_get,
  IfOk,
  IfSome,
  IsSome,
  IsTrue,
  OnErr,
  OnOk,
};
ghost use Rattle.event_arena.specs.Changes.{
  IsOrderOf,
  changed,
  has_comment,
  has_label,
  has_mark,
  has_signed,
  has_target,
  in_order,
  put_after,
  with_aliases,
  with_comment,
  with_field,
  with_label,
  with_mark,
  with_ops,
  with_parents,
  with_signed,
  with_target,
  without,
  without_all,
};
ghost use Rattle.history_laws.specs.Once.{AreDistinct};
ghost use Rattle.event_arena.specs.Plans.{leaving};
ghost use Rattle.event_arena.specs.Spent.{BringsNoneBack};
ghost use Rattle.event_arena.specs.Touched.{DifferAtMost};
ghost use Rattle.event_arena.specs.Weights.{weight_of};
ghost use Rattle.plain_model.specs.Lookups.{AreIdsBelow, find_event, id_number, id_of, place_of};
ghost use Rattle.plain_model.specs.Soundness.{IsSound};
ghost use Rattle.plain_model.specs.declared.id.AnyId.TheVariants.{Commit};

use crate::events::Events;
use crate::field::{Field, Role};
use crate::table::EventTable;
use crate::touched::Touched;
use plain_model::{
    AnyId, CommitId, IdList, Mark, MarkList, NoMemory, OpList, ParentList, PlainEvent, Signed, Text,
};
use std::alloc::Global;
use std::marker::Model;

/// A plan: the list of events before, the list after, and the ids that it has given. It shares the history's
/// events and copies only those that it changes. A refused change leaves it as it was.
#[derive(Drop)]
pub struct Plan {
    before: EventTable,
    after: EventTable,
    made_at: u64,
    next: u64,
    // Without these events both lists are the same to an index.
    touched: Touched,
}

impl Model for Plan {
    ghost use Rattle.event_arena.specs.Graphs.{Change};

    ghost Value = { Change };

    ghost use Rattle.event_arena.specs.Indexed.{change, IsPlanned};

    ghost view = { change };

    ghost invariant = { IsPlanned };
}

impl Plan {
    /// The plan that changes nothing.
    pub fn new(alloc: Global, events: &Events) -> Result<Plan, NoMemory>
        ensures { IfOk result (λ plan. plan ≡ leaving events.now events.now.list) }
    {
        let before = events.share(alloc)?;
        let after = before.renewed(alloc)?;
        let next = events.next_id();
        let touched = Touched::none(alloc)?;
        Ok(Plan {
            before,
            after,
            made_at: next,
            next,
            touched,
        })
    }

    /// The events before, to be looked up.
    pub fn before(&self) -> &EventTable
        ensures { result.now ≡ self.now.before }
    {
        &self.before
    }

    /// The events after, to be looked up.
    pub fn after(&self) -> &EventTable
        ensures { result.now ≡ self.now.after }
    {
        &self.after
    }

    /// How many events there are after. No two have one id.
    pub fn count(&self) -> usize
        ensures count { result ≡ length self.now.after }
        ensures once { AreDistinct self.now.after }
    {
        self.after.count()
    }

    /// The event with the id, as it is after.
    pub fn event(&self, id: AnyId) -> Option<&PlainEvent>
        ensures { option_map (λ event. event.now) result ≡ find_event id self.now.after }
    {
        self.after.event(id)
    }

    /// The event at this place after, from 0.
    pub fn nth(&self, place: usize) -> &PlainEvent
        requires { place < length self.now.after }
        ensures event { slice_get self.now.after place ≡ Some result.now }
        ensures found { find_event (id_of result.now) self.now.after ≡ Some result.now }
    {
        self.after.nth(place)
    }

    /// How many events are after before the one with the id.
    pub fn place(&self, id: AnyId) -> Option<usize>
        ensures place { result ≡ place_of id self.now.after }
        ensures within { IfSome result (λ place. place < length self.now.after) }
    {
        self.after.place(id)
    }

    /// The event at this place before, from 0.
    pub fn old_nth(&self, place: usize) -> &PlainEvent
        requires { place < length self.now.before }
        ensures event { slice_get self.now.before place ≡ Some result.now }
        ensures found { find_event (id_of result.now) self.now.before ≡ Some result.now }
    {
        self.before.nth(place)
    }

    /// How many events there were before. No two had one id, and the history was sound.
    pub fn old_count(&self) -> usize
        ensures count { result ≡ length self.now.before }
        ensures once { AreDistinct self.now.before }
        ensures sound { IsSound self.now.before }
    {
        self.before.count()
    }

    /// The event with the id, as it was before.
    pub fn old_event(&self, id: AnyId) -> Option<&PlainEvent>
        ensures { option_map (λ event. event.now) result ≡ find_event id self.now.before }
    {
        self.before.event(id)
    }

    /// No less than the events weigh after, which each change keeps up: no fewer than all their parents, operations and
    /// aliases together. `None` where no such number is known below 2^64.
    pub fn weight(&self) -> Option<usize>
        ensures { IfSome result (λ most. weight_of self.now.after ≤ most) }
    {
        self.after.weight()
    }

    pub(crate) fn into_after(self) -> (EventTable, u64, Touched)
        ensures after { result.0 ≡ self.after }
        ensures next { result.1 ≡ self.next }
        ensures later { self.made_at ≤ self.next }
        ensures spent { AreIdsBelow self.next self.after }
        ensures none_back { BringsNoneBack self.made_at self.before self.after }
        ensures touched { DifferAtMost result.2 self.before self.after }
    {
        (self.after, self.next, self.touched)
    }

    /// A number that was never an id's in this history. The plan gives each once.
    pub fn unused(&mut self) -> u64
        requires { self.old.next < 2 ^ 63 }
        ensures number { result ≡ self.old.next }
        ensures unspent { self.old.made_at ≤ result }
        ensures plan { self.new ≡ record self.old { next = self.old.next + 1 } }
    {
        let number = self.next;
        self.next = number + 1;
        number
    }

    /// Puts an event at the end, under an id that `unused` has given.
    pub fn append(&mut self, event: PlainEvent) -> Result<(), NoMemory>
        requires unspent { self.old.made_at ≤ id_number (id_of event) }
        requires given { id_number (id_of event) < self.old.next }
        requires unknown { find_event (id_of event) self.old.after ≡ None }
        ensures ok { OnOk result
            (self.new ≡ record self.old { after = self.old.after ++ event ∷ [] }) }
        ensures err { OnErr result (self.new ≡ self.old) }
    {
        let id = event.id();
        self.after.append(event)?;
        self.touched.add(id);
        Ok(())
    }

    /// Puts an event right after the one with the id, under an id that `unused` has given. The later ones
    /// move down, which costs a move of each.
    pub fn insert_after(&mut self, id: AnyId, event: PlainEvent) -> Result<(), NoMemory>
        requires there { IsSome (find_event id self.old.after) }
        requires unspent { self.old.made_at ≤ id_number (id_of event) }
        requires given { id_number (id_of event) < self.old.next }
        requires unknown { find_event (id_of event) self.old.after ≡ None }
        ensures ok { OnOk result
            (self.new ≡ record self.old { after = put_after id event self.old.after }) }
        ensures err { OnErr result (self.new ≡ self.old) }
    {
        let new = event.id();
        self.after.insert_after(id, event)?;
        self.touched.add(new);
        Ok(())
    }

    /// Takes the event with the id away. The later ones move up, which costs a move of each: take many away
    /// by one call of `remove_all`.
    pub fn remove(&mut self, id: AnyId) -> Result<(), NoMemory>
        requires { IsSome (find_event id self.old.after) }
        ensures ok { OnOk result
            (self.new ≡ record self.old { after = without id self.old.after }) }
        ensures err { OnErr result (self.new ≡ self.old) }
    {
        // By reference, since it is used twice.
        let own = &id;
        self.after.remove(*own)?;
        self.touched.add(*own);
        Ok(())
    }

    /// Takes away the events with these ids, in one pass over the list. Ids that aren't there are passed by.
    pub fn remove_all(&mut self, ids: &IdList) -> Result<(), NoMemory>
        ensures ok { OnOk result
            (self.new ≡ record self.old { after = without_all ids.now self.old.after }) }
        ensures err { OnErr result (self.new ≡ self.old) }
    {
        self.after.remove_all(ids.as_slice())?;
        self.touched.add_all(ids.as_slice());
        Ok(())
    }

    /// Puts the events in another order, in one pass.
    pub fn set_order(&mut self, order: IdList) -> Result<(), NoMemory>
        requires { IsOrderOf order self.old.after }
        ensures ok { OnOk result
            (self.new ≡ record self.old { after = in_order order self.old.after }) }
        ensures err { OnErr result (self.new ≡ self.old) }
    {
        self.after.set_order(order.as_slice())?;
        self.touched.give_up();
        Ok(())
    }

    // Puts a value into a field of the event with the id.
    fn set(&mut self, id: AnyId, field: Field) -> Result<(), NoMemory>
        requires { IsSome (find_event id self.old.after) }
        ensures ok { OnOk result
            (self.new ≡ record self.old { after = changed id (with_field field) self.old.after }) }
        ensures err { OnErr result (self.new ≡ self.old) }
    {
        // By reference, since it is used twice.
        let own = &id;
        let is_indexed = field.is_indexed();
        self.after.set(*own, field)?;
        if is_indexed {
            self.touched.add(*own);
        }
        Ok(())
    }

    /// Gives a commit other parents.
    pub fn set_parents(&mut self, id: CommitId, parents: ParentList) -> Result<(), NoMemory>
        requires { IsSome (find_event (Commit id) self.old.after) }
        ensures ok { OnOk result (self.new ≡ record self.old {
          after = changed (Commit id) (with_parents parents) self.old.after;
        }) }
        ensures err { OnErr result (self.new ≡ self.old) }
    {
        self.set(AnyId::Commit(id), Field::Parents(parents))
    }

    /// Gives a commit other operations.
    pub fn set_ops(&mut self, id: CommitId, ops: OpList) -> Result<(), NoMemory>
        requires { IsSome (find_event (Commit id) self.old.after) }
        ensures ok { OnOk result (self.new ≡ record self.old {
          after = changed (Commit id) (with_ops ops) self.old.after;
        }) }
        ensures err { OnErr result (self.new ≡ self.old) }
    {
        self.set(AnyId::Commit(id), Field::Ops(ops))
    }

    /// Gives a blob, a commit or a tag that has a mark another.
    pub fn set_mark(&mut self, id: AnyId, mark: Mark) -> Result<(), NoMemory>
        requires there { IsSome (find_event id self.old.after) }
        requires field { IfSome (find_event id self.old.after) (λ event. IsTrue (has_mark event)) }
        ensures ok { OnOk result (self.new ≡ record self.old {
          after = changed id (with_mark mark) self.old.after;
        }) }
        ensures err { OnErr result (self.new ≡ self.old) }
    {
        self.set(id, Field::Mark(mark))
    }

    /// Gives a commit other aliases.
    pub fn set_aliases(&mut self, id: CommitId, aliases: MarkList) -> Result<(), NoMemory>
        requires { IsSome (find_event (Commit id) self.old.after) }
        ensures ok { OnOk result (self.new ≡ record self.old {
          after = changed (Commit id) (with_aliases aliases) self.old.after;
        }) }
        ensures err { OnErr result (self.new ≡ self.old) }
    {
        self.set(AnyId::Commit(id), Field::Aliases(aliases))
    }

    /// Puts a commit or a reset on another branch, or gives a tag another name.
    pub fn set_label(&mut self, id: AnyId, label: Text) -> Result<(), NoMemory>
        requires there { IsSome (find_event id self.old.after) }
        requires field { IsTrue (has_label id) }
        ensures ok { OnOk result (self.new ≡ record self.old {
          after = changed id (with_label label) self.old.after;
        }) }
        ensures err { OnErr result (self.new ≡ self.old) }
    {
        self.set(id, Field::Label(label))
    }

    /// Sets a tag or a reset to another commit.
    pub fn set_target(&mut self, id: AnyId, target: CommitId) -> Result<(), NoMemory>
        requires there { IsSome (find_event id self.old.after) }
        requires field { IsTrue (has_target id) }
        ensures ok { OnOk result (self.new ≡ record self.old {
          after = changed id (with_target target) self.old.after;
        }) }
        ensures err { OnErr result (self.new ≡ self.old) }
    {
        self.set(id, Field::Target(target))
    }

    /// Gives a commit or a tag another comment.
    pub fn set_comment(&mut self, id: AnyId, comment: Text) -> Result<(), NoMemory>
        requires there { IsSome (find_event id self.old.after) }
        requires field { IsTrue (has_comment id) }
        ensures ok { OnOk result (self.new ≡ record self.old {
          after = changed id (with_comment comment) self.old.after;
        }) }
        ensures err { OnErr result (self.new ≡ self.old) }
    {
        self.set(id, Field::Comment(comment))
    }

    /// Gives a commit another author or committer, or a tag another tagger.
    pub fn set_signed(&mut self, id: AnyId, which: Role, signed: Signed) -> Result<(), NoMemory>
        requires there { IsSome (find_event id self.old.after) }
        requires field { IsTrue (has_signed which id) }
        ensures ok { OnOk result (self.new ≡ record self.old {
          after = changed id (with_signed which signed) self.old.after;
        }) }
        ensures err { OnErr result (self.new ≡ self.old) }
    {
        self.set(id, Field::Signed(which, signed))
    }
}
