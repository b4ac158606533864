//! A history as an indexed graph.
ghost use Rattle.std.specs.Prelude.{
  ◌≡◌,
  ◌<◌,
  ◌≤◌,
  ◌^◌,
  [],
  None,
  Some,
  length,
  max,
  option_map,
  slice_get,
  IfOk,
  IfSome,
  IsTrue,
  OnOk,
};
ghost use Rattle.event_arena.specs.Needs.{need};
ghost use Rattle.event_arena.specs.Pointers.{HasPointers};
ghost use Rattle.event_arena.specs.Numbers.{numbered};
ghost use Rattle.event_arena.specs.Spent.{BringsNoneBack};
ghost use Rattle.plain_model.specs.Lookups.{
  AreIdsBelow,
  children_of,
  event_at,
  find_event,
  find_mark,
  id_of,
  next_mark,
  next_number,
  number_of,
  place_of,
};
ghost use Rattle.plain_model.specs.Soundness.{IsSound, are_distinct};
ghost use Rattle.plain_model.specs.declared.id.AnyId.TheVariants.{Commit};

use crate::index::fill;
use crate::links::{Children, Links};
use crate::measure::{greatest_mark, next_number};
use crate::mending::mend;
use crate::plan::Plan;
use crate::table::EventTable;
use plain_model::{AnyId, CommitId, EventList, IdList, MAX_MARK, Mark, NoMemory, PlainEvent};
use std::alloc::Global;
use std::marker::Model;

// So many events are put in order to link one commit to its children anew. Where there are more, all links are filled anew.
const MOST_NEAR: usize = 256;

/// A sound history. Contracts see its list of events, `next_id`, the number below which all ids are spent, `slots`,
/// how many places for events it keeps, and `room`, up to which a plan can be carried out without memory.
#[derive(Drop)]
pub struct Events {
    alloc: Global,
    table: EventTable,
    // In the order of the marks. Those of events that are gone may stay.
    marks: Vec<(u64, AnyId)>,
    links: Links,
    next_id: u64,
    room: usize,
    // Room for a few places, while links are mended.
    near: Vec<usize>,
}

impl Model for Events {
    ghost use Rattle.event_arena.specs.Graphs.{Graph};

    ghost Value = { Graph };

    ghost use Rattle.event_arena.specs.Indexed.{graph, IsIndexed};

    ghost view = { graph };

    ghost invariant = { IsIndexed };
}

impl Events {
    /// The history of a list. The ids below one above the greatest count as spent.
    pub fn from_plain(alloc: Global, list: EventList) -> Result<Events, NoMemory>
        requires sound { IsSound list }
        requires low { AreIdsBelow (2 ^ 62) list }
        ensures list { IfOk result (λ events. events.list ≡ list) }
        ensures next_id { IfOk result (λ events. events.next_id ≡ next_number list) }
        ensures low { IfOk result (λ events. events.next_id ≤ 2 ^ 62) }
        ensures slots { IfOk result (λ events. events.slots ≡ length list) }
        ensures room { IfOk result (λ events. need list ≤ events.room) }
    {
        let table = EventTable::from_list(alloc, list)?;
        let Some(room) = table.weight() else {
            return Err(NoMemory);
        };
        let mut marks = Vec::with_capacity(alloc, room)?;
        let mut links = Links::new(alloc);
        links.reserve(room, room)?;
        fill(&table, &mut marks, &mut links);
        let next_id = next_number(&table);
        let near = Vec::with_capacity(alloc, MOST_NEAR)?;
        Ok(Events {
            alloc,
            table,
            marks,
            links,
            next_id,
            room,
            near,
        })
    }

    /// The list itself, with copies of the events.
    pub fn plain(&self) -> Result<EventList, NoMemory>
        ensures { IfOk result (λ list. list ≡ self.now.list) }
    {
        self.table.to_list()
    }

    /// The events, to be looked up. Every history is sound.
    pub fn table(&self) -> &EventTable
        ensures table { result.now ≡ self.now.list }
        ensures sound { IsSound self.now.list }
    {
        &self.table
    }

    /// How many events there are. Every history is sound.
    pub fn count(&self) -> usize
        ensures count { result ≡ length self.now.list }
        ensures sound { IsSound self.now.list }
    {
        self.table.count()
    }

    /// The id of the event with the number, from 1.
    pub fn id_numbered(&self, number: usize) -> Option<AnyId>
        ensures { result ≡ event_at number self.now.list }
    {
        self.table.id_numbered(number)
    }

    /// The number of the event with the id, from 1.
    pub fn number_of(&self, id: AnyId) -> Option<usize>
        ensures { result ≡ number_of id self.now.list }
    {
        self.table.number_of(id)
    }

    /// The event with the id.
    pub fn event(&self, id: AnyId) -> Option<&PlainEvent>
        ensures { option_map (λ event. event.now) result ≡ find_event id self.now.list }
    {
        self.table.event(id)
    }

    /// The event at this place, from 0.
    pub fn nth(&self, place: usize) -> &PlainEvent
        requires { place < length self.now.list }
        ensures event { slice_get self.now.list place ≡ Some result.now }
        ensures found { find_event (id_of result.now) self.now.list ≡ Some result.now }
    {
        self.table.nth(place)
    }

    /// The event with the number, from 1. `None` exactly where the history has no such number.
    pub fn event_numbered(&self, number: u64) -> Option<&PlainEvent>
        ensures event { option_map (λ event. event.now) result ≡ numbered number self.now.list }
        ensures found { IfSome result
            (λ event. find_event (id_of event.now) self.now.list ≡ Some event.now) }
    {
        self.table.event_numbered(number)
    }

    /// How many events are before the one with the id.
    pub fn place(&self, id: AnyId) -> Option<usize>
        ensures place { result ≡ place_of id self.now.list }
        ensures within { IfSome result (λ place. place < length self.now.list) }
    {
        self.table.place(id)
    }

    /// The ids of all tags and resets, found without a look at other events. Others, which are gone, may be among them.
    pub fn tags_and_resets(&self) -> Result<IdList, NoMemory>
        ensures { IfOk result (λ ids. HasPointers ids self.now.list) }
    {
        self.table.tags_and_resets()
    }

    /// The id of the event with the mark.
    pub fn by_mark(&self, mark: Mark) -> Option<AnyId>
        ensures { result ≡ find_mark mark self.now.list }
    {
        let number = mark.number();
        match self
            .marks
            .binary_search_by_key(&number, |marked: &(u64, AnyId)| -> u64 { marked.0 })
        {
            Ok(at) => {
                // A mark may stay when its event has gone.
                if self.table.place(self.marks[at].1).is_some() {
                    Some(self.marks[at].1)
                } else {
                    None
                }
            }
            Err(_) => None,
        }
    }

    /// One above the greatest mark, or :1 where there is none. `None` exactly where the greatest is the last
    /// mark, :4294967295.
    pub fn fresh_mark(&self) -> Option<Mark>
        ensures { result ≡ next_mark self.now.list }
    {
        let greatest = greatest_mark(&self.table);
        if greatest == MAX_MARK {
            None
        } else {
            Mark::new(greatest + 1)
        }
    }

    /// The children of a commit, each once, in the order of the list; none where the id isn't there.
    pub fn children(&self, id: CommitId) -> Children<'_>
        ensures children { result ≡ children_of id self.now.list }
        ensures once { IsTrue (are_distinct result) }
        ensures absent { find_event (Commit id) self.now.list ≡ None → result ≡ [] }
    {
        match self.table.place(AnyId::Commit(id)) {
            Some(place) => self.links.children(place),
            None => self.links.none(),
        }
    }

    /// The earliest child of a commit.
    pub fn first_child(&self, id: CommitId) -> Option<CommitId>
        ensures { result ≡ slice_get (children_of id self.now.list) 0 }
    {
        self.children(id).next()
    }

    /// The number below which all ids are spent. Every id that is there is one of them.
    pub fn next_id(&self) -> u64
        ensures value { result ≡ self.now.next_id }
        ensures spent { AreIdsBelow self.now.next_id self.now.list }
    {
        self.next_id
    }

    /// How many places for events the history keeps. The place of an event that is gone stays, and serves a later one.
    pub fn slots(&self) -> usize
        ensures { result ≡ self.now.slots }
    {
        self.links.places()
    }

    /// An equal table over the same events.
    pub(crate) fn share(&self, alloc: Global) -> Result<EventTable, NoMemory>
        ensures table { IfOk result (λ table. table ≡ self.now.list) }
        ensures sound { IsSound self.now.list }
    {
        self.table.share(alloc)
    }

    /// Makes room for what a plan leaves, so that it can be carried out.
    pub fn reserve_for(&mut self, plan: &Plan) -> Result<(), NoMemory>
        ensures list { self.new.list ≡ self.old.list }
        ensures next_id { self.new.next_id ≡ self.old.next_id }
        ensures slots { self.new.slots ≡ self.old.slots }
        ensures room { self.old.room ≤ self.new.room }
        ensures ok { OnOk result (need plan.now.after ≤ self.new.room) }
    {
        let Some(room) = plan.weight() else {
            return Err(NoMemory);
        };
        if self.room < room {
            self.links.reserve(room, room)?;
            let more = room.saturating_sub(self.marks.len());
            self.marks.reserve(more)?;
            self.room = room;
        }
        Ok(())
    }

    /// Carries a plan out. It takes no memory and can't be refused.
    pub fn carry_out(&mut self, plan: Plan)
        requires before { plan.before ≡ self.old.list }
        requires made_at { plan.made_at ≡ self.old.next_id }
        requires sound { IsSound plan.after }
        requires room { need plan.after ≤ self.old.room }
        ensures list { self.new.list ≡ plan.after }
        ensures next_id { self.new.next_id ≡ plan.next }
        ensures slots { self.new.slots ≡ max self.old.slots (length plan.after) }
        ensures room { self.new.room ≡ self.old.room }

        // What is spent stays spent, and a spent id that isn't there never comes back: no look-up finds it in a later
        // state, though another event may have its place.
        ensures spent { self.old.next_id ≤ self.new.next_id }
        ensures none_back { BringsNoneBack self.old.next_id self.old.list self.new.list }
    {
        let (table, next_id, touched) = plan.into_after();
        if !mend(
            &self.table,
            &table,
            &touched,
            &mut self.near,
            &mut self.links,
        ) {
            fill(&table, &mut self.marks, &mut self.links);
        }
        self.table = table;
        self.next_id = next_id;
    }
}
