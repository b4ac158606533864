//! `?`: the neighbours of events.
ghost use Rattle.std.specs.Prelude.{
  ◌≡◌,
  ◌<◌,
  ◌∷◌,
  [],
  flat_map,
  length,
  map,
  slice_get,
  List,
  Some,
  IfOk,
};
ghost use Rattle.std.specs.List.{list_any};
ghost use Rattle.event_sets.specs.Around.{linked, puts_one};
ghost use Rattle.event_sets.specs.Bits.{Adds, bits_of};
ghost use Rattle.event_sets.specs.Once.{AreLive};
ghost use Rattle.event_sets.specs.Sets.{around, members, near_once, near_times};
ghost use Rattle.plain_model.specs.Lookups.{children_of, id_of, is_listed, op_blobs};
ghost use Rattle.plain_model.specs.declared.id.AnyId.{AnyId};
ghost use Rattle.plain_model.specs.declared.id.AnyId.TheVariants.{Commit};

use crate::bits::{is_set, no_bits, set_bit, set_commits};
use crate::set::EventSet;
use event_arena::Events;
use plain_model::{AnyId, CommitId, Content, FileOp, NoMemory, PlainEvent};
use std::alloc::Global;

// Sets the bits of the children of a commit.
pub(crate) fn set_children(events: &Events, commit: CommitId, bits: &mut Vec<bool>)
    requires { length bits.old.items ≡ length events.now.list }
    ensures count { length bits.new.items ≡ length bits.old.items }
    ensures adds { Adds events.now.list (map Commit (children_of commit events.now.list))
        bits.old.items bits.new.items }
{
    for child in events.children(commit) {
        set_bit(events, AnyId::Commit(child), bits);
    }
}

// Sets the bits of what an event is linked with.
fn set_linked(events: &Events, event: &PlainEvent, bits: &mut Vec<bool>)
    requires { length bits.old.items ≡ length events.now.list }
    ensures count { length bits.new.items ≡ length bits.old.items }
    ensures adds { Adds events.now.list (linked events.now.list event.now)
        bits.old.items bits.new.items }
{
    match event {
        PlainEvent::Commit { id, parents, .. } => {
            set_bit(events, AnyId::Commit(*id), bits);
            set_commits(events, parents.as_slice(), bits);
            set_children(events, *id, bits);
        }
        PlainEvent::Tag { id, target, .. } => {
            set_bit(events, AnyId::Tag(*id), bits);
            set_bit(events, AnyId::Commit(*target), bits);
        }
        PlainEvent::Reset { id, target, .. } => {
            set_bit(events, AnyId::Reset(*id), bits);
            if let Some(target) = target {
                set_bit(events, AnyId::Commit(*target), bits);
            }
        }
        PlainEvent::Blob { .. } => {}
        PlainEvent::Pass { id, .. } => set_bit(events, AnyId::Pass(*id), bits),
    }
}

// Sets the bits of what the events of a set are linked with.
fn links_of(alloc: Global, events: &Events, bits: &[bool]) -> Result<Vec<bool>, NoMemory>
    requires { length bits.now ≡ length events.now.list }
    ensures count { IfOk result (λ near. length near.items ≡ length events.now.list) }
    ensures links { IfOk result (λ near. (ids : List AnyId) →
        bits.now ≡ bits_of events.now.list ids → near.items ≡ bits_of events.now.list
        (flat_map (linked events.now.list) (members events.now.list ids))) }
{
    let mut near = no_bits(alloc, events)?;
    for place in 0..events.count() {
        if bits[place] {
            set_linked(events, events.nth(place), &mut near);
        }
    }
    Ok(near)
}

// Whether an operation puts a blob of a set at a path.
fn puts_blob(events: &Events, op: &FileOp, bits: &[bool]) -> bool
    requires { length bits.now ≡ length events.now.list }
    ensures { (ids : List AnyId) → bits.now ≡ bits_of events.now.list ids →
        AreLive events.now.list ids → result ≡ list_any (λ b. is_listed b ids) (op_blobs op.now) }
{
    match op {
        FileOp::Modify { content, .. } => match content {
            Content::Blob(blob) => is_set(events, AnyId::Blob(*blob), bits),
            Content::Object(_) => false,
        },
        _ => false,
    }
}

// Whether one of the operations does.
fn put_blobs(events: &Events, ops: &[FileOp], bits: &[bool]) -> bool
    requires { length bits.now ≡ length events.now.list }
    ensures { (ids : List AnyId) → bits.now ≡ bits_of events.now.list ids →
        AreLive events.now.list ids →
        result ≡ list_any (λ b. is_listed b ids) (flat_map op_blobs ops.now) }
{
    for op in ops {
        if puts_blob(events, op, bits) {
            return true;
        }
    }
    false
}

// Whether an event is a commit that puts a blob of a set at a path.
fn puts_one(events: &Events, event: &PlainEvent, bits: &[bool]) -> bool
    requires { length bits.now ≡ length events.now.list }
    ensures { (ids : List AnyId) → bits.now ≡ bits_of events.now.list ids →
        AreLive events.now.list ids → result ≡ puts_one ids event.now }
{
    match event {
        PlainEvent::Commit { ops, .. } => put_blobs(events, ops.as_slice(), bits),
        _ => false,
    }
}

// Whether the event at a place is linked with one of a set, or puts one.
fn is_near(events: &Events, place: usize, links: &[bool], bits: &[bool]) -> bool
    requires within { place < length events.now.list }
    requires links { length links.now ≡ length events.now.list }
    requires bits { length bits.now ≡ length events.now.list }
    ensures { (ids : List AnyId) → bits.now ≡ bits_of events.now.list ids →
        AreLive events.now.list ids → links.now ≡ bits_of events.now.list
        (flat_map (linked events.now.list) (members events.now.list ids)) →
        (event : _) → slice_get events.now.list place ≡ Some event → result ≡ is_listed
        (id_of event) (flat_map (around events.now.list) (members events.now.list ids)) }
{
    let _count = events.count();
    links[place] || puts_one(events, events.nth(place), bits)
}

// The bits of the neighbours.
fn near_bits(alloc: Global, events: &Events, bits: &[bool]) -> Result<Vec<bool>, NoMemory>
    requires { length bits.now ≡ length events.now.list }
    ensures count { IfOk result (λ near. length near.items ≡ length events.now.list) }
    ensures near { IfOk result (λ near. (ids : List AnyId) →
        bits.now ≡ bits_of events.now.list ids → AreLive events.now.list ids → near.items ≡ bits_of events.now.list
        (flat_map (around events.now.list) (members events.now.list ids))) }
{
    let links = links_of(alloc, events, bits)?;
    let mut near = Vec::with_capacity(alloc, links.len())?;
    for place in 0..events.count() {
        near.push(is_near(events, place, links.as_slice(), bits))?;
    }
    Ok(near)
}

impl<'e> EventSet<'e> {
    // Once.
    fn near_once(&self, alloc: Global) -> Result<EventSet<'e>, NoMemory>
        ensures events { IfOk result (λ set. set.events ≡ self.now.events) }
        ensures ids { IfOk result (λ set. set.ids ≡ near_once self.now.events self.now.ids) }
    {
        let bits = near_bits(alloc, self.events(), self.bits())?;
        Ok(EventSet::of_bits(self.events(), bits))
    }

    /// `a?`, so many times over: each commit with its parents and children, each tag and reset with its
    /// target, passed lines, and in place of each blob the commits that put it at a path.
    pub fn near(self, alloc: Global, times: u64) -> Result<EventSet<'e>, NoMemory>
        ensures events { IfOk result (λ set. set.events ≡ self.entry.events) }
        ensures ids { IfOk result (λ set. set.ids
            ≡ near_times self.entry.events times self.entry.ids) }
    {
        let mut set = self;
        for _ in 0..times {
            set = set.near_once(alloc)?;
        }
        Ok(set)
    }
}
