ghost use Rattle.std.specs.Prelude.{◌≡◌, IsSome, OnOk};
ghost use Rattle.edit_laws.specs.Passing.{IsWithinLimits};
ghost use Rattle.plain_model.specs.Lookups.{find_event};
ghost use Rattle.plain_model.specs.Soundness.{IsSound};
ghost use Rattle.plain_model.specs.declared.id.AnyId.TheVariants.{Commit};

use event_arena::{Events, Plan};
use graph_walk::{Scratch, expand_parents, is_ancestor};
use manifest_cache::Manifests;
use plain_model::{
    AnyId, BlobId, CommitId, IdList, Items, Lean, NoMemory, PlainEvent, Policy, Push, ResetId,
    TagId, Text,
};
use soundness_laws::{what_is_read_is_sound, what_is_read_passes_no_limit};
use split_reorder::split_at;
use squash_delete::{push_forward, squash};
use squash_laws::a_squash_keeps_the_limits;
use std::alloc::Global;
use std::test::*;
use stream_reader::read_stream;

// A root of two operations; two children of it, of which the first has an alias, and their merge; a tag of the merge and a
// reset to the second child. The ids are the places, from 1.
const FORK: &[u8] = b"blob
mark :1
data 3
one
commit main
mark :2
committer A <e> 2 +0000
data 0
M 644 :1 f
M 644 :1 g
commit main
mark :3
committer A <e> 3 +0000
data 0
from :2
alias
mark :30
to :3
commit main
mark :4
committer A <e> 4 +0000
data 0
from :2
commit main
mark :5
committer A <e> 5 +0000
data 0
from :3
merge :4
tag v1
mark :6
from :5
data 0
reset side
from :4
";

// Two merges of the same commits, a merge of those, and a child of it, of the ids 1 to 7.
const MERGES: &[u8] = b"commit b
mark :1
committer A <e> 1 +0000
data 0
commit b
mark :2
committer A <e> 2 +0000
data 0
from :1
commit b
mark :3
committer A <e> 3 +0000
data 0
from :1
commit b
mark :4
committer A <e> 4 +0000
data 0
from :2
merge :3
commit b
mark :5
committer A <e> 5 +0000
data 0
from :3
merge :2
commit b
mark :6
committer A <e> 6 +0000
data 0
from :4
merge :5
commit b
mark :7
committer A <e> 7 +0000
data 0
from :6
";

// The history of a stream.
fn history(alloc: Global, stream: &[u8]) -> Result<Events, Fail> {
    what_is_read_is_sound();
    what_is_read_passes_no_limit();
    match read_stream(alloc, stream) {
        Ok(list) => Ok(Events::from_plain(alloc, list)?),
        Err(_) => Err("no stream")?,
    }
}

fn commit_id(number: u64) -> AnyId
    ensures { result ≡ Commit number }
{
    AnyId::Commit(CommitId::new(number))
}

fn find(plan: &Plan, id: AnyId) -> Result<(), Fail>
    ensures { OnOk result (IsSome (find_event id plan.now.after)) }
{
    plan.event(id).ok_or("no such event")?;
    Ok(())
}

fn take_commit(plan: &mut Plan, number: u64) -> Result<(), Fail> {
    find(plan, commit_id(number))?;
    plan.remove(commit_id(number))?;
    Ok(())
}

fn ids(alloc: Global, plan: &Plan) -> Result<IdList, NoMemory> {
    let mut ids = Items::empty(alloc);
    for place in 0..plan.count() {
        ids.push(plan.nth(place).id())?;
    }
    Ok(ids)
}

// The ids of a plan that takes a commit away.
fn ids_without(alloc: Global, events: &Events, number: u64) -> Result<IdList, Fail> {
    let mut plan = Plan::new(alloc, events)?;
    take_commit(&mut plan, number)?;
    Ok(ids(alloc, &plan)?)
}

#[test]
fn one_event_is_taken_away(rt: HostRuntime) -> Result<(), Fail> {
    let events = history(rt.alloc(), FORK)?;
    let want = [
        AnyId::Blob(BlobId::new(1)),
        commit_id(2),
        commit_id(4),
        commit_id(5),
        AnyId::Tag(TagId::new(6)),
        AnyId::Reset(ResetId::new(7)),
    ];
    assert_eq!(rt;
        ids_without(rt.alloc(), &events, 3)?.as_slice(),
        want.as_slice()
    );
    Ok(())
}

fn weight(alloc: Global, events: &Events) -> Result<Option<usize>, NoMemory> {
    Ok(Plan::new(alloc, events)?.weight())
}

// Two for each commit, and its parents, operations and aliases; three for each other event.
#[test]
fn a_plan_is_weighed(rt: HostRuntime) -> Result<(), Fail> {
    let events = history(rt.alloc(), FORK)?;
    let want = Some(3 + 4 + 4 + 3 + 4 + 3 + 3);
    assert_eq!(rt; weight(rt.alloc(), &events)?, want);
    Ok(())
}

fn carry(events: &mut Events, plan: Plan) -> Result<(), Fail>
    requires before { plan.before ≡ events.old.list }
    requires made_at { plan.made_at ≡ events.old.next_id }
    requires sound { IsSound plan.after }
{
    events.reserve_for(&plan)?;
    events.carry_out(plan);
    Ok(())
}

fn delete(alloc: Global, events: &mut Events, id: AnyId) -> Result<(), Fail> {
    let mut manifests = Manifests::new(alloc)?;
    let how = Policy {
        push: Push::Discard,
        tags: Lean::Back,
    };
    match squash(alloc, events, &mut manifests, &[id], how) {
        Ok(plan) => carry(events, plan),
        Err(_) => Err("refused")?,
    }
}

// Splits a commit before its second operation.
fn split(alloc: Global, events: &mut Events, id: AnyId) -> Result<(), Fail> {
    if events.next_id() >= 1 << 63 {
        Err("no ids")?;
    }
    match split_at(alloc, events, &[id], 2) {
        Ok(plan) => carry(events, plan),
        Err(_) => Err("refused")?,
    }
}

// Whether there are so many slots and events, this is the next id, and this the third event.
fn are_at(events: &Events, numbers: (usize, usize, u64), third: AnyId) -> bool {
    let (slots, count, next) = numbers;
    events.slots() == slots
        && events.count() == count
        && events.next_id() == next
        && events.id_numbered(3) == Some(third)
}

fn is_gone(events: &Events, commit: u64) -> bool {
    events.event(commit_id(commit)).is_none() && events.number_of(commit_id(commit)).is_none()
}

fn is_first_child(events: &Events, parent: u64, child: u64) -> bool {
    events.first_child(CommitId::new(parent)) == Some(CommitId::new(child))
}

#[test]
fn a_slot_serves_a_later_event_and_an_id_never_comes_back(rt: HostRuntime) -> Result<(), Fail> {
    let alloc = rt.alloc();
    let mut events = history(alloc, FORK)?;
    delete(alloc, &mut events, commit_id(3))?;
    assert!(rt; are_at(&events, (7, 6, 8), commit_id(4)));
    split(alloc, &mut events, commit_id(2))?;
    assert!(rt; are_at(&events, (7, 7, 9), commit_id(8)));
    assert!(rt; is_gone(&events, 3));
    assert!(rt; is_first_child(&events, 8, 4));
    Ok(())
}

fn look_up(events: &Events, number: u64) -> Result<(), Fail>
    ensures { OnOk result (IsSome (find_event (Commit number) events.now.list)) }
{
    events.event(commit_id(number)).ok_or("no such commit")?;
    Ok(())
}

fn descends(alloc: Global, events: &Events, low: u64, high: u64) -> Result<bool, Fail> {
    look_up(events, low)?;
    look_up(events, high)?;
    let mut scratch = Scratch::new(alloc, events)?;
    let (low, high) = (CommitId::new(low), CommitId::new(high));
    Ok(is_ancestor(events, low, high, &mut scratch))
}

#[test]
fn a_merge_descends_from_both_sides(rt: HostRuntime) -> Result<(), Fail> {
    let events = history(rt.alloc(), MERGES)?;
    assert!(rt; descends(rt.alloc(), &events, 2, 5)?);
    assert!(rt; !descends(rt.alloc(), &events, 4, 5)?);
    Ok(())
}

#[test]
fn removed_merges_expand(rt: HostRuntime) -> Result<(), Fail> {
    let alloc = rt.alloc();
    let events = history(alloc, MERGES)?;
    look_up(&events, 7)?;
    let gone = Items::of(alloc, &[commit_id(4), commit_id(5), commit_id(6)])?;
    let parents = expand_parents(alloc, &events, &gone, CommitId::new(7))?;
    assert_eq!(rt;
        parents.as_slice(),
        [CommitId::new(2), CommitId::new(3)].as_slice()
    );
    Ok(())
}

// Pushes a commit forward in a plan.
fn pushed(alloc: Global, plan: Plan, commit: AnyId) -> Result<Plan, Fail>
    requires sound { IsSound plan.after }
    requires limits { IsWithinLimits plan.after }
{
    let mut plan = plan;
    match push_forward(alloc, &mut plan, &[commit], true, Lean::Forward) {
        Ok(()) => Ok(plan),
        Err(_) => Err("refused")?,
    }
}

// A plan that deletes a commit, and then pushes another one forward.
fn deleted_and_pushed(
    alloc: Global,
    events: &Events,
    gone: AnyId,
    commit: AnyId,
) -> Result<Plan, Fail> {
    let _count = events.count();
    a_squash_keeps_the_limits();
    let mut manifests = Manifests::new(alloc)?;
    let how = Policy {
        push: Push::Discard,
        tags: Lean::Back,
    };
    match squash(alloc, events, &mut manifests, &[gone], how) {
        Ok(plan) => pushed(alloc, plan, commit),
        Err(_) => Err("refused")?,
    }
}

fn put(out: &mut Text, label: &[u8]) -> Result<(), NoMemory> {
    out.push(b' ')?;
    out.push_all(label)
}

// The number of a commit, its parents, and how many operations it has; what a tag or a reset is on.
fn put_links(out: &mut Text, event: &PlainEvent) -> Result<(), NoMemory> {
    match event {
        PlainEvent::Commit {
            id,
            parents,
            ops,
            ..
        } => {
            out.push(b' ')?;
            out.push_number(id.number())?;
            for parent in parents.as_slice() {
                out.push(b'<')?;
                out.push_number(parent.number())?;
            }
            out.push(b'x')?;
            out.push_number(ops.as_slice().len() as u64)
        }
        PlainEvent::Tag { target, .. } => {
            put(out, b">")?;
            out.push_number(target.number())
        }
        PlainEvent::Reset {
            target: Some(target),
            ..
        } => {
            put(out, b">")?;
            out.push_number(target.number())
        }
        _ => Ok(()),
    }
}

fn links(alloc: Global, plan: &Plan) -> Result<Text, NoMemory> {
    let mut out = Items::empty(alloc);
    for place in 0..plan.count() {
        put_links(&mut out, plan.nth(place))?;
    }
    Ok(out)
}

// The merge gets the root for its first parent, and both its children take over what that had; the merge begins without
// files, for it keeps a parent.
#[test]
fn a_root_is_pushed_forward_after_a_deletion(rt: HostRuntime) -> Result<(), Fail> {
    let alloc = rt.alloc();
    let events = history(alloc, FORK)?;
    let plan = deleted_and_pushed(alloc, &events, commit_id(3), commit_id(2))?;
    let want: &[u8] = b" 4x2 5<4x3 >5 >4";
    assert_eq!(rt; links(alloc, &plan)?.as_slice(), want);
    Ok(())
}
