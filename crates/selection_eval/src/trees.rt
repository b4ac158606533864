//! The events at paths of whole trees.
ghost use Rattle.std.specs.Prelude.{◌≡◌, ◌||◌, flat_map, length, map, IfOk, IsSome, OnOk, Some};
ghost use Rattle.event_sets.specs.Bits.{Adds};
ghost use Rattle.manifest_cache.specs.Kept.{AgreesWith};
ghost use Rattle.plain_model.specs.Histories.{tree};
ghost use Rattle.plain_model.specs.Lookups.{find_event, id_of, is_listed};
ghost use Rattle.plain_model.specs.declared.id.AnyId.TheVariants.{Commit};
ghost use Rattle.selection_eval.specs.Paths.{blobs_at, has_path, in_trees, tree_of};

use crate::paths::{PathTest, mark_at, no_bits};
use event_arena::Events;
use event_sets::EventSet;
use manifest_cache::Manifests;
use plain_model::{CommitId, Entry, EntryList, NoMemory, Path, PlainEvent, Steps};
use std::alloc::Global;

// Marks the steps of a look into trees.
struct Looking;

// All paths of a commit's tree.
fn entries_of(
    events: &Events,
    manifests: &mut Manifests,
    commit: CommitId,
) -> Result<EntryList, NoMemory>
    requires agrees { AgreesWith events.now.list manifests.old }
    requires live { IsSome (find_event (Commit commit) events.now.list) }
    ensures tree { IfOk result (λ entries. tree events.now.list commit ≡ Some entries) }
    ensures agrees { AgreesWith events.now.list manifests.new }
{
    let mut steps: Steps<Looking> = Steps::new();
    let tree = manifests.get(events, commit, &mut steps)?;
    tree.entries()
}

// Sets the bits of the blobs at paths that pass; and tells whether there is such a path.
fn mark_entries<T: PathTest>(
    events: &Events,
    entries: &[(Path, Entry)],
    test: &mut T,
    bits: &mut Vec<bool>,
) -> bool
    requires { length bits.old.items ≡ length events.now.list }
    ensures has { result ≡ has_path (T.test test.old) (Some entries.now) }
    ensures count { length bits.new.items ≡ length bits.old.items }
    ensures adds { Adds events.now.list (blobs_at (T.test test.old) (Some entries.now))
        bits.old.items bits.new.items }
    ensures same { T.test test.new ≡ T.test test.old }
{
    let mut has = false;
    for entry in entries {
        has |= mark_at(events, &entry.0, entry.1.content, test, bits);
    }
    has
}

// The same for an event, which has a tree only if it is a commit.
fn mark_tree<T: PathTest>(
    events: &Events,
    event: &PlainEvent,
    manifests: &mut Manifests,
    test: &mut T,
    bits: &mut Vec<bool>,
) -> Result<bool, NoMemory>
    requires agrees { AgreesWith events.now.list manifests.old }
    requires live { IsSome (find_event (id_of event.now) events.now.list) }
    requires count { length bits.old.items ≡ length events.now.list }
    ensures has { IfOk result (λ has.
        has ≡ has_path (T.test test.old) (tree_of events.now.list event.now)) }
    ensures count { length bits.new.items ≡ length bits.old.items }
    ensures adds { OnOk result (Adds events.now.list
        (blobs_at (T.test test.old) (tree_of events.now.list event.now))
        bits.old.items bits.new.items) }
    ensures same { T.test test.new ≡ T.test test.old }
    ensures agrees { AgreesWith events.now.list manifests.new }
{
    match event {
        PlainEvent::Commit { id, .. } => {
            let entries = entries_of(events, manifests, *id)?;
            Ok(mark_entries(events, entries.as_slice(), test, bits))
        }
        _ => Ok(false),
    }
}

// For each event whether it is at a path that passes, in some tree.
fn marks_in_trees<T: PathTest>(
    alloc: Global,
    events: &Events,
    manifests: &mut Manifests,
    test: &mut T,
) -> Result<Vec<bool>, NoMemory>
    requires { AgreesWith events.now.list manifests.old }
    ensures marks { IfOk result (λ bits. bits.items ≡ map (λ e.
        has_path (T.test test.old) (tree_of events.now.list e) || is_listed (id_of e)
        (flat_map (λ e. blobs_at (T.test test.old) (tree_of events.now.list e)) events.now.list))
        events.now.list) }
    ensures same { T.test test.new ≡ T.test test.old }
    ensures agrees { AgreesWith events.now.list manifests.new }
{
    let mut bits = no_bits(alloc, events)?;
    for place in 0..events.count() {
        let has = mark_tree(events, events.nth(place), manifests, test, &mut bits)?;
        if has {
            bits[place] = true;
        }
    }
    Ok(bits)
}

/// The commits whose tree has a path that passes, and the blobs that stand at such a path of some
/// tree, ascending.
pub fn in_trees<'e, T: PathTest>(
    alloc: Global,
    events: &'e Events,
    manifests: &mut Manifests,
    test: &mut T,
) -> Result<EventSet<'e>, NoMemory>
    requires { AgreesWith events.now.list manifests.old }
    ensures events { IfOk result (λ set. set.events ≡ events.now.list) }
    ensures ids { IfOk result (λ set. set.ids ≡ in_trees (T.test test.old) events.now.list) }
    ensures same { T.test test.new ≡ T.test test.old }
    ensures agrees { AgreesWith events.now.list manifests.new }
{
    let bits = marks_in_trees(alloc, events, manifests, test)?;
    Ok(EventSet::of_bits(events, bits))
}
