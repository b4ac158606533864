//! The trees with which later commits begin, with their images.
ghost use Rattle.std.specs.Prelude.{◌≡◌, ◌<◌, ◌⊎◌, None, Some, length, slice_get, IfOk, IfSome, IsSome};
ghost use Rattle.path_move_laws.specs.PathMaps.{image_of};
ghost use Rattle.path_moves.specs.Commits.{AreKept, IsKept, MayMoveOf};
ghost use Rattle.path_moves.specs.Pairs.{ArePaired};
ghost use Rattle.manifest_cache.specs.Kept.{AgreesWith};
ghost use Rattle.plain_model.specs.Histories.{begun, tree};
ghost use Rattle.plain_model.specs.Lookups.{find_event};
ghost use Rattle.plain_model.specs.Paths.{Bytes};
ghost use Rattle.plain_model.specs.declared.id.AnyId.TheVariants.{Commit};

use crate::pairs::Pair;
use crate::wholes::{Whole, whole_image};
use event_arena::Events;
use manifest_cache::Manifests;
use path_move_laws::PathMap;
use plain_model::{AnyId, CommitId, NoMemory, PlainEvent, Steps};
use std::alloc::Global;

// The steps of folding a tree, which nobody looks at.
struct Folded;

/// For the place of each commit its tree with the image, as long as a later commit begins with it, and how many do: the
/// last one takes both out, so that on a line of commits they are changed in place.
#[derive(Drop)]
pub struct Kept {
    pub pairs: Vec<Option<Pair>>,
    pub due: Vec<u32>,
}

// The place of the first parent.
fn parent_place(events: &Events, event: &PlainEvent) -> Option<usize>
    ensures { IfSome result (λ place. place < length events.now.list) }
{
    let parent = event.parents().first()?;
    events.place(AnyId::Commit(*parent))
}

// What is kept, shared, or taken out for the last one that is due.
fn lent(kept: &mut Option<Pair>, due: &mut u32) -> Result<Option<Pair>, NoMemory>
    ensures lent { IfOk result (λ found. found ≡ kept.old) }
    ensures left { (kept.new ≡ kept.old) ⊎ (kept.new ≡ None) }
{
    *due = due.saturating_sub(1);
    if *due == 0 {
        return Ok(kept.take());
    }
    match kept {
        Some(pair) => Ok(Some(pair.share()?)),
        None => Ok(None),
    }
}

// The tree of a commit, folded, with its image.
fn folded_pair(
    alloc: Global,
    events: &Events,
    manifests: &mut Manifests,
    map: &PathMap,
    commit: CommitId,
) -> Result<Pair, NoMemory>
    requires agrees { AgreesWith events.now.list manifests.old }
    requires there { IsSome (find_event (Commit commit) events.now.list) }
    requires may { MayMoveOf (image_of map.now) events.now.list commit }
    ensures tree { IfOk result (λ pair. tree events.now.list commit ≡ Some pair.tree) }
    ensures paired { IfOk result (λ pair. ArePaired (image_of map.now) pair.tree pair.image) }
    ensures agrees { AgreesWith events.now.list manifests.new }
{
    let mut steps: Steps<Folded> = Steps::new();
    let tree = manifests.get(events, commit, &mut steps)?.share()?;
    let entries = tree.entries()?;
    match whole_image(alloc, map, entries.as_slice())? {
        Whole::Image(image) => Ok(Pair { tree, image }),
        // Each tree so far has an image.
        _ => unreachable!(),
    }
}

impl Kept {
    /// Nothing is kept yet.
    pub fn new(alloc: Global, events: &Events) -> Result<Kept, NoMemory>
        ensures pairs { IfOk result
            (λ kept. (f : Bytes → Bytes) → AreKept f events.now.list kept.pairs.items) }
        ensures due { IfOk result (λ kept. length kept.due.items ≡ length events.now.list) }
    {
        let mut pairs: Vec<Option<Pair>> = Vec::with_capacity(alloc, events.count())?;
        let mut due: Vec<u32> = vec![in alloc; 0; events.count()]?;
        for place in 0..events.count() {
            pairs.push(None)?;
            if let Some(parent) = parent_place(events, events.nth(place)) {
                due[parent] = due[parent].saturating_add(1);
            }
        }
        Ok(Kept { pairs, due })
    }

    // The pair of a commit, if it is kept.
    fn lend(
        &mut self,
        map: &PathMap,
        events: &Events,
        commit: CommitId,
    ) -> Result<Option<Pair>, NoMemory>
        requires pairs { AreKept (image_of map.now) events.now.list self.old.pairs.items }
        requires due { length self.old.due.items ≡ length events.now.list }
        ensures pair { IfOk result (λ found. IfSome found (λ pair.
            (tree events.now.list commit ≡ Some pair.tree)
            × ArePaired (image_of map.now) pair.tree pair.image)) }
        ensures pairs { AreKept (image_of map.now) events.now.list self.new.pairs.items }
        ensures due { length self.new.due.items ≡ length events.now.list }
    {
        match events.place(AnyId::Commit(commit)) {
            Some(place) => lent(&mut self.pairs[place], &mut self.due[place]),
            None => Ok(None),
        }
    }

    /// The tree with which a commit with these parents begins, with its image.
    pub fn begun(
        &mut self,
        alloc: Global,
        events: &Events,
        manifests: &mut Manifests,
        map: &PathMap,
        parents: &[CommitId],
    ) -> Result<Pair, NoMemory>
        requires pairs { AreKept (image_of map.now) events.now.list self.old.pairs.items }
        requires due { length self.old.due.items ≡ length events.now.list }
        requires agrees { AgreesWith events.now.list manifests.old }
        requires first { (p : _) → slice_get parents.now 0 ≡ Some p →
            IsSome (find_event (Commit p) events.now.list)
            × MayMoveOf (image_of map.now) events.now.list p }
        ensures tree { IfOk result (λ pair. begun (tree events.now.list) parents.now ≡ Some pair.tree) }
        ensures paired { IfOk result (λ pair. ArePaired (image_of map.now) pair.tree pair.image) }
        ensures pairs { AreKept (image_of map.now) events.now.list self.new.pairs.items }
        ensures due { length self.new.due.items ≡ length events.now.list }
        ensures agrees { AgreesWith events.now.list manifests.new }
    {
        let Some(parent) = parents.first() else {
            return Pair::new(alloc);
        };
        match self.lend(map, events, *parent)? {
            Some(pair) => Ok(pair),
            None => folded_pair(alloc, events, manifests, map, *parent),
        }
    }

    /// Keeps the pair of the commit at a place, if a later commit begins with it.
    pub fn keep(&mut self, map: &PathMap, events: &Events, place: usize, pair: Pair)
        requires pairs { AreKept (image_of map.now) events.now.list self.old.pairs.items }
        requires due { length self.old.due.items ≡ length events.now.list }
        requires own { (e : _) → slice_get events.now.list place ≡ Some e →
            IsKept (image_of map.now) events.now.list e (Some pair) }
        requires place { place < length events.now.list }
        ensures pairs { AreKept (image_of map.now) events.now.list self.new.pairs.items }
        ensures due { self.new.due ≡ self.old.due }
    {
        let _count = events.count();
        if self.due[place] > 0 {
            self.pairs[place] = Some(pair);
        }
    }
}
