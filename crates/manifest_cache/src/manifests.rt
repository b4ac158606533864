//! The trees that are kept.
ghost use Rattle.std.specs.Prelude.{◌≡◌, ◌+◌, ◌≤◌, ℕ, [], Some, length, IfOk, IsSome, OnOk, nat_eq};
ghost use Rattle.std.specs.List.{IsDistinct};
ghost use Rattle.std.specs.Map.{keys_of};
ghost use Rattle.plain_model.specs.Faults.{Returns};
ghost use Rattle.plain_model.specs.Histories.{IsLinkedPast, past, tree};
ghost use Rattle.plain_model.specs.Lookups.{find_event};
ghost use Rattle.plain_model.specs.Soundness.{IsCommitOf};
ghost use Rattle.plain_model.specs.declared.id.AnyId.TheVariants.{Commit};
ghost use Rattle.edit_laws.specs.Checking.{tree_check};
ghost use Rattle.manifest_cache.specs.Following.{Follows};
ghost use Rattle.manifest_cache.specs.Kept.{AgreesWith, is_kept, ops_to_fold};

use crate::checking::check;
use crate::following::follow;
use crate::using::{keep, kept_tree};
use crate::walk::Trees;
use event_arena::{Events, Plan};
use lru::LruCache;
use path_tree::PathTree;
use plain_model::{CommitId, Halt, MAX_KEPT_TREES, NoMemory, Steps};
use std::alloc::Global;
use std::marker::Model;
use std::num::NonZeroUsize;

/// Trees of commits of a history, the last used ones: 64 at most. Contracts see a list of commits with their trees,
/// the last used first. (own)
#[derive(Drop)]
pub struct Manifests {
    alloc: Global,
    trees: Trees,
}

impl Model for Manifests {
    ghost use Rattle.std.specs.Prelude.{◌≡◌};
    ghost use Rattle.edit_laws.specs.Checking.{tree_check};
    ghost use Rattle.manifest_cache.specs.Following.{Follows};
    ghost use Rattle.manifest_cache.specs.Kept.{Kept};

    ghost Value = { Kept };

    ghost view = { λ m. m.trees.entries };

    ghost invariant = { λ m. m.trees.cap ≡ 64 };
}

impl Manifests {
    ghost use Rattle.std.specs.Borrow.{sem};
    ghost use Rattle.manifest_cache.specs.Lending.{Uses};

    /// No tree is kept.
    pub fn new(alloc: Global) -> Result<Manifests, NoMemory>
        ensures { IfOk result (λ made. made ≡ []) }
    {
        let most = NonZeroUsize::new(MAX_KEPT_TREES as usize).unwrap();
        let trees = LruCache::sparse(alloc, most)?;
        Ok(Manifests { alloc, trees })
    }

    /// How many trees are kept. No commit is kept twice.
    pub fn len(&self) -> usize
        ensures count { result ≡ length self.now }
        ensures few { result ≤ MAX_KEPT_TREES }
        ensures once { IsDistinct nat_eq (keys_of self.now) }
    {
        self.trees.len()
    }

    /// Whether the tree of the commit is kept. It takes no memory.
    pub fn kept(&self, id: CommitId) -> bool
        ensures { result ≡ is_kept self.now id }
    {
        self.trees.contains(&id.number())
    }

    /// The tree of a commit, which is kept from then on. It is folded from the nearest kept tree on the commit's line
    /// of first parents, and each operation that is applied counts as a step. (git-fast-import, `from`.)
    pub fn get<L>(
        &mut self,
        events: &Events,
        id: CommitId,
        steps: &mut Steps<L>,
    ) -> Result<&PathTree, NoMemory>
        requires agrees { AgreesWith events.now.list self.old }
        requires live { IsSome (find_event (Commit id) events.now.list) }
        ensures* kept { sem 𝓛 (Uses self.entry events.now.list id result) }
        ensures tree { IfOk result (λ t. tree events.now.list id ≡ Some t.now) }
        ensures counted { steps.new ≤ steps.old + ops_to_fold self.old events.now.list id }
    {
        keep(self.alloc, &mut self.trees, events, id, steps)?;
        Ok(kept_tree(&self.trees, id))
    }

    /// The tree check on the list after a plan: whether each commit has a tree there. A fault is that of the first
    /// commit, in the order of the list, that has a refused operation, and of its first such operation:
    /// `MissingSource`, or `Limit` with `Paths` or `PathBytes`. Only the events from the first on that the plan changes
    /// are looked at. It leaves what is kept. (own)
    pub fn check(&mut self, plan: &Plan) -> Result<(), Halt>
        requires agrees { AgreesWith plan.now.before self.old }
        requires earlier { IsLinkedPast (past plan.now.after) }
        ensures checked { Returns (λ done. done) result (tree_check plan.now.after) }
        ensures trees { OnOk result
            ((c : ℕ) → IsCommitOf plan.now.after c → IsSome (tree plan.now.after c)) }
        ensures same { self.new ≡ self.old }
    {
        check(self.alloc, &self.trees, plan)
    }

    /// Keeps the trees of the commits whose line of first parents has the same commits with the same operations after
    /// the plan as before it. Each tree that is kept then was kept before. It takes no memory. (own)
    pub fn follow(&mut self, plan: &Plan)
        requires { AgreesWith plan.now.before self.old }
        ensures { Follows plan.now.before plan.now.after self.old self.new }
    {
        follow(&mut self.trees, plan);
    }
}
