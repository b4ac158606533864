//! The trees that are kept to go on from.
ghost use Rattle.std.specs.Prelude.{◌≡◌, List, Some, IfOk, nat_eq};
ghost use Rattle.std.specs.HashMap.{get};
ghost use Rattle.plain_model.specs.declared.event.PlainEvent.{PlainEvent};
ghost use Rattle.plain_model.specs.Histories.{tree};
ghost use Rattle.stream_builder.specs.Keeping.{AreEarlier, IsEarlier};

use path_tree::PathTree;
use plain_model::{CommitId, NoMemory};
use std::alloc::Global;
use std::collections::{HashMap, VecDeque};

/// So many trees are kept whatever they hold. (own)
const FEW_TREES: usize = 256;

/// How much the kept trees may weigh where there are more of them. (own)
const MOST_WEIGHT: u64 = 2_097_152;

/// What a tree weighs besides one for each path, which is about the most that it can have for itself. (own)
const LEAST_WEIGHT: u64 = 32;

fn weight_of(tree: &PathTree) -> u64 {
    (tree.len() as u64).saturating_add(LEAST_WEIGHT)
}

/// Trees of earlier commits, each found by its commit. They share their folders, so that one more costs what it has for
/// itself. Where they weigh too much, the one that was kept first goes.
#[derive(Drop)]
pub struct KeptTrees {
    by_commit: HashMap<u64, PathTree>,
    in_turn: VecDeque<CommitId>,
    weight: u64,
}

impl KeptTrees {
    /// No tree is kept.
    pub fn new(alloc: Global) -> KeptTrees
        ensures { (events : List PlainEvent) → AreEarlier events result }
    {
        KeptTrees {
            by_commit: HashMap::new(alloc),
            in_turn: VecDeque::new(alloc),
            weight: 0,
        }
    }

    /// A share of the tree of a commit, if it is kept.
    pub fn share(&self, commit: CommitId) -> Result<Option<PathTree>, NoMemory>
        ensures { IfOk result (λ made. made ≡ get nat_eq self.now.by_commit commit) }
    {
        match self.by_commit.get(&commit.number()) {
            Some(tree) => Ok(Some(tree.share()?)),
            None => Ok(None),
        }
    }

    // The tree of a commit is kept no longer.
    fn forget(&mut self, commit: CommitId)
        ensures turn { self.new.in_turn ≡ self.old.in_turn }
        ensures earlier { (events : List PlainEvent) → AreEarlier events self.old → AreEarlier events self.new }
    {
        if let Some(tree) = self.by_commit.remove(&commit.number()) {
            self.weight = self.weight.saturating_sub(weight_of(&tree));
        }
    }

    // Makes room for one tree more.
    fn make_room(&mut self)
        ensures { (events : List PlainEvent) → AreEarlier events self.old → AreEarlier events self.new }
    {
        while self.in_turn.len() >= FEW_TREES && self.weight > MOST_WEIGHT {
            match self.in_turn.pop_front() {
                Some(commit) => self.forget(commit),
                None => return,
            }
        }
    }

    /// Keeps the tree of a commit. Where memory runs out, it isn't kept.
    pub fn put(&mut self, commit: CommitId, tree: PathTree)
        ensures { (events : List PlainEvent) → AreEarlier events self.old →
            IsEarlier events commit (Some tree) → AreEarlier events self.new }
    {
        self.make_room();
        let weight = weight_of(&tree);
        if self.in_turn.push_back(commit).is_err() {
            return;
        }
        match self.by_commit.insert(commit.number(), tree) {
            Ok(_) => self.weight = self.weight.saturating_add(weight),
            Err(_) => {}
        }
    }

    /// Keeps a share of the tree of a commit, if it has one. Where memory runs out, it isn't kept.
    pub fn put_share(&mut self, commit: CommitId, tree: &Option<PathTree>)
        ensures { (events : List PlainEvent) → AreEarlier events self.old →
            IsEarlier events commit tree.now → AreEarlier events self.new }
    {
        if let Some(tree) = tree {
            if let Ok(share) = tree.share() {
                self.put(commit, share);
            }
        }
    }
}
