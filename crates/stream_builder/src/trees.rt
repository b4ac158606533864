//! The trees are folded where an operation needs them.
ghost use Rattle.std.specs.Prelude.{◌≡◌, ◌∷◌, ◌++◌, ℕ, List, [], IfOk, OnErr, OnOk, Option, Some, true};
ghost use Rattle.plain_model.specs.declared.event.PlainEvent.{PlainEvent};
ghost use Rattle.plain_model.specs.declared.operation.FileOp.{FileOp};
ghost use Rattle.plain_model.specs.declared.operation.FileOp.TheVariants as operation;
ghost use Rattle.plain_model.specs.Paths.{Bytes};
ghost use Rattle.stream_grammar.specs.Known.{has_source, next_id, with_event};
ghost use Rattle.plain_model.specs.Histories.{begun, nodes, tree};
ghost use Rattle.plain_model.specs.Trees.{Tree};
ghost use Rattle.stream_builder.specs.declared.known.OpenTree.TheVariants.{NotFolded};
ghost use Rattle.stream_builder.specs.Keeping.{AreEarlier};
ghost use Rattle.stream_builder.specs.Agreement.{
  HasAtMost,
  IsOpened,
  TreesAgree,
  open_tree,
};
ghost use Rattle.stream_builder.specs.Pushing.{
  Applies,
  CanApply,
  Pushes,
  is_folded,
  may_be_refused,
  most_after,
};

use crate::draft_trees::{KeptTrees, folded, tree_of};
use crate::fault::LineFault;
use crate::known::{OpenTree, Trees};
use path_tree::{ApplyFault, PathTree};
use plain_model::{CommitId, Copied, FileOp, MAX_PATHS, NoMemory, Path, Steps};
use std::alloc::Global;
use std::mem;
use stream_drafts::Drafts;

// Marks the steps of the operations that are read.
struct Reading;

fn paths_of(tree: &Option<PathTree>) -> u64
    ensures { HasAtMost result tree.now }
{
    match tree {
        Some(tree) => tree.len() as u64,
        None => 0,
    }
}

fn may_be_refused(most: u64, op: &FileOp) -> bool
    ensures { result ≡ may_be_refused most op.now }
{
    match op {
        FileOp::Modify { .. } => most >= MAX_PATHS,
        FileOp::Copy { .. } => true,
        FileOp::Rename { .. } => true,
        _ => false,
    }
}

fn most_after(most: u64, op: &FileOp) -> u64
    ensures { result ≡ most_after most op.now }
{
    match op {
        FileOp::Modify { .. } => most.saturating_add(1),
        _ => most,
    }
}

// A copy of the path to itself.
fn copy_to_itself(alloc: Global, path: &Path) -> Result<FileOp, NoMemory>
    ensures { IfOk result (λ op. op ≡ operation.Copy path.now path.now) }
{
    Ok(FileOp::Copy {
        source: path.copied(alloc)?,
        target: path.copied(alloc)?,
    })
}

// Whether the tree has the source of a copy of a path to itself, which a share of the tree is asked for.
fn has_source_of(tree: &PathTree, copy: &FileOp) -> Result<bool, NoMemory>
    ensures { IfOk result (λ there. (path : Bytes) → copy.now ≡ operation.Copy path path →
        there ≡ has_source path (Some tree.now)) }
{
    let mut steps: Steps<Reading> = Steps::new();
    let mut trial = tree.share()?;
    match trial.apply(copy, &mut steps) {
        Ok(()) | Err(ApplyFault::Limit { .. }) => Ok(true),
        Err(ApplyFault::MissingSource) => Ok(false),
        Err(ApplyFault::Memory) => Err(NoMemory),
    }
}

// Whether the tree has something at or below the path. What is below isn't listed, as it may be many paths: a copy of the
// path to itself is refused for its source exactly where nothing is there.
fn has_something(alloc: Global, tree: &PathTree, path: &Path) -> Result<bool, NoMemory>
    ensures { IfOk result (λ there. there ≡ has_source path.now (Some tree.now)) }
{
    if tree.get(path).is_some() {
        return Ok(true);
    }
    let copy = copy_to_itself(alloc, path)?;
    has_source_of(tree, &copy)
}

// Applies an operation to a tree, if it is there, and tells how many paths there are then. What is refused for its source is
// not reported: then there is no tree.
fn apply_to(tree: &mut Option<PathTree>, op: &FileOp) -> Result<u64, LineFault>
    ensures { Applies op.now tree.old result tree.new }
{
    let mut steps: Steps<Reading> = Steps::new();
    let Some(found) = tree else {
        return Ok(0);
    };
    match found.apply(op, &mut steps) {
        Ok(()) => Ok(found.len() as u64),
        Err(ApplyFault::Memory) => Err(LineFault::Memory),
        Err(ApplyFault::Limit { which, .. }) => Err(LineFault::Limit(which)),
        Err(ApplyFault::MissingSource) => {
            *tree = None;
            Ok(0)
        }
    }
}

impl Trees {
    /// Before the first event.
    pub fn new(alloc: Global) -> Trees
        ensures { TreesAgree result [] [] [] }
    {
        Trees {
            kept: KeptTrees::new(alloc),
            opened: OpenTree::NotFolded,
            most: 0,
        }
    }

    fn is_folded(&self) -> bool
        ensures { result ≡ is_folded self.now.opened }
    {
        matches!(self.opened, OpenTree::Folded(_))
    }

    // The tree on which a commit with these parents begins.
    fn begun(
        &mut self,
        alloc: Global,
        drafts: &Drafts,
        parents: &[CommitId],
    ) -> Result<Option<PathTree>, NoMemory>
        requires { AreEarlier drafts.now self.old.kept }
        ensures begun { IfOk result (λ made. made ≡ begun (tree drafts.now) parents.now) }
        ensures earlier { AreEarlier drafts.now self.new.kept }
        ensures same { (self.new.opened ≡ self.old.opened) × (self.new.most ≡ self.old.most) }
    {
        match parents {
            [] => Ok(Some(PathTree::new(alloc)?)),
            [first, ..] => tree_of(alloc, drafts, &mut self.kept, *first),
        }
    }

    /// Folds the tree of a commit with these parents and operations, if it isn't folded yet.
    pub fn fold(
        &mut self,
        alloc: Global,
        drafts: &Drafts,
        parents: &[CommitId],
        ops: &[FileOp],
    ) -> Result<(), NoMemory>
        requires { TreesAgree self.old drafts.now parents.now ops.now }
        ensures kept { TreesAgree self.new drafts.now parents.now ops.now }
        ensures folded { OnOk result (is_folded self.new.opened ≡ true) }
    {
        if self.is_folded() {
            return Ok(());
        }
        let base = self.begun(alloc, drafts, parents)?;
        let made = folded(ops, base)?;
        self.most = self.most.max(paths_of(&made));
        self.opened = OpenTree::Folded(made);
        Ok(())
    }

    /// The commit has these parents and operations from now on.
    pub fn restart(
        &mut self,
        alloc: Global,
        drafts: &Drafts,
        parents: &[CommitId],
        ops: &[FileOp],
    ) -> Result<(), NoMemory>
        requires { AreEarlier drafts.now self.old.kept }
        ensures ok { OnOk result ((p : List ℕ) → (o : List FileOp) → TreesAgree self.old drafts.now p o →
            TreesAgree self.new drafts.now parents.now ops.now) }
        ensures err { OnErr result ((p : List ℕ) → (o : List FileOp) → TreesAgree self.old drafts.now p o →
            TreesAgree self.new drafts.now p o) }
    {
        if ops.is_empty() {
            self.opened = OpenTree::NotFolded;
            return Ok(());
        }
        let base = self.begun(alloc, drafts, parents)?;
        let made = folded(ops, base)?;
        self.most = self.most.max(paths_of(&made));
        self.opened = OpenTree::Folded(made);
        Ok(())
    }

    /// A commit begins, or another event.
    pub fn forget(&mut self)
        ensures gone { self.new.opened ≡ NotFolded }
        ensures kept { (events : List PlainEvent) → (parents : List ℕ) → (ops : List FileOp) →
            (others : List ℕ) → TreesAgree self.old events parents ops → TreesAgree self.new events others [] }
    {
        self.opened = OpenTree::NotFolded;
    }

    /// The tree of the commit that was read, which is over.
    pub fn take(&mut self) -> OpenTree
        ensures { (events : List PlainEvent) → (parents : List ℕ) → (ops : List FileOp) →
            TreesAgree self.old events parents ops →
            TreesAgree self.new events [] [] × IsOpened result (open_tree events parents ops)
            × HasAtMost self.new.most (open_tree events parents ops) }
    {
        mem::replace(&mut self.opened, OpenTree::NotFolded)
    }

    /// A commit is after the other events, with its tree, if it was folded.
    pub fn keep(&mut self, commit: CommitId, tree: OpenTree)
        ensures { (events : List PlainEvent) → (e : PlainEvent) → (parents : List ℕ) →
            (ops : List FileOp) → TreesAgree self.old events [] [] →
            IsOpened tree (open_tree events parents ops) →
            HasAtMost self.old.most (open_tree events parents ops) →
            nodes (e ∷ []) ≡ record { id = commit; parents = parents; ops = ops } ∷ [] →
            commit ≡ next_id events → TreesAgree self.new (with_event events e) [] [] }
    {
        if let OpenTree::Folded(Some(tree)) = tree {
            self.kept.put(commit, tree);
        }
    }

    /// Whether the tree that was folded has something at or below the path.
    pub fn has(&self, alloc: Global, path: &Path) -> Result<bool, NoMemory>
        requires { is_folded self.now.opened ≡ true }
        ensures { IfOk result (λ there. (expected : Option Tree) → IsOpened self.now.opened expected →
            there ≡ has_source path.now expected) }
    {
        match &self.opened {
            OpenTree::Folded(Some(tree)) => has_something(alloc, tree, path),
            _ => Ok(false),
        }
    }

    // Applies an operation that can't be refused, or to the tree that was folded.
    fn apply(&mut self, op: &FileOp) -> Result<(), LineFault>
        ensures { (events : List PlainEvent) → (parents : List ℕ) → (ops : List FileOp) →
            TreesAgree self.old events parents ops → CanApply self.old op.now →
            Pushes events parents ops op.now result self.new }
    {
        match &mut self.opened {
            OpenTree::Folded(tree) => {
                let paths = apply_to(tree, op)?;
                self.most = self.most.max(paths);
            }
            OpenTree::NotFolded => {
                self.most = most_after(self.most, op);
            }
        }
        Ok(())
    }

    /// Puts one more operation after those of a commit with these parents, unless it passes a limit of trees.
    pub fn push(
        &mut self,
        alloc: Global,
        drafts: &Drafts,
        parents: &[CommitId],
        ops: &[FileOp],
        op: &FileOp,
    ) -> Result<(), LineFault>
        requires { TreesAgree self.old drafts.now parents.now ops.now }
        ensures { Pushes drafts.now parents.now ops.now op.now result self.new }
    {
        if may_be_refused(self.most, op) {
            self.fold(alloc, drafts, parents, ops)?;
        }
        self.apply(op)
    }
}
