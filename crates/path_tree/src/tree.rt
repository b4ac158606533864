//! A tree of paths.
ghost use Rattle.std.specs.Prelude.{◌≡◌, ◌+◌, ◌-◌, ◌^◌, [], length, min, Ok, IfOk, IfErr, OnOk, OnErr};
ghost use Rattle.plain_model.specs.Trees.{apply, at, subtree, IsTree};
ghost use Rattle.path_tree.specs.Answers.{TellsOf};

use crate::fault::ApplyFault;
use crate::folder::Folder;
use crate::operations::{applied, counted_below, listed_below};
use history_laws::operations_keep_trees;
use plain_model::{Entry, EntryList, FileOp, Items, NoMemory, Path, Steps};
use std::alloc::Global;
use std::marker::Model;
use std::rc::Rc;

/// What is at each path of a tree. No path conflicts with another: none is a file and a folder.
/// (git-fast-import, file operations; the limits: own.)
#[derive(Drop)]
pub struct PathTree {
    alloc: Global,
    root: Rc<Folder>,
}

impl Model for PathTree {
    ghost use Rattle.plain_model.specs.Trees.{Tree};
    ghost use Rattle.history_laws.specs.SoundTrees.{IsSound};

    ghost Value = { Tree };

    ghost view = { λ t. t.root.value };

    ghost invariant = { λ t. IsSound t.root.value };
}

impl PathTree {
    /// The empty tree.
    pub fn new(alloc: Global) -> Result<PathTree, NoMemory>
        ensures { IfOk result (λ made. made ≡ []) }
    {
        let root = Rc::new(alloc, Folder::new(alloc))?;
        Ok(PathTree { alloc, root })
    }

    /// Applies an operation, or leaves the tree as it was. Applied or not, it counts as one step.
    pub fn apply<L>(&mut self, op: &FileOp, steps: &mut Steps<L>) -> Result<(), ApplyFault>
        ensures done { OnOk result (apply op.now self.old ≡ Ok self.new) }

        // A fault says out of memory, or the refusal that is expected.
        ensures refused { IfErr result (TellsOf (apply op.now self.old)) }
        ensures unchanged { OnErr result (self.new ≡ self.old) }
        ensures counted { steps.new ≡ min (steps.old + 1) (2 ^ 64 - 1) }
    {
        steps.tick();
        operations_keep_trees();
        applied(self.alloc, &mut self.root, op)
    }

    /// How many paths there are.
    pub fn len(&self) -> usize
        ensures { result ≡ length self.now }
    {
        self.root.count() as usize
    }

    /// What is at the path. It takes no memory.
    pub fn get(&self, path: &Path) -> Option<Entry>
        ensures { result ≡ at self.now path.now }
    {
        self.root.get(path.as_bytes())
    }

    /// All paths with what is there, in byte order of the paths.
    pub fn entries(&self) -> Result<EntryList, NoMemory>
        ensures all { IfOk result (λ list. list ≡ self.now) }
        ensures form { IsTree self.now }
    {
        let mut list = Items::empty(self.alloc);
        self.root.list(self.alloc, b"", &mut list)?;
        Ok(list)
    }

    /// The path and those below it, with what is there, in byte order of the paths.
    pub fn entries_below(&self, path: &Path) -> Result<EntryList, NoMemory>
        ensures { IfOk result (λ list. list ≡ subtree path.now self.now) }
    {
        listed_below(self.alloc, &self.root, path)
    }

    /// How many paths are at or below the path. It costs a look-up, however many there are.
    pub fn len_below(&self, path: &Path) -> Result<usize, NoMemory>
        ensures { IfOk result (λ count. count ≡ length (subtree path.now self.now)) }
    {
        let count = counted_below(self.alloc, &self.root, path)?;
        Ok(count as usize)
    }

    /// An equal tree. What is applied to the one leaves the other.
    pub fn share(&self) -> Result<PathTree, NoMemory>
        ensures { IfOk result (λ made. made ≡ self.now) }
    {
        let root = self.root.clone()?;
        Ok(PathTree {
            alloc: self.alloc,
            root,
        })
    }
}
