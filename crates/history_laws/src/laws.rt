//! Laws of trees. A caller has a law by a call of its function.
ghost use Rattle.std.specs.Prelude.{◌≡◌, ℕ, [], Some, IfOk, IsTrue};
ghost use Rattle.plain_model.specs.declared.operation.FileOp.{FileOp};
ghost use Rattle.plain_model.specs.Histories.{
  Past,
  IsLinkedPast,
  IsSoundPast,
  folded,
  knows,
  tree_in,
};
ghost use Rattle.plain_model.specs.Trees.{Tree, IsTree, apply};
ghost use Rattle.history_laws.specs.FirstParents.{first_line, ops_along};

/// An operation that isn't refused makes a tree of a tree: in byte order, each path once, and no file
/// where another path wants a folder.
pub fn operations_keep_trees()
    ensures { (op : FileOp) (tree : Tree) → IsTree tree → IfOk (apply op tree) IsTree }
{}

/// A commit's tree is made by the operations along its line of first parents alone. Other parents and
/// other commits have no part in it.
pub fn trees_come_from_first_parents()
    ensures linked { (past : Past) → IsLinkedPast past → (c : ℕ) → IsTrue (knows past c) →
        tree_in past c ≡ folded (ops_along (first_line past c)) (Some []) }

    // A past in which each commit has a tree is such a past.
    ensures sound { (past : Past) → IsSoundPast past → IsLinkedPast past }
{}
