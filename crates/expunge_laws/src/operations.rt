//! Laws of replaced operations, by which code makes them. Each function's contract is one, and its body is empty.
ghost use Rattle.std.specs.Prelude.{◌≡◌, ◌||◌, ◌++◌, ◌∷◌, [], Bool, List, Ok, IsTrue, IsFalse};
ghost use Rattle.plain_model.specs.declared.operation.FileOp.{FileOp};
ghost use Rattle.plain_model.specs.declared.operation.FileOp.TheVariants.{Copy, Rename};
ghost use Rattle.plain_model.specs.Paths.{Bytes, do_conflict, is_at_or_below, is_below, is_in_the_way};
ghost use Rattle.plain_model.specs.Trees.{IsTree, Tree, apply, apply_all, at, has, moved, subtree};
ghost use Rattle.expunge_laws.specs.Near.{copied_near, renamed_near};
ghost use Rattle.expunge_laws.specs.Replaced.{replaced, replaced_all, restricted, rewritten};

/// The operations of a commit are replaced one after another, each between the old tree before it and the old tree
/// after it; and what is in its place does to the tree without the matched paths what it did to the tree.
pub fn operations_are_replaced_in_turn()
    ensures turn { (matched : Bytes → Bool) (ops : List FileOp) (op : FileOp)
        (old before after : Tree) → apply_all ops old ≡ Ok before → apply op before ≡ Ok after →
        replaced_all matched (ops ++ op ∷ []) old
        ≡ replaced_all matched ops old ++ replaced matched op before after }
    ensures step { (matched : Bytes → Bool) (op : FileOp) (before after : Tree) → IsTree before →
        apply op before ≡ Ok after →
        apply_all (replaced matched op before after) (restricted matched before)
        ≡ Ok (restricted matched after) }
{}

/// Of the paths that a tree had, a copy leaves out none but what is in the way of its target, and a rename none but
/// that and its source. What it moves is at its new path, and all else is as it was.
pub fn copies_and_renames_change_what_they_move()
    ensures copy_goes { (source target : Bytes) (old new : Tree) →
        apply (Copy source target) old ≡ Ok new → (q : Bytes) → IsTrue (has old q) →
        IsFalse (has new q) → IsTrue (is_in_the_way target q) }
    ensures copy_puts { (source target : Bytes) (old new : Tree) →
        apply (Copy source target) old ≡ Ok new → (q : Bytes) →
        IsTrue (has (moved source target (subtree source old)) q) →
        at new q ≡ at (moved source target (subtree source old)) q }
    ensures copy_leaves { (source target : Bytes) (old new : Tree) →
        apply (Copy source target) old ≡ Ok new → (q : Bytes) →
        IsFalse (has (moved source target (subtree source old)) q) → IsTrue (has new q) →
        at new q ≡ at old q }
    ensures rename_goes { (source target : Bytes) (old new : Tree) →
        apply (Rename source target) old ≡ Ok new → (q : Bytes) → IsTrue (has old q) →
        IsFalse (has new q) → IsTrue (is_in_the_way target q || is_at_or_below source q) }
    ensures rename_puts { (source target : Bytes) (old new : Tree) →
        apply (Rename source target) old ≡ Ok new → (q : Bytes) →
        IsTrue (has (moved source target (subtree source old)) q) →
        at new q ≡ at (moved source target (subtree source old)) q }
    ensures rename_leaves { (source target : Bytes) (old new : Tree) →
        apply (Rename source target) old ≡ Ok new → (q : Bytes) →
        IsFalse (has (moved source target (subtree source old)) q) → IsTrue (has new q) →
        at new q ≡ at old q }
{}

/// What gives way to a path in a tree is one file above the path, or what is below it, and never both.
pub fn what_gives_way_is_on_one_side()
    ensures { (tree : Tree) (path above other : Bytes) → IsTree tree → IsTrue (has tree above) →
        IsTrue (is_below above path) → IsTrue (has tree other) → IsTrue (do_conflict path other) →
        other ≡ above }
{}

/// A copy or a rename that is written out needs no more of the trees than what is in the way of the target, what is at
/// or below the source, and what is at or below the target afterwards.
pub fn what_is_written_out_is_near()
    ensures copy { (matched : Bytes → Bool) (source target : Bytes) (old new : Tree) → IsTree old →
        apply (Copy source target) old ≡ Ok new →
        rewritten matched old new ≡ copied_near matched target old new }
    ensures rename { (matched : Bytes → Bool) (source target : Bytes) (old new : Tree) →
        IsTree old → apply (Rename source target) old ≡ Ok new →
        rewritten matched old new ≡ renamed_near matched source target old new }
{}
