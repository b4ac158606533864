//! Small examples of what the definitions say, computed by the checker.
ghost use Rattle.std.specs.Prelude.{◌≡◌, [], ◌∷◌, Ok, Err};
ghost use Rattle.plain_model.specs.declared.fault.Fault.TheVariants as fault;
ghost use Rattle.plain_model.specs.declared.id.AnyId.TheVariants as any;
ghost use Rattle.reorder_laws.specs.Examples.{commits, fork, in_a_line, other_line, other_root, renamed};
ghost use Rattle.reorder_laws.specs.Reorder.{reorder_of};

/// Two commits change places, and the blob that the second names comes before it; the commit after the line has the new
/// last one as its parent, and a root can be among those that change. The order that is there already changes nothing.
pub fn another_order_changes_places()
    ensures places { reorder_of (commits (5 ∷ 3 ∷ [])) in_a_line ≡ Ok other_line }
    ensures root { reorder_of (commits (3 ∷ 2 ∷ [])) in_a_line ≡ Ok other_root }
    ensures same { reorder_of (commits (3 ∷ 5 ∷ [])) in_a_line ≡ Ok in_a_line }
{}

/// Commits between which another one stands are no line, and neither are a commit and one of its two children. The
/// first commit that doesn't follow is reported, by the number of its event.
pub fn a_gap_is_no_line()
    ensures gap { reorder_of (commits (3 ∷ 6 ∷ [])) in_a_line ≡ Err (fault.NotLinear 6) }
    ensures fork { reorder_of (commits (3 ∷ 2 ∷ [])) fork ≡ Err (fault.NotLinear 3) }
{}

/// One commit can't be put into another order, and an event that isn't a commit can't either.
pub fn one_commit_is_too_few()
    ensures few { reorder_of (commits (3 ∷ [])) in_a_line ≡ Err (fault.WrongCount 1) }
    ensures blob { reorder_of (any.Commit 3 ∷ any.Blob 4 ∷ []) in_a_line ≡ Err (fault.NotACommit 4) }
{}

/// A commit can't come before one that puts in the file that it renames.
pub fn a_source_is_missing()
    ensures { reorder_of (commits (3 ∷ 2 ∷ [])) renamed ≡ Err (fault.MissingSource 3 1) }
{}
