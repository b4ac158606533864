//! Small examples of what the definitions say, computed by the checker.
ghost use Rattle.std.specs.Prelude.{◌≡◌, [], ◌∷◌, Ok, Err, true, false, codes};
ghost use Rattle.plain_model.specs.declared.fault.Fault.TheVariants as fault;
ghost use Rattle.plain_model.specs.declared.id.AnyId.TheVariants as any;
ghost use Rattle.plain_model.specs.declared.operation.Mode.TheVariants.{Plain};
ghost use Rattle.plain_model.specs.declared.raw.RawContent.TheVariants.{Marked};
ghost use Rattle.plain_model.specs.declared.raw.RawOp.TheVariants as raw;
ghost use Rattle.plain_model.specs.Histories.{tree};
ghost use Rattle.reparent_laws.specs.declared.removal.Removal.TheVariants as removal;
ghost use Rattle.reparent_laws.specs.Examples.{
  alone,
  blob_last,
  both_put,
  commits,
  first_gone,
  merged,
  moved,
  moved_back,
  one_put,
  put_and_renamed,
  root_last,
  root_merged,
  two_roots,
};
ghost use Rattle.reparent_laws.specs.Merge.{merge_of, unmerge_of};
ghost use Rattle.reparent_laws.specs.Operations.{add_of, remove_of};
ghost use Rattle.reparent_laws.specs.Reparent.{reparent_of};

/// A commit gets one parent more, and its first one alone again; the parent that it has; another one, with its tree
/// written out, or a later one, after which it then comes; none; and its old one, with the operations that it got.
pub fn a_commit_gets_other_parents()
    ensures merge { merge_of (commits (4 ∷ 5 ∷ [])) two_roots ≡ Ok merged }
    ensures again { merge_of (commits (4 ∷ 5 ∷ [])) merged ≡ Ok merged }
    ensures root { merge_of (commits (4 ∷ 3 ∷ [])) two_roots ≡ Ok root_merged }
    ensures unmerge { unmerge_of (commits (5 ∷ [])) merged ≡ Ok two_roots }
    ensures same { reparent_of false false (commits (3 ∷ 5 ∷ [])) two_roots ≡ Ok two_roots }
    ensures other { reparent_of false false (commits (4 ∷ 5 ∷ [])) two_roots ≡ Ok moved }
    ensures its_tree { tree moved 5 ≡ tree two_roots 5 }
    ensures later { reparent_of true false (commits (5 ∷ 4 ∷ [])) two_roots ≡ Ok root_last }
    ensures none { reparent_of false false (commits (5 ∷ [])) two_roots ≡ Ok alone }
    ensures rebase { reparent_of false true (commits (3 ∷ 5 ∷ [])) moved ≡ Ok moved_back }
{}

/// A rename comes last, and goes by its number or by a path.
pub fn a_commit_gets_other_operations()
    ensures added { add_of (raw.Rename (codes "f") (codes "h")) (commits (3 ∷ [])) one_put ≡ Ok put_and_renamed }
    ensures number { remove_of (removal.Index 2) (commits (3 ∷ [])) put_and_renamed ≡ Ok one_put }
    ensures path { remove_of (removal.At (codes "h")) (commits (3 ∷ [])) put_and_renamed ≡ Ok one_put }
{}

/// A blob comes before the commit that names it, and goes with the last operation that does.
pub fn a_blob_comes_and_goes_with_its_operation()
    ensures comes { add_of (raw.Modify Plain (Marked 3) (codes "g")) (commits (2 ∷ [])) blob_last ≡ Ok both_put }
    ensures goes { remove_of (removal.Index 1) (commits (2 ∷ [])) both_put ≡ Ok first_gone }
{}

/// No descendant becomes a parent. No file goes that a later commit renames. What isn't there can't be put, or
/// removed.
pub fn a_change_is_refused()
    ensures circle { reparent_of true false (commits (5 ∷ 3 ∷ [])) moved_back ≡ Err (fault.Cycle 5) }
    ensures nothing { reparent_of false false [] two_roots ≡ Err (fault.WrongCount 0) }
    ensures source { reparent_of false true (commits (3 ∷ [])) put_and_renamed ≡ Err (fault.MissingSource 3 2) }
    ensures three { merge_of (commits (2 ∷ 3 ∷ 5 ∷ [])) two_roots ≡ Err (fault.WrongCount 3) }
    ensures blob { merge_of (any.Commit 5 ∷ any.Blob 1 ∷ []) two_roots ≡ Err (fault.NotACommit 1) }
    ensures missing { remove_of (removal.At (codes "f")) (commits (2 ∷ [])) put_and_renamed
        ≡ Err (fault.MissingSource 3 2) }
    ensures index { remove_of (removal.Index 3) (commits (3 ∷ [])) put_and_renamed ≡ Err (fault.BadIndex 3) }
    ensures path { remove_of (removal.At (codes "k")) (commits (3 ∷ [])) put_and_renamed
        ≡ Err (fault.NoSuchPath (codes "k")) }
    ensures mark { add_of (raw.Modify Plain (Marked 9) (codes "k")) (commits (2 ∷ [])) put_and_renamed
        ≡ Err (fault.NoSuchMark 9) }
{}
