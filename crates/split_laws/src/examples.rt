//! Small examples of what the definitions say, computed by the checker.
ghost use Rattle.std.specs.Prelude.{◌≡◌, [], ◌∷◌, Ok, Err, codes};
ghost use Rattle.plain_model.specs.declared.fault.Fault.TheVariants as fault;
ghost use Rattle.plain_model.specs.declared.id.AnyId.TheVariants as any;
ghost use Rattle.split_laws.specs.Examples.{one_by_one_at, put_one_by_one, two_put, two_put_at};
ghost use Rattle.split_laws.specs.Split.{split_at_of, split_by_of};

/// The second operation becomes a commit of its own, by its number or by its path, or by a folder above that.
pub fn a_commit_becomes_two()
    ensures at { split_at_of 3 2 (any.Commit 2 ∷ []) (two_put 2) ≡ Ok put_one_by_one }
    ensures by { split_by_of 3 (codes "g") (any.Commit 2 ∷ []) (two_put 2) ≡ Ok put_one_by_one }
    ensures below { split_by_of 3 (codes "d") (any.Commit 2 ∷ []) (two_put_at (codes "d/g") 2)
        ≡ Ok (one_by_one_at (codes "d/g")) }
{}

/// The greatest mark of all has no next one; no commit is split before its first operation, nor by a path that none has;
/// and one commit is wanted.
pub fn a_split_is_refused()
    ensures spent { split_at_of 3 2 (any.Commit 2 ∷ []) (two_put 4294967295) ≡ Err fault.MarksSpent }
    ensures first { split_at_of 3 1 (any.Commit 2 ∷ []) (two_put 2) ≡ Err (fault.BadIndex 1) }
    ensures absent { split_by_of 3 (codes "h") (any.Commit 2 ∷ []) (two_put 2)
        ≡ Err (fault.NoSuchPath (codes "h")) }
    ensures blob { split_at_of 3 2 (any.Blob 1 ∷ []) (two_put 2) ≡ Err (fault.NotACommit 1) }
    ensures none { split_at_of 3 2 [] (two_put 2) ≡ Err (fault.WrongCount 0) }
{}
