//! Small examples of what the definitions say, computed by the checker.
ghost use Rattle.std.specs.Prelude.{◌≡◌, [], ◌∷◌, Ok, Err, codes};
ghost use Rattle.history_laws.specs.Examples.{reset_before_root, root_on_a_tip};
ghost use Rattle.plain_model.specs.Histories.{tree};
ghost use Rattle.plain_model.specs.declared.fault.Fault.TheVariants as fault;
ghost use Rattle.plain_model.specs.declared.id.AnyId.TheVariants as any;
ghost use Rattle.squash_laws.specs.Comments.{joined};
ghost use Rattle.squash_laws.specs.Examples.{
  back_how,
  commits,
  each_kind,
  fork,
  fork_6_back,
  fork_without_3,
  forward_how,
  renamed,
  tagged,
  tags_back_how,
  two_roots,
  without_both_roots,
  without_first,
  without_last,
  without_middle,
  without_one_root,
};
ghost use Rattle.plain_model.specs.Policies.{delete_how};
ghost use Rattle.squash_laws.specs.Squash.{squash_of};

/// Both children of a removed commit do first what it did, and have its comment before their own.
pub fn a_fork_takes_twice()
    ensures { squash_of forward_how (commits (3 ∷ [])) fork ≡ Ok fork_without_3 }
{}

/// A root goes before a merge: the merge begins without files where it keeps a parent, and is a root where it keeps
/// none; its tree is the same. The blob that only the second root named goes.
pub fn a_root_goes()
    ensures one { squash_of forward_how (commits (3 ∷ [])) two_roots ≡ Ok without_one_root }
    ensures both { squash_of forward_how (commits (3 ∷ 4 ∷ [])) two_roots ≡ Ok without_both_roots }
    ensures trees { tree without_one_root 5 ≡ tree two_roots 5 }
    ensures root_trees { tree without_both_roots 5 ≡ tree two_roots 5 }
{}

/// A commit is pushed back to its first parent, if it has one, and no other commit has the same first parent. The first
/// in the list that can't be is reported, whatever the order of the set.
pub fn an_only_child_is_pushed_back()
    ensures done { squash_of back_how (commits (6 ∷ [])) fork ≡ Ok fork_6_back }
    ensures fork { squash_of back_how (commits (4 ∷ [])) fork ≡ Err (fault.PushbackFork 4) }
    ensures root { squash_of back_how (commits (2 ∷ [])) fork ≡ Err (fault.PushbackRoot 2) }
    ensures first { squash_of back_how (commits (4 ∷ 2 ∷ [])) fork ≡ Err (fault.PushbackRoot 2) }
{}

/// A commit can't be deleted where a later one renames what it put in. A reset is deleted by itself.
pub fn a_source_is_missing()
    ensures missing { squash_of delete_how (commits (3 ∷ [])) renamed ≡ Err (fault.MissingSource 4 1) }
    ensures reset { squash_of delete_how (any.Reset 3 ∷ []) reset_before_root ≡ Ok root_on_a_tip }
{}

/// The tag of a removed commit goes the way to which it leans, and the other way where there is no commit for it. Where
/// there is none at all, the tag goes, as it does with a deleted commit.
pub fn tags_move()
    ensures forward { squash_of forward_how (commits (2 ∷ [])) (tagged 2) ≡ Ok (without_middle 3) }
    ensures back { squash_of tags_back_how (commits (2 ∷ [])) (tagged 2) ≡ Ok (without_middle 1) }
    ensures childless { squash_of forward_how (commits (3 ∷ [])) (tagged 3) ≡ Ok (without_last 2) }
    ensures root { squash_of tags_back_how (commits (1 ∷ [])) (tagged 1) ≡ Ok (without_first 2) }
    ensures none { squash_of forward_how (commits (1 ∷ 2 ∷ 3 ∷ [])) (tagged 2) ≡ Ok [] }
    ensures deleted { squash_of delete_how (commits (1 ∷ 2 ∷ 3 ∷ [])) (tagged 2) ≡ Ok [] }
{}

/// Comments are joined with a line feed between two, and empty ones are left out.
pub fn empty_comments_are_left_out()
    ensures { joined ([] ∷ codes "one" ∷ [] ∷ codes "two" ∷ []) ≡ codes "one\ntwo" }
{}

/// A squash of no commit changes nothing.
pub fn an_empty_set_changes_nothing()
    ensures forward { squash_of forward_how [] each_kind ≡ Ok each_kind }
    ensures back { squash_of back_how [] each_kind ≡ Ok each_kind }
    ensures delete { squash_of delete_how [] each_kind ≡ Ok each_kind }
{}
