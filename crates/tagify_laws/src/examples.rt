//! Small examples of what the definitions say, computed by the checker.
ghost use Rattle.std.specs.Prelude.{◌≡◌, [], ◌∷◌, Ok, Err, codes, map};
ghost use Rattle.plain_model.specs.declared.fault.Fault.TheVariants as fault;
ghost use Rattle.plain_model.specs.Lookups.{id_of};
ghost use Rattle.squash_laws.specs.Examples.{commits};
ghost use Rattle.tagify_laws.specs.Examples.{
  both_tagged,
  idle_last,
  idle_line,
  idle_middle,
  idle_sides,
  line_tagged,
  middle_tagged,
  name_taken,
  sides_tagged,
};
ghost use Rattle.tagify_laws.specs.Tagify.{tagify_of};

/// A commit that does nothing becomes a tag of its parent, with its committer and its comment, and its child is one of
/// its parent. Once that child does nothing, it becomes a second tag there.
pub fn a_commit_becomes_a_tag()
    ensures one { tagify_of 5 (map id_of idle_middle) idle_middle ≡ Ok middle_tagged }
    ensures more { tagify_of 6 (map id_of idle_last) idle_last ≡ Ok both_tagged }
    ensures none { tagify_of 5 (commits (2 ∷ 4 ∷ [])) idle_middle ≡ Ok idle_middle }
{}

/// A root and a merge stay, though they do nothing. What was on a line of commits that become tags goes back to the
/// commit before them.
pub fn a_root_and_a_merge_stay()
    ensures { tagify_of 10 (map id_of idle_line) idle_line ≡ Ok line_tagged }
{}

/// Where the parents of a merge give way to one commit, it has that one parent, and doesn't become a tag itself.
pub fn parents_become_one()
    ensures { tagify_of 5 (map id_of idle_sides) idle_sides ≡ Ok sides_tagged }
{}

/// The name is refused that a tag has already, also one that would move; but only where a commit wants it.
pub fn a_name_is_taken()
    ensures taken { tagify_of 5 (map id_of name_taken) name_taken
        ≡ Err (fault.NameTaken (codes "emptycommit-3")) }
    ensures not_selected { tagify_of 5 (commits (1 ∷ [])) name_taken ≡ Ok name_taken }
{}
