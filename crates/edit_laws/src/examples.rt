//! Small examples of what the definitions say, computed by the checker.
ghost use Rattle.std.specs.Prelude.{◌≡◌, ◌∷◌, [], Err, Ok, Some};
ghost use Rattle.ancestry_laws.specs.Ancestry.{is_one_of};
ghost use Rattle.ancestry_laws.specs.Examples.{merges};
ghost use Rattle.edit_laws.specs.Examples.{
  circle,
  named,
  never_taken,
  turned,
  turned_back,
  unnamed,
  unnamed_swept,
};
ghost use Rattle.edit_laws.specs.Removal.{expand_all};
ghost use Rattle.edit_laws.specs.Settling.{first_commit_mark, settle};
ghost use Rattle.edit_laws.specs.Sweeping.{swept};
ghost use Rattle.plain_model.specs.Histories.{past};

/// Of the commits that are ready the earliest one is taken. Where two run in a circle, the first of them is named.
pub fn the_earliest_is_taken()
    ensures done { settle turned ≡ Ok turned_back }
    ensures circle { settle circle ≡ Err never_taken }
    ensures mark { first_commit_mark never_taken ≡ Some 1 }
{}

/// What removed merges stand for comes in the order of their parents, each commit once.
pub fn merges_expand_once()
    ensures { expand_all (is_one_of (4 ∷ 5 ∷ 6 ∷ [])) (past merges) (6 ∷ []) ≡ 2 ∷ 3 ∷ [] }
{}

/// A blob goes that was named before and isn't any more, and one that nothing named stays.
pub fn only_what_was_named_is_swept()
    ensures { swept named unnamed ≡ unnamed_swept }
{}
