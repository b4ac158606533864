//! A small example of what the definitions say, computed by the checker.
ghost use Rattle.std.specs.Prelude.{◌≡◌, ◌∷◌, [], false};
ghost use Rattle.ancestry_laws.specs.Ancestry.{ancestors_of, descendants_of, descends};
ghost use Rattle.ancestry_laws.specs.Examples.{ids, merges};

/// In an example a merge descends from both of its parents, and a commit is among its own ancestors and descendants.
pub fn merges_descend_from_both_sides()
    ensures descendants { descendants_of merges (2 ∷ []) ≡ ids (2 ∷ 4 ∷ 5 ∷ 6 ∷ 7 ∷ []) }
    ensures ancestors { ancestors_of merges (4 ∷ []) ≡ ids (1 ∷ 2 ∷ 3 ∷ 4 ∷ []) }
    ensures beside { descends merges (2 ∷ []) 3 ≡ false }
{}
