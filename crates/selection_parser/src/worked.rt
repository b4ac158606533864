//! Worked lines: what they are read as, which the prover computes.
ghost use Rattle.std.specs.Prelude.{◌≡◌, ◌++◌, [], ◌∷◌, codes, false, true, replicate, Err, Ok};
ghost use Rattle.selection_parser.specs.Plain.PlainSelection.{
  AtPath,
  AtPattern,
  Both,
  Call,
  Kinds,
  Listed,
  Near,
  Not,
  Search,
  Union,
};
ghost use Rattle.selection_parser.specs.Plain.PlainSelections.{more, none};
ghost use Rattle.selection_parser.specs.Reading.{selection_at};
ghost use Rattle.selection_parser.specs.Spelling.{no_fields, no_kinds};
ghost use Rattle.selection_parser.specs.declared.function.Function.TheVariants.{Dsc};
ghost use Rattle.selection_parser.specs.declared.item.Item.TheVariants.{One, Span};
ghost use Rattle.selection_parser.specs.declared.item.Spot.TheVariants.{Last, Marked, Named, Number};

/// Lines with a selection at their front, and its length.
pub fn lines_have_selections()
    ensures items { selection_at (codes ":6,:2..:3,<a b>,1..$ resolve")
        ≡ Ok (
          Listed (One (Marked 6) ∷ Span (Marked 2) (Marked 3) ∷ One (Named (codes "a b"))
              ∷ Span (Number 1) Last ∷ []),
          20,
        ) }

    // `~` binds tighter than `&`, and `&` tighter than `|`.
    ensures operators { selection_at (codes "@dsc(:4)&~=M|1 resolve")
        ≡ Ok (
          Union (more (Both (more (Call Dsc (Listed (One (Marked 4) ∷ [])))
              (more (Not (Kinds (record no_kinds { merges = true }))) none)))
              (more (Listed (One (Number 1) ∷ [])) none)),
          14,
        ) }

    // `?` binds tighter than `~`, and parentheses leave no trace.
    ensures suffix { selection_at (codes "~(1)??") ≡ Ok (Not (Near 2 (Listed (One (Number 1) ∷ []))), 6) }

    // A slash after a backslash belongs to the pattern, and any other one ends it.
    ensures pattern { selection_at (codes "/a\\/b\\\\/c/nt")
        ≡ Ok (Search (codes "a/b\\/c") (record no_fields { names = true; taggers = true }), 12) }

    ensures path { selection_at (codes "[sub] resolve") ≡ Ok (AtPath (codes "sub"), 5) }

    ensures paths { selection_at (codes "[/lib/]") ≡ Ok (AtPattern (codes "lib") false, 7) }

    ensures trees { selection_at (codes "[/lib/c]") ≡ Ok (AtPattern (codes "lib") true, 8) }
{}

/// Lines without one, and the columns at which they are refused.
pub fn lines_have_columns()
    ensures empty { selection_at [] ≡ Err 1 }

    ensures unclosed { selection_at (codes "(1 resolve") ≡ Err 3 }

    // A function is no item.
    ensures comma { selection_at (codes "@pre(:2),1 resolve") ≡ Err 9 }

    ensures two_ranges { selection_at (codes "1..2..3") ≡ Err 5 }

    ensures empty_pattern { selection_at (codes "// list") ≡ Err 2 }

    // 64 are open, and a 65th.
    ensures deep { selection_at (replicate 64 126 ++ codes "1@") ≡ Err 66 }

    ensures too_deep { selection_at (replicate 64 126 ++ codes "@min(1)") ≡ Err 65 }
{}
