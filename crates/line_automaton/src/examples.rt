//! Small texts and what they answer, computed by the checker. The grammar is that of
//! `specs/Example`.
ghost use Rattle.std.specs.Prelude.{◌≡◌, [], ◌∷◌, codes};
ghost use Rattle.line_automaton.specs.Example.{example, items, two_items};
ghost use Rattle.line_automaton.specs.Example.ItemDefect.{
  BadCount,
  MissingData,
  RepeatedName,
  UnknownLine,
};
ghost use Rattle.line_automaton.specs.Example.ItemLimit.{TooManyItems};
ghost use Rattle.line_automaton.specs.Limits.Cause.{Defect, Exceeds};
ghost use Rattle.line_automaton.specs.Machine.{all, none, outcome, up_to};
ghost use Rattle.line_automaton.specs.Machine.Outcome.{Misses, Reads, Refuses};

/// Lines and blocks are kept as they are.
pub fn texts_are_read()
    ensures counted { outcome example all (codes "item a\ndata 4\nx\nyz\n")
        ≡ Reads (items (codes "a" ∷ [])
        (codes "x\nyz" ∷ codes "data 4" ∷ codes "item a" ∷ [])) }

    // A line that only begins with the delimiter is part of the block.
    ensures delimited { outcome example all (codes "item a\nuntil E\nx\nEE\nE\n")
        ≡ Reads (items (codes "a" ∷ [])
        (codes "x\nEE\n" ∷ codes "until E" ∷ codes "item a" ∷ [])) }

    // The last line may be without its LF, also where it is a delimiter.
    ensures unended { outcome example all (codes "item a\nuntil E\nE")
        ≡ Reads (items (codes "a" ∷ []) ([] ∷ codes "until E" ∷ codes "item a" ∷ [])) }

    // After `end` nothing is looked at.
    ensures over { outcome example all (codes "end\nwhat?\n")
        ≡ Reads (items [] (codes "end" ∷ [])) }
    ensures empty { outcome example all [] ≡ Reads (items [] []) }
{}

/// Each LF counts, in a block too.
pub fn lines_have_their_numbers()
    // A line directly after a block has the number of the block's last line.
    ensures after_a_block { outcome example all (codes "item a\ndata 1\nxy")
        ≡ Refuses 3 UnknownLine }

    // The one LF that may follow a block ends that line.
    ensures after_its_line_feed { outcome example all (codes "item a\ndata 1\nx\ny")
        ≡ Refuses 4 UnknownLine }

    // A second one ends an empty line.
    ensures empty_line { outcome example all (codes "item a\ndata 1\nx\n\n")
        ≡ Refuses 4 UnknownLine }

    // After a block that ends in an LF, the one that may follow ends a line of its own.
    ensures line_feed_and_block { outcome example all (codes "item a\ndata 2\nx\n\ny")
        ≡ Refuses 5 UnknownLine }

    ensures after_two_lines { outcome example all (codes "item a\ndata 3\nx\nyz")
        ≡ Refuses 4 UnknownLine }
    ensures after_a_delimiter { outcome example all (codes "item a\nuntil E\nx\nE\ny")
        ≡ Refuses 5 UnknownLine }
{}

/// What a text misses is reported at the line whose block it is, or at the line that is expected.
pub fn texts_end_early()
    // The last line counts as one, with its LF or without.
    ensures line_expected { outcome example all (codes "item a") ≡ Misses 2 }
    ensures line_expected_after_a_line_feed { outcome example all (codes "item a\n") ≡ Misses 2 }
    ensures line_expected_after_a_block { outcome example all (codes "item a\ndata 1\nxitem b")
        ≡ Misses 4 }

    ensures block_cut { outcome example all (codes "item a\ndata 5\nx\nyz") ≡ Misses 2 }

    // An LF that isn't there is no byte of a block.
    ensures block_misses_a_byte { outcome example all (codes "item a\ndata 2\nx") ≡ Misses 2 }
    ensures no_delimiter { outcome example all (codes "item a\nuntil E\nx\nEE\n") ≡ Misses 2 }
{}

/// Of several defects the first is reported; and the form of lines doesn't depend on their fields.
pub fn first_defects_are_reported()
    ensures first { outcome example all (codes "item a\ndata 0\nitem a\ndata x\n")
        ≡ Refuses 3 RepeatedName }

    // The lines through 2 are judged, so the repeated name isn't reported.
    ensures by_form { outcome example (up_to 2) (codes "item a\ndata 0\nitem a\ndata x\n")
        ≡ Refuses 4 BadCount }

    // A text whose fields alone have a defect has the grammar's form.
    ensures spelled { outcome example none (codes "item a\ndata 0\nitem a\ndata 1\nx")
        ≡ Reads (items (codes "a" ∷ codes "a" ∷ [])
        (codes "x" ∷ codes "data 1" ∷ codes "item a" ∷ [] ∷ codes "data 0" ∷ codes "item a" ∷ [])) }
    ensures missing { outcome example all (codes "item a\nitem b\n") ≡ Refuses 2 MissingData }
{}

/// Two items are within the limit, and a third passes it; a defect of the same line comes first.
pub fn limits_are_passed()
    ensures third { outcome two_items all (codes "item a\ndata 0\nitem b\ndata 0\nitem c\n")
        ≡ Refuses 5 (Exceeds TooManyItems) }
    ensures defect_first { outcome two_items all (codes "item a\ndata 0\nitem b\ndata 0\nitem b\n")
        ≡ Refuses 5 (Defect RepeatedName) }
    ensures second { outcome two_items all (codes "item a\ndata 0\nitem b\n") ≡ Misses 4 }
{}
