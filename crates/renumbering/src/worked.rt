//! A worked history, computed by the checker.
ghost use Rattle.std.specs.Prelude.{◌≡◌};
ghost use Rattle.renumbering.specs.Renumbered.{renumbered};
ghost use Rattle.renumbering.specs.Worked.{counted, falling};

/// Falling marks with gaps, an alias and a tag's mark among them, become 1, 2, 3, 4, 5, 6; the tag without a
/// mark, the reset and the passed line take none; and where the marks are that already, nothing changes.
pub fn marks_go_by_place()
    ensures falling { renumbered falling ≡ counted }
    ensures counted { renumbered counted ≡ counted }
{}
