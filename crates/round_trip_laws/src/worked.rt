//! Worked histories: what is written of them, and what is read of that, which the prover computes.
ghost use Rattle.std.specs.Prelude.{◌≡◌, Some};
ghost use Rattle.plain_model.specs.Text.{text};
ghost use Rattle.stream_grammar.specs.Lines.{history_in};
ghost use Rattle.stream_grammar.specs.Worked.{lines};
ghost use Rattle.round_trip_laws.specs.AsRead.{IsAsRead};
ghost use Rattle.round_trip_laws.specs.Worked.{
  two_branches,
  two_branches_lines,
};

/// Two branches, their merge, aliases, tags and a promised last line: a history as reading gives it, its
/// text, and what is read of this text.
pub fn two_branches_are_written_and_read()
    ensures is_as_read { IsAsRead two_branches }
    ensures written { text two_branches ≡ lines two_branches_lines }
    ensures read { history_in (lines two_branches_lines) ≡ Some two_branches }
{}
