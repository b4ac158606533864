//! Worked histories such as edits leave them, which the prover computes.
ghost use Rattle.std.specs.Prelude.{◌≡◌, Some};
ghost use Rattle.plain_model.specs.Text.{text};
ghost use Rattle.stream_grammar.specs.Lines.{history_in};
ghost use Rattle.stream_grammar.specs.Worked.{lines};
ghost use Rattle.shown_laws.specs.AsWritten.{as_written};
ghost use Rattle.shown_laws.specs.Showing.{IsShownBy};
ghost use Rattle.round_trip_laws.specs.AsRead.{IsAsRead};
ghost use Rattle.plain_model.specs.Soundness.{IsSound};
ghost use Rattle.shown_laws.specs.Worked.{
  ids_by_place,
  ids_in_no_order,
  root_after_a_reset,
  root_on_a_tip,
  root_on_a_tip_lines,
};

use crate::laws::what_is_written_shows_the_history;

/// A root on a branch with a tip is written after a reset, and read with it. Reading gives no such history.
pub fn a_root_on_a_tip_is_written_after_a_reset()
    ensures sound { IsSound root_on_a_tip }
    ensures never_read { IsAsRead root_on_a_tip → ⊥ }
    ensures written { text root_on_a_tip ≡ lines root_on_a_tip_lines }
    ensures again { as_written root_on_a_tip ≡ root_after_a_reset }
    ensures read { history_in (lines root_on_a_tip_lines) ≡ Some root_after_a_reset }
    ensures shown { IsShownBy (lines root_on_a_tip_lines) root_on_a_tip }
{
    what_is_written_shows_the_history();
}

/// Ids in no order become places, and what refers to them follows.
pub fn ids_become_places()
    ensures { as_written ids_in_no_order ≡ ids_by_place }
{}
