//! Laws of what selections stand for. A caller has one by a call of its function.
ghost use Rattle.std.specs.Prelude.{◌≡◌, ◌⊎◌, ℕ, true, List, Option, Err};
ghost use Rattle.byte_patterns.specs.Judging.{Denial, is_big, is_sized, under};
ghost use Rattle.plain_model.specs.Soundness.{IsSound};
ghost use Rattle.plain_model.specs.declared.event.PlainEvent.{PlainEvent};
ghost use Rattle.plain_model.specs.declared.fault.Fault.TheVariants as fault;
ghost use Rattle.selection_eval.specs.Denoted.{denote};
ghost use Rattle.selection_eval.specs.Given.{
  AreNamesOnce,
  AreTipsLive,
  GivesLive,
  GivesOnce,
  HaveOwnIds,
};
ghost use Rattle.selection_eval.specs.Names.{Names};
ghost use Rattle.selection_parser.specs.Plain.{PlainSelection};

/// A selection's list is without repeats, over a history whose events have ids of their own, and assigned lists
/// without repeats.
pub fn selections_are_without_repeats()
    ensures { (events : List PlainEvent) → HaveOwnIds events → (names : Names) → AreNamesOnce names →
        (selection : PlainSelection) → GivesOnce (denote selection events names).value }
{}

/// A selection's events are events of the history, where the tips of branches are.
pub fn selections_are_live()
    ensures { (events : List PlainEvent) → AreTipsLive events → (names : Names) →
        (selection : PlainSelection) → GivesLive events (denote selection events names).value }
{}

/// What those two laws ask of a history holds of a sound one.
pub fn sound_histories_are_such()
    ensures ids { (events : List PlainEvent) → IsSound events → HaveOwnIds events }
    ensures tips { (events : List PlainEvent) → IsSound events → AreTipsLive events }
{}

/// A selection is refused with 46 for a text of too many bytes or with a `{`, or under a denial for a size.
pub fn a_size_is_denied_or_seen()
    ensures { (events : List PlainEvent) (names : Names) (selection : PlainSelection)
        (denial : Option Denial) (text : List ℕ) →
        under denial (denote selection events names) ≡ Err (fault.PatternTooBig text) →
        (is_big text ≡ true) ⊎ (is_sized denial ≡ true) }
{}
