//! Laws of the form of streams. Each function's contract is one, and its body is empty.
ghost use Rattle.std.specs.Prelude.{◌≡◌, ◌↔◌, ◌⊎◌, ℕ, List, Some, Ok, Err};
ghost use Rattle.plain_model.specs.declared.event.PlainEvent.{PlainEvent};
ghost use Rattle.plain_model.specs.declared.fault.Fault.TheVariants.{BadStream};
ghost use Rattle.plain_model.specs.declared.fault.Why.{Why};
ghost use Rattle.line_automaton.specs.Machine.{IsCleanThrough, Stops, none, outcome, up_to};
ghost use Rattle.line_automaton.specs.Machine.Outcome.{Reads};
ghost use Rattle.stream_grammar.specs.Limits.{stream_of};
ghost use Rattle.stream_grammar.specs.Lines.{State, defect_in, history_in, stream};
ghost use Rattle.production_laws.specs.Meanings.{HasHistory};
ghost use Rattle.production_laws.specs.Productions.{Form, Spells};
ghost use Rattle.production_laws.specs.Raw.{Raw, SpellsRaw};
ghost use Rattle.production_laws.specs.Streams.{
  HasDefect,
  IsFirstWrong,
  IsGiven,
  IsNoStream,
  IsRightThrough,
  IsStreamOf,
};
ghost use Rattle.production_laws.specs.Texts.{HasParts, Part};

use stream_grammar::{limits_refuse_nothing_else, what_is_no_history_has_a_first_defect};

/// A text that the productions spell is read, as far as its form goes.
pub fn what_has_the_form_is_read()
    ensures { (bytes : List ℕ) (forms : List Form) → Spells bytes forms →
        (s : State) × (outcome stream none bytes ≡ Reads s) }
{}

/// A text that is read as far as its form goes is spelled by the productions; so is each that has a history, and each of
/// whose first lines no field has a defect, where only the form of the others counts.
pub fn what_is_read_has_the_form()
    ensures form { (bytes : List ℕ) (s : State) → outcome stream none bytes ≡ Reads s →
        (forms : List Form) × Spells bytes forms }
    ensures history { (bytes : List ℕ) (events : List PlainEvent) →
        history_in bytes ≡ Some events → (forms : List Form) × Spells bytes forms }
    ensures clean { (n : ℕ) (bytes : List ℕ) (s : State) →
        outcome stream (up_to n) bytes ≡ Reads s → (forms : List Form) × Spells bytes forms }
{}

/// A text has at most one list of parts, and spells at most one list of forms.
pub fn a_text_is_spelled_once()
    ensures parts { (bytes : List ℕ) (parts others : List Part) → HasParts bytes parts →
        HasParts bytes others → parts ≡ others }
    ensures forms { (bytes : List ℕ) (forms others : List Form) → Spells bytes forms →
        Spells bytes others → forms ≡ others }
{}

/// A text that is spelled, and whose lines have no defect one after another, is read, and its history is what they mean;
/// and a text that has a history is such a one.
pub fn a_history_is_what_the_lines_mean()
    ensures read { (bytes : List ℕ) (forms : List Form) (events : List PlainEvent) →
        HasHistory bytes forms events → history_in bytes ≡ Some events }
    ensures spelled { (bytes : List ℕ) (events : List PlainEvent) →
        history_in bytes ≡ Some events → (forms : List Form) × HasHistory bytes forms events }
{}

/// A text has a history exactly where it spells events that have it; and at most one list of events is spelled by it.
pub fn a_history_is_that_of_the_spelled_events()
    ensures exactly { (bytes : List ℕ) (events : List PlainEvent) →
        (history_in bytes ≡ Some events) ↔ IsStreamOf bytes events }
    ensures once { (bytes : List ℕ) (raws others : List Raw) → SpellsRaw bytes raws →
        SpellsRaw bytes others → raws ≡ others }
{}

/// Within the limits a text gives the history of the events that it spells; a limit alone may stand in the way of one; and a
/// text that is refused for a defect spells no events that have a history, and has this defect first.
pub fn what_is_given_is_spelled()
    ensures history { (bytes : List ℕ) (events : List PlainEvent) →
        stream_of bytes ≡ Ok events → IsStreamOf bytes events }
    ensures stream { (bytes : List ℕ) (events : List PlainEvent) →
        IsStreamOf bytes events → IsGiven events (stream_of bytes) }
    ensures refused { (bytes : List ℕ) (n : ℕ) (why : Why) →
        stream_of bytes ≡ Err (BadStream n why) → IsNoStream bytes × HasDefect bytes n why }
{
    limits_refuse_nothing_else();
    what_is_no_history_has_a_first_defect();
}

/// First defects are sought among texts that are spelled: what is clean through a line is what is right through it, and the
/// line at which a text stops is the first that is wrong.
pub fn a_first_defect_is_one_of_spelled_texts()
    ensures right { (n : ℕ) (bytes : List ℕ) →
        IsCleanThrough stream n bytes ↔ IsRightThrough n bytes }
    ensures stops { (bytes : List ℕ) (n : ℕ) (why : Why) → Stops stream bytes n why →
        IsFirstWrong bytes n }
    ensures exactly { (bytes : List ℕ) (n : ℕ) (why : Why) →
        (defect_in bytes ≡ Some (n, why)) ↔ HasDefect bytes n why }
{}

/// Each text is a stream of one history or has one first defect, and none is both.
pub fn a_text_is_a_stream_or_has_a_defect()
    ensures either { (bytes : List ℕ) → ((events : List PlainEvent) × IsStreamOf bytes events)
        ⊎ ((n : ℕ) × (why : Why) × HasDefect bytes n why) }
    ensures not_both { (bytes : List ℕ) (n : ℕ) (why : Why) → HasDefect bytes n why →
        IsNoStream bytes }
    ensures history { (bytes : List ℕ) (events others : List PlainEvent) →
        IsStreamOf bytes events → IsStreamOf bytes others → events ≡ others }
    ensures defect { (bytes : List ℕ) (n m : ℕ) (why other : Why) → HasDefect bytes n why →
        HasDefect bytes m other → (n ≡ m) × (why ≡ other) }
{
    what_is_no_history_has_a_first_defect();
}
