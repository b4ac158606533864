//! Laws of streams. Each function's contract is one, and its body is empty.
ghost use Rattle.std.specs.Prelude.{◌≡◌, ◌↔◌, ◌<◌, ◌≤◌, ℕ, List, Some, Ok, Err, is_some, not};
ghost use Rattle.plain_model.specs.declared.event.PlainEvent.{PlainEvent};
ghost use Rattle.plain_model.specs.declared.fault.Fault.TheVariants.{BadStream, Limit, MarksSpent};
ghost use Rattle.plain_model.specs.declared.fault.Which.{Which};
ghost use Rattle.plain_model.specs.declared.fault.Why.{Why};
ghost use Rattle.plain_model.specs.declared.fault.Why.TheVariants.{Truncated};
ghost use Rattle.plain_model.specs.declared.limit.TheConstants.{MAX_MARK};
ghost use Rattle.line_automaton.specs.Limits.{ExceedsLimit};
ghost use Rattle.line_automaton.specs.Machine.{EndsEarly, IsCleanBefore, NoneIsClean, Stops, all, none, outcome, up_to};
ghost use Rattle.line_automaton.specs.Machine.Outcome.{Misses, Reads, Refuses};
ghost use Rattle.stream_grammar.specs.Known.{history_of};
ghost use Rattle.stream_grammar.specs.Limits.{last_mark, limit_number, exceeded, stream_of};
ghost use Rattle.stream_grammar.specs.Lines.{AreSpelledAlike, IsFirstDefect, State, defect_in, history_in, stream};

/// The first defect of a stream is its first refusal: line `n` is the first after which no text can go on that is clean
/// so far, and its kind is what that line does.
pub fn first_refusal_is_the_first_defect()
    ensures { (bytes : List ℕ) (n : ℕ) (why : Why) →
        Stops stream bytes n why ↔ (outcome stream all bytes ≡ Refuses n why) }
{}

/// A stream has one first defect: its line is fixed by the other texts alone, and its kind with it.
pub fn a_first_defect_is_the_only_one()
    ensures line { (bytes : List ℕ) (n m : ℕ) → IsCleanBefore stream bytes n →
        NoneIsClean stream bytes n → IsCleanBefore stream bytes m →
        NoneIsClean stream bytes m → n ≡ m }
    ensures kind { (bytes : List ℕ) (n m : ℕ) (why other : Why) → Stops stream bytes n why →
        Stops stream bytes m other → (n ≡ m) × (why ≡ other) }
{}

/// A stream ends early where its reading misses a line or a block.
pub fn an_early_end_misses_a_line()
    ensures { (bytes : List ℕ) (n : ℕ) →
        EndsEarly stream bytes n ↔ (outcome stream all bytes ≡ Misses n) }
{}

/// What is clean through a line is a stream in its form, of the same lines and blocks.
pub fn what_is_clean_is_spelled()
    ensures { (n : ℕ) (bytes : List ℕ) (s : State) → outcome stream (up_to n) bytes ≡ Reads s →
        (t : State) × (outcome stream none bytes ≡ Reads t) × AreSpelledAlike s t }
{}

/// The defect that reading finds is the first one, and each text has a history or a defect.
pub fn what_is_no_history_has_a_first_defect()
    ensures first { (bytes : List ℕ) (n : ℕ) (why : Why) →
        (defect_in bytes ≡ Some (n, why)) ↔ IsFirstDefect bytes n why }
    ensures either { (bytes : List ℕ) →
        is_some (history_in bytes) ≡ not (is_some (defect_in bytes)) }
{}

/// Limits refuse nothing else: what a stream gives within them is its history, and its defect is the first one; a limit is
/// passed by a line whose fields are right; and the marks are spent only of a text that has a history.
pub fn limits_refuse_nothing_else()
    ensures history { (bytes : List ℕ) (history : List PlainEvent) →
        stream_of bytes ≡ Ok history → history_in bytes ≡ Some history }
    ensures defect { (bytes : List ℕ) (n : ℕ) (why : Why) →
        stream_of bytes ≡ Err (BadStream n why) → IsFirstDefect bytes n why }
    ensures limit { (bytes : List ℕ) (which : Which) (number : ℕ) →
        stream_of bytes ≡ Err (Limit which number) →
        (number ≡ limit_number which) × (n : ℕ) × ExceedsLimit stream exceeded bytes n which }
    ensures spent { (bytes : List ℕ) → stream_of bytes ≡ Err MarksSpent → (s : State) ×
        (outcome stream all bytes ≡ Reads s) × (MAX_MARK < last_mark s.known) }
{}

/// The first cause is reported: the first defect where no line before it exceeds a limit, an early end where none does, the
/// first line that exceeds a limit where no defect is before it; and what has none of them and marks enough is read.
pub fn the_first_cause_is_reported()
    ensures defect { (bytes : List ℕ) (n : ℕ) (why : Why) → Stops stream bytes n why →
        ((m : ℕ) (which : Which) → ExceedsLimit stream exceeded bytes m which → n ≤ m) →
        stream_of bytes ≡ Err (BadStream n why) }
    ensures early_end { (bytes : List ℕ) (n : ℕ) → EndsEarly stream bytes n →
        ((m : ℕ) (which : Which) → ExceedsLimit stream exceeded bytes m which → ⊥) →
        stream_of bytes ≡ Err (BadStream n Truncated) }
    ensures limit { (bytes : List ℕ) (n : ℕ) (which : Which) →
        ExceedsLimit stream exceeded bytes n which →
        ((m : ℕ) (other : Which) → ExceedsLimit stream exceeded bytes m other → n ≤ m) →
        stream_of bytes ≡ Err (Limit which (limit_number which)) }
    ensures history { (bytes : List ℕ) (s : State) → outcome stream all bytes ≡ Reads s →
        ((m : ℕ) (which : Which) → ExceedsLimit stream exceeded bytes m which → ⊥) →
        last_mark s.known ≤ MAX_MARK → stream_of bytes ≡ Ok (history_of s.known) }
{}
