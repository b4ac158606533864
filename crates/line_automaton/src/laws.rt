//! Laws of machines, at the small grammar of `specs/Example`. Each holds of any automaton that the
//! lemmas in `proofs/` ask for; a contract can't range over automata.
ghost use Rattle.std.specs.Prelude.{
  ◌≡◌,
  ◌↔◌,
  ◌<◌,
  ◌+◌,
  ◌-◌,
  ◌++◌,
  [],
  ◌∷◌,
  ℕ,
  List,
  Some,
  None,
  Ok,
  Err,
  true,
  count_by,
  drop,
  flat_map,
  fold,
  get_or,
  length,
  take,
  if◌then◌else◌,
};
ghost use Rattle.plain_model.specs.declared.fault.Why.{Why};
ghost use Rattle.plain_model.specs.declared.fault.Why.TheVariants.{Truncated};
ghost use Rattle.plain_model.specs.Fields.{Extent, block_at, block_in, extent_in};
ghost use Rattle.plain_model.specs.Parts.{is_lf, line_at, skip_lf};
ghost use Rattle.line_automaton.specs.Example.{
  ItemDefect,
  ItemLimit,
  ItemsRead,
  example,
  items_passed,
  two_items,
};
ghost use Rattle.line_automaton.specs.Limits.{ExceedsLimit};
ghost use Rattle.line_automaton.specs.Limits.Cause.{Defect, Exceeds};
ghost use Rattle.line_automaton.specs.Lines.{
  HasDelimiter,
  extent_after,
  line_count,
  number_after,
  outcome_at,
};
ghost use Rattle.line_automaton.specs.Machine.{
  EndsEarly,
  IsCleanBefore,
  Machine,
  Next,
  NoneIsClean,
  Stops,
  all,
  none,
  outcome,
  run,
  up_to,
};
ghost use Rattle.line_automaton.specs.Machine.Next.{More, Over};
ghost use Rattle.line_automaton.specs.Machine.Outcome.{Misses, Reads, Refuses};

/// The first defect of a text is its first refusal.
pub fn first_refusal_is_the_defect()
    ensures { (bytes : List ℕ) (n : ℕ) (why : ItemDefect) →
        Stops example bytes n why ↔ (outcome example all bytes ≡ Refuses n why) }
{}

/// Other texts alone fix the line of a text's first defect.
pub fn the_first_defect_is_one()
    ensures { (bytes : List ℕ) (n m : ℕ) →
        IsCleanBefore example bytes n → NoneIsClean example bytes n →
        IsCleanBefore example bytes m → NoneIsClean example bytes m → n ≡ m }
{}

/// A text ends early where its reading misses something.
pub fn early_end_is_the_defect()
    ensures { (bytes : List ℕ) (n : ℕ) →
        EndsEarly example bytes n ↔ (outcome example all bytes ≡ Misses n) }
{}

/// What is clean through a line is spelled, by the same lines and blocks.
pub fn what_is_clean_is_spelled()
    ensures { (n : ℕ) (bytes : List ℕ) (s : ItemsRead) → outcome example (up_to n) bytes ≡ Reads s
        → (t : ItemsRead) × (outcome example none bytes ≡ Reads t) × (s.parts ≡ t.parts) }
{}

/// A text is read alike in any pieces, wherever it is cut.
pub fn any_pieces_are_read_alike()
    ensures two { (m : Machine ItemsRead ItemDefect) (front rest : List ℕ) →
        run example all m (front ++ rest) ≡ run example all (run example all m front) rest }
    ensures more { (m : Machine ItemsRead ItemDefect) (pieces : List (List ℕ)) →
        fold (λ m piece. run example all m piece) m pieces
        ≡ run example all m (flat_map (λ piece. piece) pieces) }
{}

/// From a line on, a text answers what it does from the next line on; or the line is refused, or
/// nothing is looked at after it.
pub fn a_line_goes_on_or_stops()
    ensures begins { (text : List ℕ) →
        outcome example all text ≡ outcome_at example all text text example.start }
    ensures next { (text before rest line after : List ℕ) (s new : ItemsRead) →
        text ≡ before ++ rest → line_at rest ≡ Some (line, after) →
        example.step true s line ≡ Ok (new, More) →
        outcome_at example all text rest s ≡ outcome_at example all text after new }
    ensures over { (text before rest line after : List ℕ) (s new : ItemsRead) →
        text ≡ before ++ rest → line_at rest ≡ Some (line, after) →
        example.step true s line ≡ Ok (new, Over) →
        outcome_at example all text rest s ≡ Reads new }
    ensures refused { (text before rest line after : List ℕ) (s : ItemsRead) (why : ItemDefect) →
        text ≡ before ++ rest → line_at rest ≡ Some (line, after) →
        example.step true s line ≡ Err why →
        outcome_at example all text rest s ≡ Refuses (number_after 1 text rest) why }
    ensures ends { (text rest : List ℕ) (s : ItemsRead) → line_at rest ≡ None →
        outcome_at example all text rest s
        ≡ (if s.expected then Misses (1 + line_count text) else Reads s) }
{}

/// From a line on that a block follows, a text answers what it does after the block and the one LF
/// that may follow; where not all of the block is there, the text misses it, at that line.
pub fn a_block_goes_on_or_misses()
    ensures there { (text before rest line after bytes beyond : List ℕ) (s new : ItemsRead)
        (next : Next) (extent : Extent) → text ≡ before ++ rest →
        line_at rest ≡ Some (line, after) → example.step true s line ≡ Ok (new, next) →
        extent_after line next ≡ Some extent → HasDelimiter extent →
        block_at extent after ≡ Some (bytes, beyond) → outcome_at example all text rest s
        ≡ outcome_at example all text (skip_lf beyond) (example.arrived new bytes) }
    ensures cut { (text before rest line after : List ℕ) (s new : ItemsRead)
        (next : Next) (extent : Extent) → text ≡ before ++ rest →
        line_at rest ≡ Some (line, after) → example.step true s line ≡ Ok (new, next) →
        extent_after line next ≡ Some extent → block_at extent after ≡ None →
        outcome_at example all text rest s ≡ Misses (number_after 1 text rest) }
{}

/// The same for a block as a stream's reading cuts it off, by its line of data.
pub fn data_goes_on_or_misses()
    ensures there { (text before rest line after bytes beyond : List ℕ) (s new : ItemsRead)
        (next : Next) (extent : Extent) → text ≡ before ++ rest →
        line_at rest ≡ Some (line, after) → example.step true s line ≡ Ok (new, next) →
        extent_after line next ≡ Some extent → extent_in line ≡ Ok extent →
        block_in line after ≡ Ok (bytes, beyond) → outcome_at example all text rest s
        ≡ outcome_at example all text beyond (example.arrived new bytes) }
    ensures truncated { (text before rest line after : List ℕ) (s new : ItemsRead)
        (next : Next) (extent : Extent) (why : Why) → text ≡ before ++ rest →
        line_at rest ≡ Some (line, after) → example.step true s line ≡ Ok (new, next) →
        extent_after line next ≡ Some extent → extent_in line ≡ Ok extent →
        block_in line after ≡ Err why → (why ≡ Truncated)
        × (outcome_at example all text rest s ≡ Misses (number_after 1 text rest)) }
{}

/// The number of a line that has a byte is one more than the LFs before it, where numbers begin
/// with 1; at the end of a text, all of its lines are counted, also a last one without LF.
pub fn numbers_count_line_feeds()
    ensures at_a_byte { (n at : ℕ) (text : List ℕ) → at < length text →
        number_after n text (drop at text) ≡ n + count_by is_lf (take at text) }
    ensures at_the_end { (n : ℕ) (text : List ℕ) →
        number_after n text [] ≡ n + line_count text }
    ensures lines { (text : List ℕ) → line_count text ≡ count_by is_lf text
        + (if is_lf (get_or text (length text - 1) 10) then 0 else 1) }
    ensures after_a_line { (n : ℕ) (text line rest : List ℕ) →
        line_at text ≡ Some (line, rest) → number_after n text rest ≡ n + 1 }
{}

/// An automaton with limits refuses what the one without refuses, or a line that passes a limit and
/// is read without. What it reads or misses, so does the one without.
pub fn limits_refuse_nothing_else()
    ensures defect { (bytes : List ℕ) (n : ℕ) (why : ItemDefect) →
        outcome two_items all bytes ≡ Refuses n (Defect why) →
        outcome example all bytes ≡ Refuses n why }
    ensures limit { (bytes : List ℕ) (n : ℕ) (limit : ItemLimit) →
        outcome two_items all bytes ≡ Refuses n (Exceeds limit) →
        ExceedsLimit example items_passed bytes n limit }
    ensures read { (bytes : List ℕ) (s : ItemsRead) → outcome two_items all bytes ≡ Reads s →
        outcome example all bytes ≡ Reads s }
    ensures missing { (bytes : List ℕ) (n : ℕ) → outcome two_items all bytes ≡ Misses n →
        outcome example all bytes ≡ Misses n }
{}
