//! Worked texts: one that is spelled, and some that aren't.
ghost use Rattle.std.specs.Prelude.{◌≡◌, [], ◌∷◌, List, Some, codes};
ghost use Rattle.stream_grammar.specs.Worked.{lines};
ghost use Rattle.production_laws.specs.Examples.{small_events, small_history, small_stream};
ghost use Rattle.production_laws.specs.Productions.{Form, Spells};
ghost use Rattle.production_laws.specs.Productions.Form.{
  ABlob,
  ACommit,
  AReset,
  ATag,
  AnAlias,
  AnEmptyLine,
  APass,
  APromise,
};
ghost use Rattle.production_laws.specs.Raw.{SpellsRaw, history};

/// A stream with each form, a comment, a block that looks like one, a block up to a delimiter, bytes after an operation,
/// and text after `done`.
pub fn a_text_is_spelled()
    ensures each { Spells (lines (codes "feature done" ∷ codes "blob" ∷ codes "# no mark"
        ∷ codes "original-oid x" ∷ codes "data 3" ∷ codes "# x" ∷ codes "commit b"
        ∷ codes "mark :1" ∷ codes "committer Ann" ∷ codes "data <<E" ∷ codes "hi" ∷ codes "E"
        ∷ codes "from :9" ∷ codes "merge :8" ∷ codes "merge :7" ∷ codes "M 644 inline f"
        ∷ codes "data 0" ∷ [] ∷ codes "D g" ∷ [] ∷ codes "reset b" ∷ codes "alias"
        ∷ codes "mark :2" ∷ codes "to b" ∷ codes "tag v" ∷ codes "mark :3" ∷ codes "from b"
        ∷ codes "data 0" ∷ codes "progress x" ∷ codes "done" ∷ codes "anything" ∷ []))
        (APromise ∷ ABlob ∷ ACommit ∷ AnEmptyLine ∷ AReset ∷ AnAlias ∷ ATag ∷ APass ∷ []) }
    ensures last_line { Spells (codes "checkpoint") (APass ∷ []) }
{}

/// Lines that are missing, stand too late or stand twice; `done` that was promised; and a block that is cut off.
pub fn texts_are_not_spelled()
    ensures no_data { (forms : List Form) → Spells (lines (codes "blob" ∷ codes "mark :1" ∷ [])) forms → ⊥ }
    ensures late_mark { (forms : List Form) → Spells (lines (codes "blob" ∷ codes "original-oid x"
        ∷ codes "mark :1" ∷ codes "data 0" ∷ [])) forms → ⊥ }
    ensures two_authors { (forms : List Form) → Spells (lines (codes "commit b" ∷ codes "author Ann"
        ∷ codes "author Ann" ∷ codes "committer Ann" ∷ codes "data 0" ∷ [])) forms → ⊥ }
    ensures from_after_merge { (forms : List Form) → Spells (lines (codes "commit b"
        ∷ codes "committer Ann" ∷ codes "data 0" ∷ codes "merge :1" ∷ codes "from :1" ∷ []))
        forms → ⊥ }
    ensures late_tagger { (forms : List Form) → Spells (lines (codes "tag v" ∷ codes "tagger Ann"
        ∷ codes "from b" ∷ codes "data 0" ∷ [])) forms → ⊥ }
    ensures two_targets { (forms : List Form) → Spells (lines (codes "reset b" ∷ codes "from c"
        ∷ codes "from d" ∷ [])) forms → ⊥ }
    ensures no_done { (forms : List Form) → Spells (lines (codes "feature done" ∷ [])) forms → ⊥ }
    ensures cut_block { (forms : List Form) → Spells (lines (codes "blob" ∷ codes "data 9" ∷ [])) forms → ⊥ }
{}

/// A blob, a commit with bytes after its operation, and a reset: the events that are spelled, and their history.
pub fn events_are_spelled()
    ensures spelled { SpellsRaw small_stream small_events }
    ensures history { history small_events ≡ Some small_history }
{}
