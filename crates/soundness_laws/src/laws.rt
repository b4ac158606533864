//! Laws of what is read. Each function's contract is one, and its body is empty.
ghost use Rattle.std.specs.Prelude.{
  ◌≡◌,
  ◌≤◌,
  ◌+◌,
  ◌++◌,
  [],
  ◌∷◌,
  ℕ,
  IsFalse,
  IsTrue,
  List,
  Ok,
  Option,
  Some,
  length,
};
ghost use Rattle.plain_model.specs.declared.event.PlainEvent.{PlainEvent};
ghost use Rattle.plain_model.specs.declared.event.PlainEvent.TheVariants.{Blob, Commit, Tag};
ghost use Rattle.plain_model.specs.declared.id.AnyId.TheVariants as any;
ghost use Rattle.plain_model.specs.declared.limit.TheConstants.{
  MAX_ALIASES,
  MAX_EVENTS,
  MAX_OPERATIONS,
};
ghost use Rattle.plain_model.specs.declared.operation.FileOp.{FileOp};
ghost use Rattle.plain_model.specs.declared.operation.FileOp.TheVariants.{Delete};
ghost use Rattle.plain_model.specs.declared.path.PathFault.{PathFault};
ghost use Rattle.plain_model.specs.declared.person.Signed.{Signed};
ghost use Rattle.plain_model.specs.Lookups.{id_number, id_of};
ghost use Rattle.plain_model.specs.Paths.{path_fault};
ghost use Rattle.plain_model.specs.Snapshots.{refs};
ghost use Rattle.plain_model.specs.Soundness.{has_id};
ghost use Rattle.plain_model.specs.Streams.{is_marked};
ghost use Rattle.plain_model.specs.Text.{text};
ghost use Rattle.plain_model.specs.Trees.{at};
ghost use Rattle.stream_grammar.specs.Limits.{stream_of};
ghost use Rattle.history_laws.specs.Counts.{ops_in};
ghost use Rattle.stream_grammar.specs.Lines.{history_in};
ghost use Rattle.round_trip_laws.specs.AsRead.{IsAsRead};
ghost use Rattle.plain_model.specs.Lookups.{alias_count};

/// What a stream gives is a sound history, such as reading gives it.
pub fn what_is_read_is_sound()
    ensures { (bytes : List ℕ) (events : List PlainEvent) →
        stream_of bytes ≡ Ok events → IsAsRead events }
{}

/// What a stream gives is written as a text that is read again as the same history.
pub fn what_is_read_is_read_again()
    ensures { (bytes : List ℕ) (events : List PlainEvent) →
        stream_of bytes ≡ Ok events →
        history_in (text events) ≡ Some events }
{}

/// What a stream gives passes none of the limits of events, operations and aliases.
pub fn what_is_read_passes_no_limit()
    ensures { (bytes : List ℕ) (events : List PlainEvent) → stream_of bytes ≡ Ok events →
        (length events ≤ MAX_EVENTS) × (ops_in events ≤ MAX_OPERATIONS)
        × (alias_count events ≤ MAX_ALIASES) }
{}

/// The id of each event is its place, from 1.
pub fn ids_are_places()
    ensures { (front back : List PlainEvent) (e : PlainEvent) → IsAsRead (front ++ e ∷ back) →
        id_number (id_of e) ≡ length front + 1 }
{}

/// A mark that is none or is there twice, be it of a blob, of a tag or an alias; a parent that is
/// there twice or not before; a root where its branch has a tip; an operation on what is no path; and
/// a tag of what isn't there before.
pub fn what_reading_never_gives()
    ensures no_mark { (front back : List PlainEvent) (id : ℕ) (bytes : List ℕ) →
        IsAsRead (front ++ Blob id 0 bytes ∷ back) → ⊥ }
    ensures mark_twice { (front back : List PlainEvent) (id mark : ℕ) (bytes : List ℕ) →
        IsTrue (is_marked front mark) → IsAsRead (front ++ Blob id mark bytes ∷ back) → ⊥ }
    ensures tag_mark_twice { (front back : List PlainEvent) (id target : ℕ) (name : List ℕ)
        (tagger : Option Signed) (comment : List ℕ) (mark : ℕ) → IsTrue (is_marked front mark) →
        IsAsRead (front ++ Tag id name target tagger comment (Some mark) ∷ back) → ⊥ }
    ensures alias_twice { (front back : List PlainEvent) (id mark : ℕ) (branch : List ℕ)
        (author committer : Signed) (encoding : Option (List ℕ)) (comment parents : List ℕ)
        (ops : List FileOp) (alias : ℕ) (aliases : List ℕ) → IsTrue (is_marked front alias) →
        IsAsRead (front ++ Commit id mark branch author committer encoding comment parents ops
        (alias ∷ aliases) ∷ back) → ⊥ }
    ensures own_alias { (front back : List PlainEvent) (id mark : ℕ) (branch : List ℕ)
        (author committer : Signed) (encoding : Option (List ℕ)) (comment parents : List ℕ)
        (ops : List FileOp) (aliases : List ℕ) → IsAsRead (front ++ Commit id mark branch author
        committer encoding comment parents ops (mark ∷ aliases) ∷ back) → ⊥ }
    ensures parent_twice { (front back : List PlainEvent) (id mark : ℕ) (branch : List ℕ)
        (author committer : Signed) (encoding : Option (List ℕ)) (comment : List ℕ) (p : ℕ)
        (ops : List FileOp) (aliases : List ℕ) → IsAsRead (front ++ Commit id mark branch author
        committer encoding comment (p ∷ p ∷ []) ops aliases ∷ back) → ⊥ }
    ensures later_parent { (front back : List PlainEvent) (id mark : ℕ) (branch : List ℕ)
        (author committer : Signed) (encoding : Option (List ℕ)) (comment : List ℕ) (p : ℕ)
        (ps : List ℕ) (ops : List FileOp) (aliases : List ℕ) →
        IsFalse (has_id front (any.Commit p)) → IsAsRead (front ++ Commit id mark branch author
        committer encoding comment (p ∷ ps) ops aliases ∷ back) → ⊥ }
    ensures root_on_tip { (front back : List PlainEvent) (id mark : ℕ) (branch : List ℕ)
        (author committer : Signed) (encoding : Option (List ℕ)) (comment : List ℕ) (tip : ℕ)
        (ops : List FileOp) (aliases : List ℕ) → at (refs front) branch ≡ Some tip →
        IsAsRead (front ++ Commit id mark branch author committer encoding comment [] ops aliases
        ∷ back) → ⊥ }
    ensures no_path { (front back : List PlainEvent) (id mark : ℕ) (branch : List ℕ)
        (author committer : Signed) (encoding : Option (List ℕ)) (comment : List ℕ)
        (parents path : List ℕ) (fault : PathFault) (ops : List FileOp) (aliases : List ℕ) →
        path_fault path ≡ Some fault → IsAsRead (front ++ Commit id mark branch author committer
        encoding comment parents (Delete path ∷ ops) aliases ∷ back) → ⊥ }
    ensures later_target { (front back : List PlainEvent) (id target : ℕ) (name : List ℕ)
        (tagger : Option Signed) (comment : List ℕ) (mark : Option ℕ) →
        IsFalse (has_id front (any.Commit target)) →
        IsAsRead (front ++ Tag id name target tagger comment mark ∷ back) → ⊥ }
{}
