//! Laws of what edits leave, first of order, then of soundness, then of trees.
ghost use Rattle.std.specs.Prelude.{
  ◌≡◌,
  ◌↔◌,
  ◌++◌,
  ◌∷◌,
  ℕ,
  [],
  Bool,
  List,
  None,
  Some,
  Err,
  Ok,
  Option,
  IsOk,
  IsSome,
  IsTrue,
  false,
  true,
  if◌then◌else◌,
};
ghost use Rattle.std.specs.List.{AllByRecursion};
ghost use Rattle.plain_model.specs.declared.event.PlainEvent.{PlainEvent};
ghost use Rattle.plain_model.specs.declared.id.AnyId.{AnyId};
ghost use Rattle.plain_model.specs.Histories.{IsLinkedPast, Node, Past, knows, node_at, nodes, past, tree};
ghost use Rattle.plain_model.specs.Lookups.{children_of};
ghost use Rattle.plain_model.specs.Snapshots.{shown_tree};
ghost use Rattle.plain_model.specs.Soundness.{IsCommitOf, IsSound};
ghost use Rattle.plain_model.specs.Trees.{Tree};
ghost use Rattle.edit_laws.specs.Blobs.{HasBytesOf};
ghost use Rattle.edit_laws.specs.Checking.{tree_check};
ghost use Rattle.edit_laws.specs.Equations.{Fits};
ghost use Rattle.edit_laws.specs.Parts.{
  AreComplete,
  AreInOrder,
  AreOnce,
  CanBeNumbered,
  CanBeSettled,
  HasFewParents,
  IsSoundInParts,
  tally,
};
ghost use Rattle.edit_laws.specs.Passing.{IsWithinLimits, limit_fault};
ghost use Rattle.edit_laws.specs.Removal.{back, chain, expand, expand_all, forward};
ghost use Rattle.edit_laws.specs.Settling.{first_commit_mark, settle};
ghost use Rattle.edit_laws.specs.Sweeping.{swept};

/// Settling puts the same events into an order in which each is after all that it refers to. A list that is in
/// such an order stays as it is.
pub fn settling_orders()
    ensures order { (events new : List PlainEvent) → settle events ≡ Ok new → AreInOrder [] new }
    ensures same { (events new : List PlainEvent) → settle events ≡ Ok new →
        (count : PlainEvent → ℕ) → tally count new ≡ tally count events }
    ensures stays { (events : List PlainEvent) → AreInOrder [] events → settle events ≡ Ok events }
{}

/// Where all that is referred to is there, settling comes to its end exactly where no parents run in a circle. Else a
/// commit is among the events that are never taken.
pub fn settling_ends_where_nothing_runs_in_a_circle()
    ensures ends { (events : List PlainEvent) → AreComplete events → CanBeNumbered events →
        IsOk (settle events) }
    ensures only { (events new : List PlainEvent) → AreOnce events → settle events ≡ Ok new →
        CanBeNumbered events }
    ensures commit { (events left : List PlainEvent) → AreComplete events →
        settle events ≡ Err left → IsSome (first_commit_mark left) }
{}

/// Soundness is the same as its parts.
pub fn soundness_has_parts()
    ensures parts { (events : List PlainEvent) → IsSound events → IsSoundInParts events }
    ensures whole { (events : List PlainEvent) → IsSoundInParts events → IsSound events }
{}

/// What an edit leaves is made sound by settling, if it can be settled, no commit has too many parents, and each
/// has a tree. What is sound can be settled, and so can what sweeping leaves.
pub fn settling_makes_sound()
    ensures sound { (events new : List PlainEvent) → CanBeSettled events → settle events ≡ Ok new →
        AllByRecursion HasFewParents new → ((c : ℕ) → IsCommitOf new c → IsSome (tree new c)) →
        IsSound new }
    ensures again { (events : List PlainEvent) → IsSound events → CanBeSettled events }
    ensures swept { (old new : List PlainEvent) → CanBeSettled new → CanBeSettled (swept old new) }
{}

/// Trees that fit each commit of a history are its trees, and settling and sweeping change none.
pub fn trees_are_those_that_fit()
    ensures fit { (events : List PlainEvent) → IsSound events →
        AllByRecursion (Fits (tree events)) (nodes events) }
    ensures only { (tree_of : ℕ → Option Tree) (events : List PlainEvent) →
        AreInOrder [] events → AllByRecursion (Fits tree_of) (nodes events) →
        (c : ℕ) → IsCommitOf events c → tree events c ≡ tree_of c }
    ensures settled { (tree_of : ℕ → Option Tree) (events new : List PlainEvent) →
        AllByRecursion (Fits tree_of) (nodes events) → settle events ≡ Ok new →
        (c : ℕ) → IsCommitOf new c → tree new c ≡ tree_of c }
    ensures swept { (old new : List PlainEvent) → nodes (swept old new) ≡ nodes new }
{}

/// No limit is reported exactly where a list has no more events, operations, aliases and parents of a commit than a
/// history may have.
pub fn a_passed_limit_is_found()
    ensures { (events : List PlainEvent) →
        (limit_fault events ≡ None) ↔ IsWithinLimits events }
{}

/// Where ids occur once and each event is after all that it refers to, parents are earlier commits, as the tree check
/// asks.
pub fn a_list_in_order_is_linked()
    ensures { (events : List PlainEvent) → AreOnce events → AreInOrder [] events →
        IsLinkedPast (past events) }
{}

/// Where parents are earlier, the tree check answers Ok exactly where each commit has a tree.
pub fn the_check_finds_what_has_no_tree()
    ensures { (events : List PlainEvent) → IsLinkedPast (past events) →
        (((c : ℕ) → IsCommitOf events c → IsSome (tree events c)) ↔ (tree_check events ≡ Ok tt)) }
{}

/// Trees that are the same show the same, where blobs have the same bytes.
pub fn the_same_trees_show_the_same()
    ensures same { (other events : List PlainEvent) → AllByRecursion (HasBytesOf other) events →
        AreComplete events → (c d : ℕ) → tree events c ≡ tree other d →
        shown_tree events c ≡ shown_tree other d }
    ensures own { (events : List PlainEvent) → AreOnce events →
        AllByRecursion (HasBytesOf events) events }
{}

/// What a removed commit stands for follows its parents: it expands to what they expand to, a chain goes on with its
/// first parent, and so does the way back.
pub fn removed_commits_give_way_to_their_parents()
    ensures expand { (removed : ℕ → Bool) (past : Past) → IsLinkedPast past → (p : ℕ) (n : Node) →
        node_at past p ≡ Some n → removed p ≡ true →
        expand removed past p ≡ expand_all removed past n.parents }
    ensures chain { (removed : ℕ → Bool) (past : Past) → IsLinkedPast past → (p : ℕ)
        (ps : List ℕ) (n : Node) → node_at past p ≡ Some n → removed p ≡ true →
        chain removed past (p ∷ ps) ≡ chain removed past n.parents ++ n ∷ [] }
    ensures back { (removed : ℕ → Bool) (past : Past) → IsLinkedPast past → (p : ℕ)
        (ps : List ℕ) (n : Node) → node_at past p ≡ Some n → removed p ≡ true →
        back removed past (p ∷ ps) ≡ back removed past n.parents }
{}

/// A commit that stays stands for itself: it expands to itself, no chain goes through it, and the way back ends there.
pub fn commits_that_stay_stand_for_themselves()
    ensures expand { (removed : ℕ → Bool) (past : Past) (p : ℕ) → removed p ≡ false →
        expand removed past p ≡ p ∷ [] }
    ensures chain { (removed : ℕ → Bool) (past : Past) (p : ℕ) (ps : List ℕ) →
        removed p ≡ false → chain removed past (p ∷ ps) ≡ [] }
    ensures back { (removed : ℕ → Bool) (past : Past) (p : ℕ) (ps : List ℕ) → removed p ≡ false →
        IsTrue (knows past p) → back removed past (p ∷ ps) ≡ Some p }
{}

/// The way forward goes to the first child: it ends there if that stays, else it goes on from there, and from a commit
/// without children it goes nowhere.
pub fn the_way_forward_goes_to_the_first_child()
    ensures child { (removed : ℕ → Bool) (events : List PlainEvent) → IsSound events →
        (c d : ℕ) (rest : List ℕ) → children_of c events ≡ d ∷ rest →
        forward removed (nodes events) c
        ≡ (if removed d then forward removed (nodes events) d else Some d) }
    ensures childless { (removed : ℕ → Bool) (events : List PlainEvent) (c : ℕ) →
        children_of c events ≡ [] → forward removed (nodes events) c ≡ None }
{}
