//! Laws of a split. Each function's contract is one, and its body is empty. The commit is there, and no commit has the id of the
//! copy.
ghost use Rattle.std.specs.Prelude.{◌≡◌, ◌∷◌, ◌+◌, ℕ, [], List, Ok, IsFalse};
ghost use Rattle.plain_model.specs.declared.event.PlainEvent.{PlainEvent};
ghost use Rattle.plain_model.specs.declared.id.AnyId.TheVariants as any;
ghost use Rattle.plain_model.specs.declared.id.AnyId.{AnyId};
ghost use Rattle.plain_model.specs.Lookups.{AreIdsBelow};
ghost use Rattle.plain_model.specs.Paths.{Bytes};
ghost use Rattle.plain_model.specs.Soundness.{IsCommitOf, IsSound, has_id};
ghost use Rattle.edit_laws.specs.Editing.{IsEdit, with_number};
ghost use Rattle.edit_laws.specs.Passing.{IsWithinLimits};
ghost use Rattle.split_laws.specs.Split.{split_at_of, split_by_of};
ghost use Rattle.split_laws.specs.SplitTrees.{IsFirstTouch, IsInHalves, KeepsOtherTrees};

/// A split that isn't refused is of one event, which is a commit.
pub fn a_split_is_of_one_commit()
    ensures at { (copy number : ℕ) (set : List AnyId) (events new : List PlainEvent) →
        split_at_of copy number set events ≡ Ok new → (c : ℕ) × (set ≡ any.Commit c ∷ []) }
    ensures by { (copy : ℕ) (path : Bytes) (set : List AnyId) (events new : List PlainEvent) →
        split_by_of copy path set events ≡ Ok new → (c : ℕ) × (set ≡ any.Commit c ∷ []) }
{}

/// A split puts the commit's operations into two halves, from the one of a number on, or from the first that touches a path. What was on
/// the commit is on its copy, and nothing else of an event changes.
pub fn a_split_makes_two_halves()
    ensures at { (copy number c : ℕ) (events new : List PlainEvent) →
        split_at_of copy number (any.Commit c ∷ []) events ≡ Ok new →
        IsInHalves c copy number events new }
    ensures by { (copy : ℕ) (path : Bytes) (c : ℕ) (events new : List PlainEvent) →
        split_by_of copy path (any.Commit c ∷ []) events ≡ Ok new →
        (number : ℕ) × IsFirstTouch path c events number × IsInHalves c copy number events new }
{}

/// After a split the copy has the tree that the commit had, and every other commit has its own, with the same bytes.
pub fn a_split_keeps_trees()
    ensures at { (copy number c : ℕ) (events new : List PlainEvent) → IsSound events →
        IsCommitOf events c → IsFalse (has_id events (any.Commit copy)) →
        split_at_of copy number (any.Commit c ∷ []) events ≡ Ok new → KeepsOtherTrees c copy events new }
    ensures by { (copy : ℕ) (path : Bytes) (c : ℕ) (events new : List PlainEvent) → IsSound events →
        IsCommitOf events c → IsFalse (has_id events (any.Commit copy)) →
        split_by_of copy path (any.Commit c ∷ []) events ≡ Ok new → KeepsOtherTrees c copy events new }
{}

/// A sound history stays sound.
pub fn a_split_keeps_soundness()
    ensures at { (copy number c : ℕ) (events new : List PlainEvent) → IsSound events →
        IsCommitOf events c → IsFalse (has_id events (any.Commit copy)) →
        split_at_of copy number (any.Commit c ∷ []) events ≡ Ok new → IsSound new }
    ensures by { (copy : ℕ) (path : Bytes) (c : ℕ) (events new : List PlainEvent) → IsSound events →
        IsCommitOf events c → IsFalse (has_id events (any.Commit copy)) →
        split_by_of copy path (any.Commit c ∷ []) events ≡ Ok new → IsSound new }
{}

/// What isn't refused is within the limits.
pub fn a_split_keeps_the_limits()
    ensures at { (copy number c : ℕ) (events new : List PlainEvent) →
        split_at_of copy number (any.Commit c ∷ []) events ≡ Ok new → IsWithinLimits new }
    ensures by { (copy : ℕ) (path : Bytes) (c : ℕ) (events new : List PlainEvent) →
        split_by_of copy path (any.Commit c ∷ []) events ≡ Ok new → IsWithinLimits new }
{}

/// The copy's id alone is new: where all were below it, all are below the next one.
pub fn a_split_adds_one_id()
    ensures at { (copy number : ℕ) (set : List AnyId) (events new : List PlainEvent) →
        split_at_of copy number set events ≡ Ok new → AreIdsBelow copy events →
        AreIdsBelow (copy + 1) new }
    ensures by { (copy : ℕ) (path : Bytes) (set : List AnyId) (events new : List PlainEvent) →
        split_by_of copy path set events ≡ Ok new → AreIdsBelow copy events →
        AreIdsBelow (copy + 1) new }
{}

/// A split is an edit that gives one number: of a lawful history it makes a lawful one.
pub fn a_split_is_an_edit()
    ensures at { (number : ℕ) → IsEdit (λ set next events.
        with_number (next + 1) (split_at_of next number set events)) }
    ensures by { (path : Bytes) → IsEdit (λ set next events.
        with_number (next + 1) (split_by_of next path set events)) }
{}
