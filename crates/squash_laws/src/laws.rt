//! Laws of a squash, first of what is left, then of trees. Each function's contract is one, and its body is empty, or
//! calls the law that the tree check finds what has no tree.
ghost use Rattle.std.specs.Prelude.{◌≡◌, ◌&&◌, ℕ, List, Ok, IsOk, not};
ghost use Rattle.std.specs.List.{AllByRecursion};
ghost use Rattle.plain_model.specs.declared.event.PlainEvent.{PlainEvent};
ghost use Rattle.plain_model.specs.declared.id.AnyId.{AnyId};
ghost use Rattle.plain_model.specs.declared.id.AnyId.TheVariants as any;
ghost use Rattle.plain_model.specs.Histories.{nodes, tree};
ghost use Rattle.plain_model.specs.Lookups.{AreIdsBelow};
ghost use Rattle.plain_model.specs.Snapshots.{shown_tree};
ghost use Rattle.plain_model.specs.Soundness.{IsCommitOf, IsSound, has_id};
ghost use Rattle.edit_laws.specs.Equations.{Fits};
ghost use Rattle.edit_laws.specs.Editing.{IsEdit, with_number};
ghost use Rattle.edit_laws.specs.Passing.{IsWithinLimits};
ghost use Rattle.plain_model.specs.declared.policy.Lean.{Lean};
ghost use Rattle.plain_model.specs.declared.policy.Policy.{Policy};
ghost use Rattle.plain_model.specs.declared.policy.Push.TheVariants as push;
ghost use Rattle.squash_laws.specs.Squash.{squash_of};
ghost use Rattle.squash_laws.specs.Remaining.{
  HasParentsFor,
  IsBareOneOf,
  IsOneOn,
  is_staying,
  stand_for,
};
ghost use Rattle.edit_laws.specs.Keeping.{AddsNothing, HasOperationsOf, IsNoBlob};
ghost use Rattle.edit_laws.specs.Sweeping.{is_named};
ghost use Rattle.squash_laws.specs.Removed.{is_removed};
ghost use Rattle.squash_laws.specs.Takings.{last_hanging, squashed};

/// Settling what a squash leaves comes to its end, so no parents run in a circle.
pub fn a_squash_comes_to_its_end()
    ensures { (how : Policy) (set : List AnyId) (events : List PlainEvent) → IsSound events →
        IsOk (squashed set events how) }
{}

/// After a squash the commits that aren't of the set are there, and no others.
pub fn a_squash_removes_its_commits()
    ensures { (how : Policy) (set : List AnyId) (events new : List PlainEvent) → IsSound events →
        squash_of how set events ≡ Ok new → (c : ℕ) →
        has_id new (any.Commit c) ≡ has_id events (any.Commit c) && not (is_removed set c) }
{}

/// A sound history stays sound.
pub fn a_squash_keeps_soundness()
    ensures { (how : Policy) (set : List AnyId) (events new : List PlainEvent) → IsSound events →
        squash_of how set events ≡ Ok new → IsSound new }
{}

/// No event, id or mark is added, nor an alias, and ids stay below whatever bound they were.
pub fn nothing_is_added()
    ensures added { (how : Policy) (set : List AnyId) (events new : List PlainEvent) →
        IsSound events → squash_of how set events ≡ Ok new → AddsNothing events new }
    ensures below { (how : Policy) (set : List AnyId) (events new : List PlainEvent) (next : ℕ) →
        IsSound events → squash_of how set events ≡ Ok new →
        AreIdsBelow next events → AreIdsBelow next new }
{}

/// Of all events but blobs those stay that aren't of the set, and no others; a tag or a reset only where there is a commit for it. A blob
/// leaves exactly where an operation named it, and none names it any more.
pub fn no_other_event_leaves()
    ensures others { (how : Policy) (set : List AnyId) (events new : List PlainEvent) →
        IsSound events → squash_of how set events ≡ Ok new → (id : AnyId) → IsNoBlob id →
        has_id new id ≡ is_staying how set events id }
    ensures blobs { (how : Policy) (set : List AnyId) (events new : List PlainEvent) →
        IsSound events → squash_of how set events ≡ Ok new → (b : ℕ) → has_id new (any.Blob b)
        ≡ has_id events (any.Blob b) && not (is_named events b && not (is_named new b)) }
{}

/// Each event that stays is as it was, but for the comment, the parents and the operations of a commit and the target of
/// a tag or a reset: marks and aliases, branches and names, people, encodings and blobs are the same.
pub fn what_stays_is_as_it_was()
    ensures { (how : Policy) (set : List AnyId) (events new : List PlainEvent) → IsSound events →
        squash_of how set events ≡ Ok new → AllByRecursion (IsBareOneOf events) new }
{}

/// Each commit that stays has what stands for its old parents: one that stays for itself, a removed one by its own parents. After a
/// deletion all else of each event is as it was.
pub fn parents_give_way_to_their_parents()
    ensures parents { (how : Policy) (set : List AnyId) (events new : List PlainEvent) →
        IsSound events → squash_of how set events ≡ Ok new →
        AllByRecursion (HasParentsFor set events) (nodes new) }
    ensures deletion { (set : List AnyId) (events : List PlainEvent) (tags : Lean)
        (new : List PlainEvent) → IsSound events →
        squash_of (record { push = push.Discard; tags = tags }) set events ≡ Ok new →
        AllByRecursion (IsOneOn (stand_for set events) events) new }
{}

/// What isn't refused is within the limits.
pub fn a_squash_keeps_the_limits()
    ensures { (how : Policy) (set : List AnyId) (events new : List PlainEvent) → IsSound events →
        squash_of how set events ≡ Ok new → IsWithinLimits new }
{}

/// After a push forward each commit that is there has the tree that it had, with the same bytes in it.
pub fn a_push_forward_keeps_trees()
    ensures trees { (set : List AnyId) (events : List PlainEvent) (tags : Lean)
        (new : List PlainEvent) → IsSound events →
        squash_of (record { push = push.Forward; tags = tags }) set events ≡ Ok new → (c : ℕ) →
        IsCommitOf new c → tree new c ≡ tree events c }
    ensures shown { (set : List AnyId) (events : List PlainEvent) (tags : Lean)
        (new : List PlainEvent) → IsSound events →
        squash_of (record { push = push.Forward; tags = tags }) set events ≡ Ok new → (c : ℕ) →
        IsCommitOf new c → shown_tree new c ≡ shown_tree events c }
{}

/// After a push back a commit has the tree of the last removed commit that hung on it, and where none did, its own.
pub fn a_push_back_gives_the_last_tree()
    ensures trees { (set : List AnyId) (events : List PlainEvent) (tags : Lean)
        (new : List PlainEvent) → IsSound events →
        squash_of (record { push = push.Back; tags = tags }) set events ≡ Ok new → (c : ℕ) →
        IsCommitOf new c → tree new c ≡ tree events (last_hanging set events c) }
    ensures shown { (set : List AnyId) (events : List PlainEvent) (tags : Lean)
        (new : List PlainEvent) → IsSound events →
        squash_of (record { push = push.Back; tags = tags }) set events ≡ Ok new → (c : ℕ) →
        IsCommitOf new c → shown_tree new c ≡ shown_tree events (last_hanging set events c) }
{}

/// After a deletion each commit has the operations that it had, and its tree is what they make of its first parent's.
pub fn a_deletion_replays_what_remains()
    ensures ops { (set : List AnyId) (events : List PlainEvent) (tags : Lean)
        (new : List PlainEvent) → IsSound events →
        squash_of (record { push = push.Discard; tags = tags }) set events ≡ Ok new →
        AllByRecursion (HasOperationsOf events) (nodes new) }
    ensures trees { (set : List AnyId) (events : List PlainEvent) (tags : Lean)
        (new : List PlainEvent) → IsSound events →
        squash_of (record { push = push.Discard; tags = tags }) set events ≡ Ok new →
        AllByRecursion (Fits (tree new)) (nodes new) }
{}

/// A squash is an edit that gives no number: of a lawful history it makes a lawful one.
pub fn a_squash_is_an_edit()
    ensures { (how : Policy) → IsEdit (λ set next events.
        with_number next (squash_of how set events)) }
{}
