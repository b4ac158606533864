//! Laws of a push forward after another edit. Each function's contract is one, and its body is empty.
ghost use Rattle.std.specs.Prelude.{
  ◌≡◌,
  ◌≤◌,
  ◌&&◌,
  ℕ,
  Bool,
  List,
  Ok,
  Err,
  IsOk,
  if◌then◌else◌,
  length,
  nat_lt,
  not,
  true,
};
ghost use Rattle.std.specs.List.{AllByRecursion, list_any};
ghost use Rattle.plain_model.specs.declared.event.PlainEvent.{PlainEvent};
ghost use Rattle.plain_model.specs.declared.fault.Fault.TheVariants as fault;
ghost use Rattle.plain_model.specs.declared.fault.Which.TheVariants as limit;
ghost use Rattle.plain_model.specs.declared.id.AnyId.{AnyId};
ghost use Rattle.plain_model.specs.declared.id.AnyId.TheVariants as any;
ghost use Rattle.plain_model.specs.declared.limit.TheConstants.{
  MAX_ALIASES,
  MAX_EVENTS,
  MAX_OPERATIONS,
  MAX_PARENTS,
};
ghost use Rattle.plain_model.specs.Histories.{nodes, tree};
ghost use Rattle.plain_model.specs.Lookups.{AreIdsBelow, alias_count, event_parents};
ghost use Rattle.plain_model.specs.Snapshots.{shown_tree};
ghost use Rattle.plain_model.specs.Soundness.{IsCommitOf, IsSound, has_id};
ghost use Rattle.history_laws.specs.FirstParents.{ops_along};
ghost use Rattle.edit_laws.specs.Keeping.{AddsNothing};
ghost use Rattle.edit_laws.specs.Passing.{IsWithinLimits};
ghost use Rattle.edit_laws.specs.Sweeping.{is_named};
ghost use Rattle.squash_laws.specs.Squash.{squash_of};
ghost use Rattle.squash_laws.specs.Remaining.{IsBareOneOf};
ghost use Rattle.squash_laws.specs.Removed.{is_removed};
ghost use Rattle.plain_model.specs.declared.policy.Lean.{Lean};
ghost use Rattle.plain_model.specs.declared.policy.Push.TheVariants as push;
ghost use Rattle.expunge_laws.specs.PushForward.{push_forward_of, pushed_forward};

/// A push forward of a sound history comes to its end, and what it leaves is sound and within the limits: the commits
/// that aren't of the set, each with the tree that it had, with the same bytes in it.
pub fn a_push_forward_finishes_an_edit()
    ensures ends { (before : List PlainEvent) (set : List AnyId) (events : List PlainEvent)
        (comments : Bool) (tags : Lean) → IsSound events →
        IsOk (pushed_forward before set events comments tags) }
    ensures commits { (before : List PlainEvent) (set : List AnyId) (events : List PlainEvent)
        (comments : Bool) (tags : Lean) (new : List PlainEvent) → IsSound events →
        push_forward_of before set events comments tags ≡ Ok new → (c : ℕ) →
        has_id new (any.Commit c) ≡ has_id events (any.Commit c) && not (is_removed set c) }
    ensures trees { (before : List PlainEvent) (set : List AnyId) (events : List PlainEvent)
        (comments : Bool) (tags : Lean) (new : List PlainEvent) → IsSound events →
        push_forward_of before set events comments tags ≡ Ok new → (c : ℕ) → IsCommitOf new c →
        tree new c ≡ tree events c }
    ensures shown { (before : List PlainEvent) (set : List AnyId) (events : List PlainEvent)
        (comments : Bool) (tags : Lean) (new : List PlainEvent) → IsSound events →
        push_forward_of before set events comments tags ≡ Ok new → (c : ℕ) → IsCommitOf new c →
        shown_tree new c ≡ shown_tree events c }
    ensures sound { (before : List PlainEvent) (set : List AnyId) (events : List PlainEvent)
        (comments : Bool) (tags : Lean) (new : List PlainEvent) → IsSound events →
        push_forward_of before set events comments tags ≡ Ok new → IsSound new }
    ensures limits { (before : List PlainEvent) (set : List AnyId) (events : List PlainEvent)
        (comments : Bool) (tags : Lean) (new : List PlainEvent) → IsSound events →
        push_forward_of before set events comments tags ≡ Ok new → IsWithinLimits new }

    // A blob leaves that was named before the other edit, and is named no more.
    ensures blobs { (before : List PlainEvent) (set : List AnyId) (events : List PlainEvent)
        (comments : Bool) (tags : Lean) (new : List PlainEvent) → IsSound events →
        push_forward_of before set events comments tags ≡ Ok new → (b : ℕ) → has_id new (any.Blob b)
        ≡ has_id events (any.Blob b) && not (is_named before b && not (is_named new b)) }
{}

/// A push forward adds no event, id, mark or alias, and what stays is as the other edit left it, but for its links and
/// for comments.
pub fn a_push_forward_adds_nothing()
    ensures added { (before : List PlainEvent) (set : List AnyId) (events : List PlainEvent)
        (comments : Bool) (tags : Lean) (new : List PlainEvent) →
        pushed_forward before set events comments tags ≡ Ok new → AddsNothing events new }
    ensures below { (before : List PlainEvent) (set : List AnyId) (events : List PlainEvent)
        (comments : Bool) (tags : Lean) (new : List PlainEvent) (next : ℕ) →
        pushed_forward before set events comments tags ≡ Ok new →
        AreIdsBelow next events → AreIdsBelow next new }
    ensures stays { (before : List PlainEvent) (set : List AnyId) (events : List PlainEvent)
        (comments : Bool) (tags : Lean) (new : List PlainEvent) → IsSound events →
        push_forward_of before set events comments tags ≡ Ok new →
        AllByRecursion (IsBareOneOf events) new }
{}

/// Where a history had no more events and aliases than it may have, a push forward of it is refused exactly where there
/// would be too many operations, or a commit with too many parents, and names that limit.
pub fn operations_and_parents_alone_refuse_a_push_forward()
    ensures { (before : List PlainEvent) (set : List AnyId) (events : List PlainEvent)
        (comments : Bool) (tags : Lean) (new : List PlainEvent) →
        length events ≤ MAX_EVENTS → alias_count events ≤ MAX_ALIASES →
        pushed_forward before set events comments tags ≡ Ok new →
        push_forward_of before set events comments tags ≡
        (if nat_lt MAX_OPERATIONS (length (ops_along (nodes new)))
        then Err (fault.Limit limit.Operations MAX_OPERATIONS)
        else if list_any (λ e. nat_lt MAX_PARENTS (length (event_parents e))) new
        then Err (fault.Limit limit.Parents MAX_PARENTS) else Ok new) }
{}

/// A squash that pushes forward is a push forward after no other edit, with comments joined.
pub fn a_squash_pushes_forward()
    ensures { (set : List AnyId) (events : List PlainEvent) (tags : Lean) →
        squash_of (record { push = push.Forward; tags = tags }) set events
        ≡ push_forward_of events set events true tags }
{}
