//! Laws of a coalescing. Each function's contract is one, and its body is empty.
ghost use Rattle.std.specs.Prelude.{◌≡◌, ◌&&◌, ℕ, [], ◌∷◌, List, Ok, Some, IsTrue, not};
ghost use Rattle.std.specs.List.{AllByRecursion};
ghost use Rattle.plain_model.specs.declared.event.PlainEvent.{PlainEvent};
ghost use Rattle.plain_model.specs.declared.id.AnyId.{AnyId};
ghost use Rattle.plain_model.specs.declared.id.AnyId.TheVariants as any;
ghost use Rattle.plain_model.specs.Histories.{nodes};
ghost use Rattle.plain_model.specs.Lookups.{AreIdsBelow, children_of, find_event, is_listed};
ghost use Rattle.plain_model.specs.Soundness.{IsSound, has_id};
ghost use Rattle.edit_laws.specs.Editing.{IsEdit, with_number};
ghost use Rattle.edit_laws.specs.Passing.{IsWithinLimits};
ghost use Rattle.coalesce_laws.specs.Coalesce.{coalesce_of, coalesced, is_joined_to, joined_ones};
ghost use Rattle.coalesce_laws.specs.Remaining.{HasTheOperationsOf, IsJoinedTo, TakesOver};
ghost use Rattle.edit_laws.specs.Keeping.{IsOneOf, HasTreesOf, AddsNothing};

/// Settling what a coalescing leaves comes to its end, so no parents run in a circle.
pub fn a_coalescing_comes_to_its_end()
    ensures { (seconds : ℕ) (set : List AnyId) (events : List PlainEvent) → IsSound events →
        coalesced seconds set events ≡ Ok (coalesce_of seconds set events) }
{}

/// Every event stays but the commits that are joined to a next one: blobs, tags and resets too. A joined commit has
/// exactly one child, and both were selected.
pub fn only_joined_commits_go()
    ensures events { (seconds : ℕ) (set : List AnyId) (events : List PlainEvent) → IsSound events →
        (id : AnyId) → has_id (coalesce_of seconds set events) id
        ≡ has_id events id && not (is_listed id (joined_ones seconds set events)) }
    ensures joined { (seconds : ℕ) (set : List AnyId) (events : List PlainEvent) → IsSound events →
        (c : ℕ) → IsTrue (is_listed (any.Commit c) (joined_ones seconds set events)) →
        IsJoinedTo set events c }
{}

/// Whether a commit with one child is joined to a next one is decided by that child alone.
pub fn an_only_child_decides()
    ensures { (seconds : ℕ) (set : List AnyId) (events : List PlainEvent) (c d : ℕ)
        (e child : PlainEvent) → IsSound events → find_event (any.Commit c) events ≡ Some e →
        find_event (any.Commit d) events ≡ Some child → children_of c events ≡ d ∷ [] →
        is_listed (any.Commit c) (joined_ones seconds set events)
        ≡ is_joined_to seconds set events e child }
{}

/// Where no commit is joined to a next one, nothing changes.
pub fn nothing_changes_where_none_is_joined()
    ensures { (seconds : ℕ) (set : List AnyId) (events : List PlainEvent) → IsSound events →
        joined_ones seconds set events ≡ [] → coalesce_of seconds set events ≡ events }
{}

/// A sound history stays sound.
pub fn a_coalescing_keeps_soundness()
    ensures { (seconds : ℕ) (set : List AnyId) (events : List PlainEvent) → IsSound events →
        IsSound (coalesce_of seconds set events) }
{}

/// No event, id, mark or alias is added, and ids stay below whatever bound they were.
pub fn nothing_is_added()
    ensures added { (seconds : ℕ) (set : List AnyId) (events : List PlainEvent) → IsSound events →
        AddsNothing events (coalesce_of seconds set events) }
    ensures below { (seconds : ℕ) (set : List AnyId) (events : List PlainEvent) (next : ℕ) →
        IsSound events → AreIdsBelow next events → AreIdsBelow next (coalesce_of seconds set events) }
{}

/// Each event that stays is as it was, but for the parents and the operations of a commit and the target of a tag or a
/// reset: no comment is changed.
pub fn what_stays_is_as_it_was()
    ensures { (seconds : ℕ) (set : List AnyId) (events : List PlainEvent) → IsSound events →
        AllByRecursion (IsOneOf events) (coalesce_of seconds set events) }
{}

/// A commit has the parents of the oldest joined one before it, and the operations of all of these, oldest first, before
/// its own; no `deleteall` is put before them.
pub fn commits_take_over_the_joined_ones()
    ensures { (seconds : ℕ) (set : List AnyId) (events : List PlainEvent) → IsSound events →
        AllByRecursion (TakesOver (joined_ones seconds set events) events)
        (nodes (coalesce_of seconds set events)) }
{}

/// All operations are there, each as often as before.
pub fn operations_only_move()
    ensures { (seconds : ℕ) (set : List AnyId) (events : List PlainEvent) → IsSound events →
        HasTheOperationsOf events (coalesce_of seconds set events) }
{}

/// A history within the limits stays so.
pub fn a_coalescing_keeps_the_limits()
    ensures { (seconds : ℕ) (set : List AnyId) (events : List PlainEvent) → IsSound events →
        IsWithinLimits events → IsWithinLimits (coalesce_of seconds set events) }
{}

/// Each commit that is there has the tree that it had, with the same bytes in it.
pub fn a_coalescing_keeps_trees()
    ensures { (seconds : ℕ) (set : List AnyId) (events : List PlainEvent) → IsSound events →
        HasTreesOf events (coalesce_of seconds set events) }
{}

/// A coalesce is an edit that gives no number and is never refused: of a lawful history it makes a lawful one.
pub fn a_coalesce_is_an_edit()
    ensures { (seconds : ℕ) → IsEdit (λ set next events.
        with_number next (Ok (coalesce_of seconds set events))) }
{}
