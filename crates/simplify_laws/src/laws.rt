//! Laws of a simplifying. Each function's contract is one, and its body is empty, or calls the law that the tree check
//! finds what has no tree.
ghost use Rattle.std.specs.Prelude.{◌≡◌, ◌&&◌, ℕ, [], List, Ok, Err, not};
ghost use Rattle.std.specs.List.{AllByRecursion};
ghost use Rattle.plain_model.specs.declared.event.PlainEvent.{PlainEvent};
ghost use Rattle.plain_model.specs.declared.fault.Fault.{Fault};
ghost use Rattle.plain_model.specs.declared.fault.Fault.TheVariants as fault;
ghost use Rattle.plain_model.specs.declared.fault.Which.TheVariants as limit;
ghost use Rattle.plain_model.specs.declared.id.AnyId.{AnyId};
ghost use Rattle.plain_model.specs.declared.id.AnyId.TheVariants as any;
ghost use Rattle.plain_model.specs.declared.limit.TheConstants.{MAX_PATHS};
ghost use Rattle.plain_model.specs.declared.operation.FileOp.{FileOp};
ghost use Rattle.plain_model.specs.Histories.{nodes};
ghost use Rattle.plain_model.specs.Lookups.{AreIdsBelow};
ghost use Rattle.plain_model.specs.Soundness.{IsSound, has_id};
ghost use Rattle.plain_model.specs.Trees.{IsTree, Tree, apply_all};
ghost use Rattle.edit_laws.specs.Editing.{IsEdit, with_number};
ghost use Rattle.edit_laws.specs.Passing.{IsWithinLimits};
ghost use Rattle.edit_laws.specs.Sweeping.{is_named};
ghost use Rattle.simplify_laws.specs.Remaining.{CanBeCarriedOut, IsSimplified};
ghost use Rattle.edit_laws.specs.Keeping.{IsNoBlob, KeepsTrees, AddsNothing};
ghost use Rattle.simplify_laws.specs.Simplify.{is_void, simpler, simplified, simplify_of};

/// Where all operations and those that are left can be carried out, both make the same tree.
pub fn what_is_dropped_does_not_show()
    ensures { (ops : List FileOp) (old all left : Tree) → IsTree old → apply_all ops old ≡ Ok all →
        apply_all (simpler ops) old ≡ Ok left → left ≡ all }
{}

/// Whether an operation is void is the same by all operations after it and by those that are left of them.
pub fn it_goes_by_either_list()
    ensures { (op : FileOp) (later : List FileOp) → is_void op (simpler later) ≡ is_void op later }
{}

/// Each commit has the tree that it had, with the same bytes in it.
pub fn simplifying_keeps_trees()
    ensures { (set : List AnyId) (events new : List PlainEvent) → IsSound events →
        simplify_of set events ≡ Ok new → KeepsTrees events new }
{}

/// A sound history stays sound.
pub fn simplifying_keeps_soundness()
    ensures { (set : List AnyId) (events new : List PlainEvent) → IsSound events →
        simplify_of set events ≡ Ok new → IsSound new }
{}

/// A history within the limits stays so.
pub fn simplifying_keeps_the_limits()
    ensures { (set : List AnyId) (events new : List PlainEvent) → IsWithinLimits events →
        simplify_of set events ≡ Ok new → IsWithinLimits new }
{}

/// The same ids are there, but for blobs.
pub fn simplifying_keeps_the_ids()
    ensures { (set : List AnyId) (events new : List PlainEvent) → simplify_of set events ≡ Ok new →
        (id : AnyId) → IsNoBlob id → has_id new id ≡ has_id events id }
{}

/// A blob goes where an operation named it before, and none names it afterwards.
pub fn blobs_go_where_nothing_names_them()
    ensures { (set : List AnyId) (events new : List PlainEvent) → simplify_of set events ≡ Ok new →
        (blob : ℕ) → has_id new (any.Blob blob)
        ≡ has_id events (any.Blob blob) && not (is_named events blob && not (is_named new blob)) }
{}

/// No event, id, mark or alias is added, and ids stay below whatever bound they were.
pub fn nothing_is_added()
    ensures added { (set : List AnyId) (events new : List PlainEvent) →
        simplify_of set events ≡ Ok new → AddsNothing events new }
    ensures below { (set : List AnyId) (events new : List PlainEvent) (next : ℕ) →
        simplify_of set events ≡ Ok new → AreIdsBelow next events → AreIdsBelow next new }
{}

/// Each event is as it was, but for the operations of a selected commit, which are those that aren't void.
pub fn selected_commits_are_simpler()
    ensures { (set : List AnyId) (events new : List PlainEvent) → IsSound events →
        simplify_of set events ≡ Ok new → AllByRecursion (IsSimplified set events) new }
{}

/// Of all that a tree can refuse only the number of its paths can come: a dropped operation had made room that a later
/// one needs.
pub fn only_the_number_of_paths_is_refused()
    ensures { (set : List AnyId) (events : List PlainEvent) (why : Fault) → IsSound events →
        simplify_of set events ≡ Err why → why ≡ fault.Limit limit.Paths MAX_PATHS }
{}

/// It is done exactly where the operations that are left of each commit can be carried out on the old tree of its first
/// parent.
pub fn it_is_done_where_operations_can_be()
    ensures done { (set : List AnyId) (events : List PlainEvent) → IsSound events →
        AllByRecursion (CanBeCarriedOut set events) (nodes events) →
        simplify_of set events ≡ Ok (simplified set events) }
    ensures only { (set : List AnyId) (events new : List PlainEvent) → IsSound events →
        simplify_of set events ≡ Ok new → AllByRecursion (CanBeCarriedOut set events) (nodes events) }
{}

/// What was simplified has nothing more that is void; and nothing changes where no commit is selected.
pub fn simplifying_again_changes_nothing()
    ensures again { (set : List AnyId) (events new : List PlainEvent) →
        simplify_of set events ≡ Ok new → simplify_of set new ≡ Ok new }
    ensures none { (events : List PlainEvent) → IsSound events → simplify_of [] events ≡ Ok events }
{}

/// A simplify is an edit that gives no number: of a lawful history it makes a lawful one.
pub fn a_simplify_is_an_edit()
    ensures { IsEdit (λ set next events. with_number next (simplify_of set events)) }
{}
