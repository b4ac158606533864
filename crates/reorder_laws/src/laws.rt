//! Laws of a reorder, first of what is there, then of operations and trees. Each function's contract is one, and its body
//! is empty, or calls the law that the tree check finds what has no tree.
ghost use Rattle.std.specs.Prelude.{◌≡◌, ◌∷◌, ℕ, List, None, Ok, IsOk, length};
ghost use Rattle.std.specs.List.{AllByRecursion};
ghost use Rattle.plain_model.specs.declared.event.PlainEvent.{PlainEvent};
ghost use Rattle.plain_model.specs.declared.id.AnyId.{AnyId};
ghost use Rattle.plain_model.specs.Histories.{nodes, tree};
ghost use Rattle.plain_model.specs.Lookups.{alias_count};
ghost use Rattle.plain_model.specs.Soundness.{IsSound, has_id};
ghost use Rattle.plain_model.specs.Streams.{is_marked};
ghost use Rattle.history_laws.specs.FirstParents.{ops_along};
ghost use Rattle.edit_laws.specs.Equations.{Fits};
ghost use Rattle.edit_laws.specs.Editing.{IsEdit, with_number};
ghost use Rattle.edit_laws.specs.Passing.{IsWithinLimits};
ghost use Rattle.edit_laws.specs.Keeping.{HasOperationsOf};
ghost use Rattle.commit_laws.specs.Selected.{chosen, listed};
ghost use Rattle.edit_laws.specs.Selecting.{IsSelection};
ghost use Rattle.reorder_laws.specs.InOrder.{IsInOrder};
ghost use Rattle.reorder_laws.specs.Reorder.{line_fault, reorder_of, reordered};

/// Settling a line that is put into another order comes to its end, so no parents run in a circle.
pub fn a_line_is_settled_in_any_order()
    ensures { (set : List AnyId) (events : List PlainEvent) → IsSound events → IsSelection events set →
        (v : ℕ) (vs : List ℕ) (w : ℕ) (ws : List ℕ) → listed set events ≡ v ∷ vs → chosen set ≡ w ∷ ws →
        line_fault events v vs ≡ None → IsOk (reordered set events v vs w ws) }
{}

/// After a reorder the same ids are there.
pub fn a_reorder_keeps_the_ids()
    ensures { (set : List AnyId) (events new : List PlainEvent) → IsSound events → IsSelection events set →
        reorder_of set events ≡ Ok new → (id : AnyId) → has_id new id ≡ has_id events id }
{}

/// A sound history stays sound.
pub fn a_reorder_keeps_soundness()
    ensures { (set : List AnyId) (events new : List PlainEvent) → IsSound events → IsSelection events set →
        reorder_of set events ≡ Ok new → IsSound new }
{}

/// As many events, operations and aliases are there as before, and the same marks.
pub fn nothing_is_added()
    ensures events { (set : List AnyId) (events new : List PlainEvent) → IsSound events →
        IsSelection events set → reorder_of set events ≡ Ok new → length new ≡ length events }
    ensures operations { (set : List AnyId) (events new : List PlainEvent) → IsSound events →
        IsSelection events set → reorder_of set events ≡ Ok new →
        length (ops_along (nodes new)) ≡ length (ops_along (nodes events)) }
    ensures aliases { (set : List AnyId) (events new : List PlainEvent) → IsSound events →
        IsSelection events set → reorder_of set events ≡ Ok new → alias_count new ≡ alias_count events }
    ensures marks { (set : List AnyId) (events new : List PlainEvent) → IsSound events →
        IsSelection events set → reorder_of set events ≡ Ok new → (mark : ℕ) →
        is_marked new mark ≡ is_marked events mark }
{}

/// What was within the limits is within them afterwards.
pub fn a_reorder_keeps_the_limits()
    ensures { (set : List AnyId) (events new : List PlainEvent) → IsSound events → IsSelection events set →
        IsWithinLimits events → reorder_of set events ≡ Ok new → IsWithinLimits new }
{}

/// After a reorder the line's commits have the parents that their new order gives them: the first one those of the line, each further
/// one the commit before it. Children of the old last commit have the new last one instead. All else of each event is as it was.
pub fn a_line_is_put_in_order()
    ensures { (set : List AnyId) (events new : List PlainEvent) → IsSound events → IsSelection events set →
        reorder_of set events ≡ Ok new → IsInOrder set events new }
{}

/// After a reorder each commit has the operations that it had, and its tree is what they make of its first parent's.
pub fn a_reorder_replays_operations()
    ensures ops { (set : List AnyId) (events new : List PlainEvent) → IsSound events →
        IsSelection events set → reorder_of set events ≡ Ok new →
        AllByRecursion (HasOperationsOf events) (nodes new) }
    ensures trees { (set : List AnyId) (events new : List PlainEvent) → IsSound events →
        IsSelection events set → reorder_of set events ≡ Ok new →
        AllByRecursion (Fits (tree new)) (nodes new) }
{}

/// A reorder is an edit that gives no number: of a lawful history it makes a lawful one.
pub fn a_reorder_is_an_edit()
    ensures { IsEdit (λ set next events. with_number next (reorder_of set events)) }
{}
