//! Laws of a change of one commit, first of what is there, then of operations and trees. Each function's contract is
//! one, and its body is empty, or calls the law that the tree check finds what has no tree.
ghost use Rattle.std.specs.Prelude.{
  ◌≡◌,
  ◌≤◌,
  ◌<◌,
  ◌++◌,
  ◌∷◌,
  ◌==◌,
  ◌&&◌,
  ℕ,
  [],
  Bool,
  List,
  None,
  Some,
  Ok,
  IsFalse,
  IsOk,
  IsTrue,
  false,
  length,
  not,
  true,
};
ghost use Rattle.std.specs.List.{AllByRecursion, list_any};
ghost use Rattle.plain_model.specs.declared.event.PlainEvent.{PlainEvent};
ghost use Rattle.plain_model.specs.declared.id.AnyId.{AnyId};
ghost use Rattle.plain_model.specs.declared.id.AnyId.TheVariants as any;
ghost use Rattle.plain_model.specs.declared.limit.TheConstants.{MAX_PATHS};
ghost use Rattle.plain_model.specs.declared.operation.FileOp.{FileOp};
ghost use Rattle.plain_model.specs.declared.operation.FileOp.TheVariants.{DeleteAll};
ghost use Rattle.plain_model.specs.declared.raw.RawOp.{RawOp};
ghost use Rattle.plain_model.specs.Fields.{HasItsContent, OpFits};
ghost use Rattle.plain_model.specs.Histories.{nodes, tree};
ghost use Rattle.plain_model.specs.Soundness.{IsCommitOf, IsSound, are_distinct, has_id};
ghost use Rattle.plain_model.specs.Trees.{IsTree, Tree, apply_all};
ghost use Rattle.ancestry_laws.specs.Ancestry.{IsPathOfParents};
ghost use Rattle.edit_laws.specs.Equations.{Fits};
ghost use Rattle.edit_laws.specs.Editing.{IsEdit, with_number};
ghost use Rattle.edit_laws.specs.Passing.{IsWithinLimits};
ghost use Rattle.edit_laws.specs.Settling.{settle};
ghost use Rattle.edit_laws.specs.Sweeping.{is_named};
ghost use Rattle.edit_laws.specs.Keeping.{HasOperationsOf, KeepsTrees, AddsNothing, IsNoBlob};
ghost use Rattle.commit_laws.specs.Rewriting.{rewritten_all};
ghost use Rattle.commit_laws.specs.Selected.{listed, node_of};
ghost use Rattle.history_laws.specs.Finding.{event_number};
ghost use Rattle.edit_laws.specs.Selecting.{IsSelection};
ghost use Rattle.edit_laws.specs.Puts.{puts_of};
ghost use Rattle.reparent_laws.specs.declared.removal.Removal.{Removal};
ghost use Rattle.reparent_laws.specs.Merge.{merge_of, merges, unmerge_of, unmerges};
ghost use Rattle.reparent_laws.specs.Operations.{add_of, adds, op_of, remove_of, removes};
ghost use Rattle.reparent_laws.specs.Remaining.{IsRewritten};
ghost use Rattle.reparent_laws.specs.Reparent.{descendant, ordered, reparent_of, reparented, reparents};

/// A new parent is refused where a path of parents leads from it to the commit that is changed, and nowhere else.
pub fn a_cycle_is_a_path_of_parents()
    ensures refused { (events : List PlainEvent) (c p : ℕ) (new : List ℕ) → IsSound events →
        AllByRecursion (IsCommitOf events) new → descendant events c new ≡ Some p →
        IsPathOfParents events c p }
    ensures others { (events : List PlainEvent) (c : ℕ) (new : List ℕ) → IsSound events →
        AllByRecursion (IsCommitOf events) new → descendant events c new ≡ None →
        AllByRecursion (λ p. IsPathOfParents events c p → ⊥) new }
{}

/// Settling comes to its end where no new parent descends from the commit, and where an operation is added.
pub fn settling_comes_to_its_end()
    ensures reparent { (rebase : Bool) (events : List PlainEvent) (c : ℕ) (new : List ℕ) →
        IsSound events → IsCommitOf events c → AllByRecursion (IsCommitOf events) new →
        IsTrue (are_distinct new) → descendant events c new ≡ None →
        IsOk (reparented rebase events c new) }
    ensures add { (spelled : RawOp) (op : FileOp) (events : List PlainEvent) (c : ℕ) →
        IsSound events → HasItsContent spelled → OpFits spelled → op_of events spelled ≡ Ok op →
        IsOk (settle (rewritten_all c (adds op) events)) }
{}

/// A merge joins its two commits in the order of the list: the one with the lesser event number becomes a parent of the
/// other, in whatever order they were selected.
pub fn a_merge_goes_by_event_numbers()
    ensures selected { (events : List PlainEvent) (low high : ℕ) → IsSound events →
        IsCommitOf events low → IsCommitOf events high →
        event_number events (any.Commit low) < event_number events (any.Commit high) →
        listed (any.Commit low ∷ any.Commit high ∷ []) events ≡ low ∷ high ∷ [] }
    ensures turned { (events : List PlainEvent) (low high : ℕ) → IsSound events →
        IsCommitOf events low → IsCommitOf events high →
        event_number events (any.Commit low) < event_number events (any.Commit high) →
        listed (any.Commit high ∷ any.Commit low ∷ []) events ≡ low ∷ high ∷ [] }
{}

/// A merge of a commit with one of its parents changes nothing.
pub fn a_merge_with_a_parent_changes_nothing()
    ensures { (set : List AnyId) (events new : List PlainEvent) (low high : ℕ) → IsSound events →
        merge_of set events ≡ Ok new → listed set events ≡ low ∷ high ∷ [] →
        IsTrue (list_any (λ p. p == low) (node_of events high).parents) → new ≡ events }
{}

/// The same ids are there afterwards, but for blobs after a removal.
pub fn a_change_keeps_the_ids()
    ensures reparent { (use_order rebase : Bool) (set : List AnyId) (events new : List PlainEvent) →
        IsSound events → IsSelection events set → reparent_of use_order rebase set events ≡ Ok new →
        (id : AnyId) → has_id new id ≡ has_id events id }
    ensures merge { (set : List AnyId) (events new : List PlainEvent) →
        merge_of set events ≡ Ok new → (id : AnyId) → has_id new id ≡ has_id events id }
    ensures unmerge { (set : List AnyId) (events new : List PlainEvent) →
        unmerge_of set events ≡ Ok new → (id : AnyId) → has_id new id ≡ has_id events id }
    ensures add { (spelled : RawOp) (set : List AnyId) (events new : List PlainEvent) →
        IsSound events → HasItsContent spelled → OpFits spelled →
        add_of spelled set events ≡ Ok new → (id : AnyId) → has_id new id ≡ has_id events id }
    ensures remove { (what : Removal) (set : List AnyId) (events new : List PlainEvent) →
        IsSound events → remove_of what set events ≡ Ok new →
        (id : AnyId) → IsNoBlob id → has_id new id ≡ has_id events id }
{}

/// A blob goes with a removal where an operation named it before, and none names it afterwards.
pub fn a_blob_goes_with_its_last_operation()
    ensures { (what : Removal) (set : List AnyId) (events new : List PlainEvent) → IsSound events →
        remove_of what set events ≡ Ok new → (blob : ℕ) → has_id new (any.Blob blob)
        ≡ has_id events (any.Blob blob) && not (is_named events blob && not (is_named new blob)) }
{}

/// No event, id, mark or alias is added.
pub fn nothing_is_added()
    ensures reparent { (use_order rebase : Bool) (set : List AnyId) (events new : List PlainEvent) →
        IsSound events → IsSelection events set → reparent_of use_order rebase set events ≡ Ok new →
        AddsNothing events new }
    ensures merge { (set : List AnyId) (events new : List PlainEvent) →
        merge_of set events ≡ Ok new → AddsNothing events new }
    ensures unmerge { (set : List AnyId) (events new : List PlainEvent) →
        unmerge_of set events ≡ Ok new → AddsNothing events new }
    ensures add { (spelled : RawOp) (set : List AnyId) (events new : List PlainEvent) →
        IsSound events → HasItsContent spelled → OpFits spelled →
        add_of spelled set events ≡ Ok new → AddsNothing events new }
    ensures remove { (what : Removal) (set : List AnyId) (events new : List PlainEvent) →
        IsSound events → remove_of what set events ≡ Ok new → AddsNothing events new }
{}

/// A reparent that isn't refused has a last commit, to which it gives the others as parents.
pub fn a_reparent_has_a_last_commit()
    ensures { (use_order rebase : Bool) (set : List AnyId) (events new : List PlainEvent) →
        IsSound events → IsSelection events set → reparent_of use_order rebase set events ≡ Ok new →
        (others : List ℕ) × (c : ℕ) × (ordered use_order set events ≡ others ++ c ∷ []) }
{}

/// A merge that isn't refused is of two commits, and an unmerge of one.
pub fn a_merge_is_of_two_commits()
    ensures merge { (set : List AnyId) (events new : List PlainEvent) → merge_of set events ≡ Ok new →
        (low : ℕ) × (high : ℕ) × (listed set events ≡ low ∷ high ∷ []) }
    ensures unmerge { (set : List AnyId) (events new : List PlainEvent) →
        unmerge_of set events ≡ Ok new → (c : ℕ) × (set ≡ any.Commit c ∷ []) }
{}

/// An addition and a removal that aren't refused are of one event, which is a commit, and an operation that is added is one of this
/// history.
pub fn an_operation_is_of_one_commit()
    ensures add { (spelled : RawOp) (set : List AnyId) (events new : List PlainEvent) →
        add_of spelled set events ≡ Ok new → (c : ℕ) × (op : FileOp) × (set ≡ any.Commit c ∷ [])
        × (op_of events spelled ≡ Ok op) }
    ensures remove { (what : Removal) (set : List AnyId) (events new : List PlainEvent) →
        remove_of what set events ≡ Ok new → (c : ℕ) × (set ≡ any.Commit c ∷ []) }
{}

/// Each event is as it was, but for the parents and operations of one commit, which are those that the definition says:
/// the last of the commits of a reparent, the later one of a merge, or the one that is selected.
pub fn one_commit_is_changed()
    ensures reparent { (use_order rebase : Bool) (set : List AnyId) (events new : List PlainEvent)
        (others : List ℕ) (c : ℕ) → IsSound events → IsSelection events set →
        reparent_of use_order rebase set events ≡ Ok new →
        ordered use_order set events ≡ others ++ c ∷ [] →
        AllByRecursion (IsRewritten c (reparents rebase events others) events) new }
    ensures merge { (set : List AnyId) (events new : List PlainEvent) (low high : ℕ) →
        IsSound events → merge_of set events ≡ Ok new → listed set events ≡ low ∷ high ∷ [] →
        AllByRecursion (IsRewritten high (merges low) events) new }
    ensures unmerge { (c : ℕ) (events new : List PlainEvent) → IsSound events →
        unmerge_of (any.Commit c ∷ []) events ≡ Ok new →
        AllByRecursion (IsRewritten c unmerges events) new }
    ensures add { (spelled : RawOp) (op : FileOp) (c : ℕ) (events new : List PlainEvent) →
        IsSound events → HasItsContent spelled → OpFits spelled → op_of events spelled ≡ Ok op →
        add_of spelled (any.Commit c ∷ []) events ≡ Ok new →
        AllByRecursion (IsRewritten c (adds op) events) new }
    ensures remove { (what : Removal) (c : ℕ) (events new : List PlainEvent) → IsSound events →
        remove_of what (any.Commit c ∷ []) events ≡ Ok new →
        AllByRecursion (IsRewritten c (removes what) events) new }
{}

/// A sound history stays sound. An operation that is added has fields as they are spelled, and a link to another
/// repository in it has an object's id.
pub fn a_change_keeps_soundness()
    ensures reparent { (use_order rebase : Bool) (set : List AnyId) (events new : List PlainEvent) →
        IsSound events → IsSelection events set → reparent_of use_order rebase set events ≡ Ok new →
        IsSound new }
    ensures merge { (set : List AnyId) (events new : List PlainEvent) → IsSound events →
        merge_of set events ≡ Ok new → IsSound new }
    ensures unmerge { (set : List AnyId) (events new : List PlainEvent) → IsSound events →
        unmerge_of set events ≡ Ok new → IsSound new }
    ensures add { (spelled : RawOp) (set : List AnyId) (events new : List PlainEvent) →
        IsSound events → HasItsContent spelled → OpFits spelled →
        add_of spelled set events ≡ Ok new → IsSound new }
    ensures remove { (what : Removal) (set : List AnyId) (events new : List PlainEvent) →
        IsSound events → remove_of what set events ≡ Ok new → IsSound new }
{}

/// What isn't refused is within the limits. An unmerge and a removal exceed none, where the history was within them.
pub fn a_change_keeps_the_limits()
    ensures reparent { (use_order rebase : Bool) (set : List AnyId) (events new : List PlainEvent) →
        IsSound events → IsSelection events set → reparent_of use_order rebase set events ≡ Ok new →
        IsWithinLimits new }
    ensures merge { (set : List AnyId) (events new : List PlainEvent) →
        merge_of set events ≡ Ok new → IsWithinLimits new }
    ensures unmerge { (set : List AnyId) (events new : List PlainEvent) → IsSound events →
        IsWithinLimits events → unmerge_of set events ≡ Ok new → IsWithinLimits new }
    ensures add { (spelled : RawOp) (set : List AnyId) (events new : List PlainEvent) →
        IsSound events → HasItsContent spelled → OpFits spelled →
        add_of spelled set events ≡ Ok new → IsWithinLimits new }
    ensures remove { (what : Removal) (set : List AnyId) (events new : List PlainEvent) →
        IsSound events → IsWithinLimits events → remove_of what set events ≡ Ok new →
        IsWithinLimits new }
{}

/// A tree whose paths are put one by one after `deleteall` is there again, whatever was there before.
pub fn a_tree_is_written_out()
    ensures { (its old : Tree) → IsTree its → length its ≤ MAX_PATHS →
        apply_all (DeleteAll ∷ puts_of its) old ≡ Ok its }
{}

/// After a reparent without `--rebase`, a merge and an unmerge each commit has the tree that it had, with the same
/// bytes in it.
pub fn other_parents_keep_trees()
    ensures reparent { (use_order : Bool) (set : List AnyId) (events new : List PlainEvent) →
        IsSound events → IsSelection events set → reparent_of use_order false set events ≡ Ok new →
        KeepsTrees events new }
    ensures merge { (set : List AnyId) (events new : List PlainEvent) → IsSound events →
        merge_of set events ≡ Ok new → KeepsTrees events new }
    ensures unmerge { (set : List AnyId) (events new : List PlainEvent) → IsSound events →
        unmerge_of set events ≡ Ok new → KeepsTrees events new }
{}

/// After a rebase each commit has the operations that it had, and its tree is what they make of its first parent's.
pub fn a_rebase_replays_operations()
    ensures ops { (use_order : Bool) (set : List AnyId) (events new : List PlainEvent) →
        IsSound events → IsSelection events set → reparent_of use_order true set events ≡ Ok new →
        AllByRecursion (HasOperationsOf events) (nodes new) }
    ensures trees { (use_order : Bool) (set : List AnyId) (events new : List PlainEvent) →
        IsSound events → IsSelection events set → reparent_of use_order true set events ≡ Ok new →
        AllByRecursion (Fits (tree new)) (nodes new) }
{}

/// After an operation was added or some were removed each other commit has the operations that it had, and the tree of
/// every commit is what its operations make of its first parent's.
pub fn other_operations_are_replayed()
    ensures added_ops { (spelled : RawOp) (c : ℕ) (events new : List PlainEvent) → IsSound events →
        HasItsContent spelled → OpFits spelled → add_of spelled (any.Commit c ∷ []) events ≡ Ok new →
        AllByRecursion (λ n. IsFalse (n.id == c) → HasOperationsOf events n) (nodes new) }
    ensures added_trees { (spelled : RawOp) (set : List AnyId) (events new : List PlainEvent) →
        IsSound events → HasItsContent spelled → OpFits spelled →
        add_of spelled set events ≡ Ok new → AllByRecursion (Fits (tree new)) (nodes new) }
    ensures left_ops { (what : Removal) (c : ℕ) (events new : List PlainEvent) → IsSound events →
        remove_of what (any.Commit c ∷ []) events ≡ Ok new →
        AllByRecursion (λ n. IsFalse (n.id == c) → HasOperationsOf events n) (nodes new) }
    ensures left_trees { (what : Removal) (set : List AnyId) (events new : List PlainEvent) →
        IsSound events → remove_of what set events ≡ Ok new →
        AllByRecursion (Fits (tree new)) (nodes new) }
{}

/// Each change of one commit is an edit that gives no number: of a lawful history it makes a lawful one.
pub fn a_change_is_an_edit()
    ensures reparent { (use_order rebase : Bool) → IsEdit (λ set next events.
        with_number next (reparent_of use_order rebase set events)) }
    ensures merge { IsEdit (λ set next events. with_number next (merge_of set events)) }
    ensures unmerge { IsEdit (λ set next events. with_number next (unmerge_of set events)) }
    ensures add { (spelled : RawOp) → HasItsContent spelled → OpFits spelled →
        IsEdit (λ set next events. with_number next (add_of spelled set events)) }
    ensures remove { (what : Removal) → IsEdit (λ set next events.
        with_number next (remove_of what set events)) }
{}
