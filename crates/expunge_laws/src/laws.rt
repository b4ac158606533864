//! Laws of an expunge. Each function's contract is one, and its body is empty.
ghost use Rattle.std.specs.Prelude.{
  ◌≡◌,
  ◌≤◌,
  ◌&&◌,
  ℕ,
  Bool,
  List,
  None,
  Some,
  Ok,
  Err,
  IsFalse,
  IsOk,
  IsTrue,
  [],
  if◌then◌else◌,
  length,
  nat_lt,
  not,
  option_map,
};
ghost use Rattle.std.specs.List.{AllByRecursion, list_any};
ghost use Rattle.plain_model.specs.declared.event.PlainEvent.{PlainEvent};
ghost use Rattle.plain_model.specs.declared.fault.Fault.TheVariants as fault;
ghost use Rattle.plain_model.specs.declared.fault.Which.TheVariants as limit;
ghost use Rattle.plain_model.specs.declared.id.AnyId.TheVariants as any;
ghost use Rattle.plain_model.specs.declared.limit.TheConstants.{MAX_ALIASES, MAX_EVENTS, MAX_OPERATIONS};
ghost use Rattle.plain_model.specs.declared.id.AnyId.{AnyId};
ghost use Rattle.plain_model.specs.declared.policy.Lean.TheVariants as lean;
ghost use Rattle.plain_model.specs.declared.policy.Push.TheVariants as push;
ghost use Rattle.plain_model.specs.Histories.{nodes, tree};
ghost use Rattle.plain_model.specs.Lookups.{AreIdsBelow, alias_count};
ghost use Rattle.plain_model.specs.Paths.{Bytes};
ghost use Rattle.plain_model.specs.Snapshots.{shown_tree};
ghost use Rattle.plain_model.specs.Soundness.{IsCommitOf, IsSound, has_id};
ghost use Rattle.plain_model.specs.Trees.{Tree, at};
ghost use Rattle.history_laws.specs.FirstParents.{ops_along};
ghost use Rattle.edit_laws.specs.Editing.{IsEdit, with_number};
ghost use Rattle.edit_laws.specs.Passing.{IsWithinLimits};
ghost use Rattle.edit_laws.specs.Sweeping.{is_named, swept};
ghost use Rattle.squash_laws.specs.Remaining.{HasParentsFor, is_staying};
ghost use Rattle.squash_laws.specs.Takings.{back_of};
ghost use Rattle.expunge_laws.specs.Expunged.{
  emptied,
  expunge_of,
  expunged,
  is_emptied,
  replaced_event,
  replaced_events,
};
ghost use Rattle.expunge_laws.specs.InLine.{IsInLine, tree_in_place};
ghost use Rattle.expunge_laws.specs.Remaining.{LeavesWhere};
ghost use Rattle.edit_laws.specs.Keeping.{AddsNothing, IsNoBlob, IsOneOf};
ghost use Rattle.expunge_laws.specs.Replaced.{restricted};
ghost use Rattle.expunge_laws.specs.Untouched.{is_touched, may_be_touched};

/// Settling what an expunge leaves comes to its end.
pub fn an_expunge_comes_to_its_end()
    ensures { (matched : Bytes → Bool) (events : List PlainEvent) → IsSound events →
        IsOk (expunged matched events) }
{}

/// After an expunge each commit that is there has the tree that it had, without the matched paths, and with the same
/// bytes in it.
pub fn an_expunge_restricts_trees()
    ensures trees { (matched : Bytes → Bool) (events new : List PlainEvent) → IsSound events →
        expunge_of matched events ≡ Ok new → (c : ℕ) → IsCommitOf new c →
        tree new c ≡ option_map (restricted matched) (tree events c) }
    ensures shown { (matched : Bytes → Bool) (events new : List PlainEvent) → IsSound events →
        expunge_of matched events ≡ Ok new → (c : ℕ) → IsCommitOf new c →
        shown_tree new c ≡ option_map (restricted matched) (shown_tree events c) }
{}

/// No path that is matched is left in a tree, and at each other path is what was there.
pub fn no_matched_path_is_left()
    ensures none { (matched : Bytes → Bool) (events new : List PlainEvent) → IsSound events →
        expunge_of matched events ≡ Ok new → (c : ℕ) → IsCommitOf new c →
        (its : Tree) → tree new c ≡ Some its → (p : Bytes) → IsTrue (matched p) → at its p ≡ None }
    ensures others { (matched : Bytes → Bool) (events new : List PlainEvent) → IsSound events →
        expunge_of matched events ≡ Ok new → (c : ℕ) → IsCommitOf new c →
        (old its : Tree) → tree events c ≡ Some old → tree new c ≡ Some its →
        (p : Bytes) → IsFalse (matched p) → at its p ≡ at old p }
{}

/// A commit leaves exactly where it had an operation, has none left, and is no merge; and none comes.
pub fn emptied_commits_leave()
    ensures leaves { (matched : Bytes → Bool) (events new : List PlainEvent) → IsSound events →
        expunge_of matched events ≡ Ok new →
        AllByRecursion (LeavesWhere (is_emptied matched events) new) events }
    ensures none { (matched : Bytes → Bool) (events new : List PlainEvent) → IsSound events →
        expunge_of matched events ≡ Ok new → (c : ℕ) → IsCommitOf new c → IsCommitOf events c }
{}

/// A blob leaves exactly where an operation named it, and none names it any more.
pub fn blobs_leave_that_nothing_names()
    ensures { (matched : Bytes → Bool) (events new : List PlainEvent) → IsSound events →
        expunge_of matched events ≡ Ok new → (b : ℕ) → has_id new (any.Blob b)
        ≡ has_id events (any.Blob b) && not (is_named events b && not (is_named new b)) }
{}

/// Of all events but blobs those stay that aren't emptied commits, and no others; a tag or a reset only where there is a commit for it:
/// its own, else the next that stays, or the one before.
pub fn no_other_event_leaves()
    ensures { (matched : Bytes → Bool) (events new : List PlainEvent) → IsSound events →
        expunge_of matched events ≡ Ok new → (id : AnyId) → IsNoBlob id →
        has_id new id ≡ is_staying (record { push = push.Forward; tags = lean.Forward })
        (emptied matched events) events id }
{}

/// A sound history stays sound.
pub fn an_expunge_keeps_soundness()
    ensures { (matched : Bytes → Bool) (events new : List PlainEvent) → IsSound events →
        expunge_of matched events ≡ Ok new → IsSound new }
{}

/// What isn't refused is within the limits.
pub fn an_expunge_keeps_the_limits()
    ensures { (matched : Bytes → Bool) (events new : List PlainEvent) → IsSound events →
        expunge_of matched events ≡ Ok new → IsWithinLimits new }
{}

/// No event, id, mark or alias is added, and ids stay below whatever bound they were.
pub fn an_expunge_adds_nothing()
    ensures added { (matched : Bytes → Bool) (events new : List PlainEvent) →
        expunged matched events ≡ Ok new → AddsNothing events new }
    ensures below { (matched : Bytes → Bool) (events new : List PlainEvent) (next : ℕ) →
        expunged matched events ≡ Ok new → AreIdsBelow next events → AreIdsBelow next new }
{}

/// Each event that stays is as it was, but for the parents and operations of a commit and the target of a tag or a
/// reset: comments, marks and aliases, branches and names, people, encodings and blobs are the same.
pub fn what_stays_is_as_it_was()
    ensures { (matched : Bytes → Bool) (events new : List PlainEvent) → IsSound events →
        expunge_of matched events ≡ Ok new → AllByRecursion (IsOneOf events) new }
{}

/// After an expunge each commit has what stands for its old parents: one that stays for itself, an emptied one by its own parent.
pub fn parents_give_way_to_what_stays()
    ensures { (matched : Bytes → Bool) (events new : List PlainEvent) → IsSound events →
        expunge_of matched events ≡ Ok new →
        AllByRecursion (HasParentsFor (emptied matched events) events) (nodes new) }
{}

/// An expunge of a history that is within the limits on events and aliases is refused exactly where there would be too
/// many operations, and names that limit: no commit has more parents than it had.
pub fn operations_alone_refuse_an_expunge()
    ensures { (matched : Bytes → Bool) (events new : List PlainEvent) → IsSound events →
        length events ≤ MAX_EVENTS → alias_count events ≤ MAX_ALIASES →
        expunged matched events ≡ Ok new → expunge_of matched events ≡
        (if nat_lt MAX_OPERATIONS (length (ops_along (nodes new)))
        then Err (fault.Limit limit.Operations MAX_OPERATIONS) else Ok new) }
{}

/// A commit stays as it is none of whose operations has, takes or puts a matched path. Where each commit stays, so does
/// the history. Without copies and renames the names alone say it. Where no commit is emptied, the others have their
/// replaced operations, and blobs are swept.
pub fn what_no_matched_path_touches_stays()
    ensures commits { (matched : Bytes → Bool) (events : List PlainEvent) → IsSound events →
        AllByRecursion (λ e. IsFalse (is_touched matched events e) → replaced_event matched events e ≡ e)
        events }
    ensures all { (matched : Bytes → Bool) (events : List PlainEvent) → IsSound events →
        IsFalse (list_any (is_touched matched events) events) → expunged matched events ≡ Ok events }
    ensures names { (matched : Bytes → Bool) (events : List PlainEvent) → IsSound events →
        IsFalse (list_any (may_be_touched matched) events) → expunged matched events ≡ Ok events }
    ensures none { (matched : Bytes → Bool) (events : List PlainEvent) → IsSound events →
        emptied matched events ≡ [] →
        expunged matched events ≡ Ok (swept events (replaced_events matched events)) }
{}

/// In the place of an emptied commit comes the first one by first parents that stays, if there is one, with the same
/// tree without the matched paths. Nothing is taken over from it, but that a commit begins without files where no
/// commit of its first parent's line is left.
pub fn emptied_commits_give_way_in_line()
    ensures links { (matched : Bytes → Bool) (events : List PlainEvent) → IsSound events →
        AllByRecursion (IsInLine (emptied matched events) (replaced_events matched events))
        (nodes (replaced_events matched events)) }
    ensures trees { (matched : Bytes → Bool) (events : List PlainEvent) → IsSound events →
        (c : ℕ) → IsCommitOf events c → option_map (restricted matched) (tree events c)
        ≡ tree_in_place (replaced_events matched events)
        (back_of (emptied matched events) (replaced_events matched events) c) }
{}

/// An expunge of the same paths again changes nothing.
pub fn an_expunge_again_changes_nothing()
    ensures { (matched : Bytes → Bool) (events new : List PlainEvent) → IsSound events →
        expunge_of matched events ≡ Ok new → expunge_of matched new ≡ Ok new }
{}

/// An expunge is an edit that gives no number and looks at no selection: of a lawful history it makes a lawful one.
pub fn an_expunge_is_an_edit()
    ensures { (matched : Bytes → Bool) → IsEdit (λ set next events.
        with_number next (expunge_of matched events)) }
{}
