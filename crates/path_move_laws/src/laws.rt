//! Laws of moves of paths. Each function's contract is one, and its body is empty.
ghost use Rattle.std.specs.Prelude.{
  ◌≡◌,
  ◌≤◌,
  ℕ,
  List,
  None,
  Some,
  Ok,
  Err,
  [],
  if◌then◌else◌,
  length,
  map,
  nat_lt,
  option_map,
};
ghost use Rattle.plain_model.specs.declared.event.PlainEvent.{PlainEvent};
ghost use Rattle.plain_model.specs.declared.fault.Fault.{Fault};
ghost use Rattle.plain_model.specs.declared.fault.Fault.TheVariants as fault;
ghost use Rattle.plain_model.specs.declared.fault.Which.TheVariants as limit;
ghost use Rattle.plain_model.specs.declared.limit.TheConstants.{MAX_ALIASES, MAX_EVENTS, MAX_OPERATIONS};
ghost use Rattle.plain_model.specs.declared.operation.FileOp.{FileOp};
ghost use Rattle.plain_model.specs.Histories.{nodes, tree};
ghost use Rattle.plain_model.specs.declared.id.AnyId.{AnyId};
ghost use Rattle.plain_model.specs.Lookups.{AreIdsBelow, alias_count};
ghost use Rattle.plain_model.specs.Paths.{Bytes};
ghost use Rattle.plain_model.specs.Snapshots.{shown_tree};
ghost use Rattle.plain_model.specs.Soundness.{IsCommitOf, IsSound, has_id};
ghost use Rattle.plain_model.specs.Streams.{is_marked};
ghost use Rattle.plain_model.specs.Trees.{Tree};
ghost use Rattle.history_laws.specs.FirstParents.{ops_along};
ghost use Rattle.edit_laws.specs.Editing.{IsEdit, with_number};
ghost use Rattle.edit_laws.specs.Passing.{IsWithinLimits};
ghost use Rattle.path_move_laws.specs.Images.{image};
ghost use Rattle.path_move_laws.specs.MovedOps.{first_fault};
ghost use Rattle.path_move_laws.specs.Moves.{first_of, moved_events, paths_moved, with_ops_for};
ghost use Rattle.path_move_laws.specs.PathMaps.{HasPaths, image_of};
ghost use Rattle.path_move_laws.specs.Places.{IsAt, IsIn};
ghost use Rattle.path_move_laws.specs.declared.path_map.PathMap.{PathMap};

/// After a move of paths the tree of each commit is the image of the tree that it had, with the same bytes in it.
pub fn a_move_maps_trees()
    ensures trees { (how : PathMap) (events new : List PlainEvent) → HasPaths how → IsSound events →
        paths_moved (image_of how) events ≡ Ok new → (c : ℕ) → IsCommitOf new c →
        tree new c ≡ option_map (image (image_of how)) (tree events c) }
    ensures shown { (how : PathMap) (events new : List PlainEvent) → HasPaths how → IsSound events →
        paths_moved (image_of how) events ≡ Ok new → (c : ℕ) → IsCommitOf new c →
        shown_tree new c ≡ option_map (image (image_of how)) (shown_tree events c) }
{}

/// Without their operations the events are those that they were, in the same order: marks, aliases, branches, people,
/// comments, parents, tags, resets and blobs are the same.
pub fn nothing_else_changes()
    ensures { (f : Bytes → Bytes) (events new : List PlainEvent) → paths_moved f events ≡ Ok new →
        map (with_ops_for (λ parents ops. [])) new ≡ map (with_ops_for (λ parents ops. [])) events }
{}

/// No event, id, mark or alias comes or goes, and ids stay below whatever bound they were.
pub fn a_move_adds_nothing()
    ensures count { (f : Bytes → Bytes) (events new : List PlainEvent) → paths_moved f events ≡ Ok new →
        length new ≡ length events }
    ensures ids { (f : Bytes → Bytes) (events new : List PlainEvent) → paths_moved f events ≡ Ok new →
        (id : AnyId) → has_id new id ≡ has_id events id }
    ensures marks { (f : Bytes → Bytes) (events new : List PlainEvent) → paths_moved f events ≡ Ok new →
        (mark : ℕ) → is_marked new mark ≡ is_marked events mark }
    ensures aliases { (f : Bytes → Bytes) (events new : List PlainEvent) → paths_moved f events ≡ Ok new →
        alias_count new ≡ alias_count events }
    ensures below { (f : Bytes → Bytes) (events new : List PlainEvent) (next : ℕ) →
        paths_moved f events ≡ Ok new → AreIdsBelow next events → AreIdsBelow next new }
{}

/// A sound history stays sound.
pub fn a_move_keeps_soundness()
    ensures { (how : PathMap) (events new : List PlainEvent) → HasPaths how → IsSound events →
        paths_moved (image_of how) events ≡ Ok new → IsSound new }
{}

/// What isn't refused is within the limits.
pub fn a_move_keeps_the_limits()
    ensures { (f : Bytes → Bytes) (events new : List PlainEvent) → paths_moved f events ≡ Ok new →
        IsWithinLimits new }
{}

/// Where each tree has an image, and a history has no more events and aliases than it may have, a move is refused
/// exactly where there would be too many operations, and names that limit.
pub fn operations_alone_are_too_many()
    ensures { (f : Bytes → Bytes) (events : List PlainEvent) → IsSound events →
        length events ≤ MAX_EVENTS → alias_count events ≤ MAX_ALIASES →
        first_of f events events ≡ None → paths_moved f events ≡
        (if nat_lt MAX_OPERATIONS (length (ops_along (nodes (moved_events f events))))
        then Err (fault.Limit limit.Operations MAX_OPERATIONS) else Ok (moved_events f events)) }
{}

/// A move is refused for the first event with an operation after which a tree has no image, and for the first such
/// operation; what is before it has no fault.
pub fn the_first_fault_is_found()
    ensures event { (f : Bytes → Bytes) (events : List PlainEvent) (why : Fault) →
        first_of f events events ≡ Some why → IsAt f events events why }
    ensures refused { (f : Bytes → Bytes) (events : List PlainEvent) (why : Fault) →
        first_of f events events ≡ Some why → paths_moved f events ≡ Err why }
    ensures operation { (f : Bytes → Bytes) (mark number : ℕ) (ops : List FileOp) (old : Tree) (why : Fault) →
        first_fault f mark number ops old ≡ Some why → IsIn f mark number ops old why }
{}

/// A move of paths is an edit that gives no number and looks at no selection: of a lawful history it makes a lawful one.
pub fn a_move_is_an_edit()
    ensures { (how : PathMap) → HasPaths how → IsEdit (λ set next events.
        with_number next (paths_moved (image_of how) events)) }
{}
