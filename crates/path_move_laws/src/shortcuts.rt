//! When mapped operations are right is known from what they do to a tree and to its image, without the images of whole
//! trees. Each function's contract is a law, and its body is empty.
ghost use Rattle.std.specs.Prelude.{◌≡◌, ◌≤◌, ◌+◌, ◌<◌, ◌&&◌, List, [], Ok, Some, length, IsFalse, IsTrue};
ghost use Rattle.std.specs.List.{list_any};
ghost use Rattle.plain_model.specs.declared.event.PlainEvent.{PlainEvent};
ghost use Rattle.plain_model.specs.declared.fault.Fault.TheVariants as fault;
ghost use Rattle.plain_model.specs.declared.fault.Which.TheVariants as limit;
ghost use Rattle.plain_model.specs.declared.limit.TheConstants.{MAX_PATH_BYTES};
ghost use Rattle.plain_model.specs.declared.operation.Content.{Content};
ghost use Rattle.plain_model.specs.declared.operation.FileOp.TheVariants.{Modify, Delete, Copy, Rename};
ghost use Rattle.plain_model.specs.declared.operation.Mode.{Mode};
ghost use Rattle.plain_model.specs.Paths.{Bytes, IsPath};
ghost use Rattle.plain_model.specs.Soundness.{IsSound};
ghost use Rattle.plain_model.specs.Trees.{IsTree, Tree, apply, has, subtree};
ghost use Rattle.path_move_laws.specs.Apart.{AreApart, MayMove};
ghost use Rattle.path_move_laws.specs.ByName.{GoesByName};
ghost use Rattle.path_move_laws.specs.Images.{image};
ghost use Rattle.path_move_laws.specs.Lengths.{longest_in};
ghost use Rattle.path_move_laws.specs.LongPuts.{has_long_put};
ghost use Rattle.path_move_laws.specs.MovedOps.{is_path, mapped_op, moved_op, names_paths};
ghost use Rattle.path_move_laws.specs.Moves.{first_of};
ghost use Rattle.path_move_laws.specs.PathMaps.{image_of};
ghost use Rattle.path_move_laws.specs.Steady.{GoesAlong, IsRight};
ghost use Rattle.path_move_laws.specs.declared.path_map.PathMap.TheVariants.{Sub};
ghost use Rattle.plain_model.specs.declared.operation.FileOp.{FileOp};

/// A put is right where its path was there, or where it and its image each made one path more. Where it made one more, its
/// image must make one more too, unless two images are in each other's way.
pub fn a_put_is_right()
    ensures there { (f : Bytes → Bytes) (mode : Mode) (content : Content) (p : Bytes) (old new : Tree) →
        MayMove f old → IsTrue (is_path (f p)) → apply (Modify mode content p) old ≡ Ok new →
        IsTrue (has old p) → IsRight f (Modify mode content p) old new (image f new) }
    ensures free { (f : Bytes → Bytes) (mode : Mode) (content : Content) (p : Bytes) (old new made : Tree) →
        MayMove f old → IsTrue (is_path (f p)) → apply (Modify mode content p) old ≡ Ok new →
        apply (Modify mode content (f p)) (image f old) ≡ Ok made → length new ≡ length old + 1 →
        length made ≡ length (image f old) + 1 → IsRight f (Modify mode content p) old new made }
    ensures must { (f : Bytes → Bytes) (mode : Mode) (content : Content) (p : Bytes) (old new : Tree) →
        MayMove f old → IsTrue (is_path (f p)) → apply (Modify mode content p) old ≡ Ok new →
        length new ≡ length old + 1 → AreApart f new →
        (apply (Modify mode content (f p)) (image f old) ≡ Ok (image f new))
        × (length (image f new) ≡ length (image f old) + 1) }
{}

/// After a deletion there is never a fault that wasn't before it.
pub fn a_deletion_has_no_fault()
    ensures { (f : Bytes → Bytes) (p : Bytes) (old new : Tree) → MayMove f old →
        apply (Delete p) old ≡ Ok new → MayMove f new }
{}

/// A deletion is right where its path was there, or where what is below its path goes along with it, and it and its
/// image each left out as many paths.
pub fn a_deletion_is_right()
    ensures there { (f : Bytes → Bytes) (p : Bytes) (old new made : Tree) → MayMove f old →
        IsTrue (is_path (f p)) → apply (Delete p) old ≡ Ok new →
        apply (Delete (f p)) (image f old) ≡ Ok made → IsTrue (has old p) →
        IsRight f (Delete p) old new made }
    ensures along { (f : Bytes → Bytes) (p : Bytes) (old new made : Tree) → MayMove f old →
        IsTrue (is_path (f p)) → apply (Delete p) old ≡ Ok new →
        apply (Delete (f p)) (image f old) ≡ Ok made → GoesAlong f p →
        length new + length (image f old) ≡ length made + length old →
        IsRight f (Delete p) old new made }
{}

/// A deletion of nothing changes nothing; it is right where its image deletes nothing either, and else nothing is in its
/// place.
pub fn a_deletion_of_nothing_is_known()
    ensures same { (p : Bytes) (old new : Tree) → IsTree old → apply (Delete p) old ≡ Ok new →
        length new ≡ length old → new ≡ old }
    ensures right { (f : Bytes → Bytes) (p : Bytes) (old made : Tree) → MayMove f old →
        IsTrue (is_path (f p)) → apply (Delete p) old ≡ Ok old →
        apply (Delete (f p)) (image f old) ≡ Ok made → length made ≡ length (image f old) →
        IsRight f (Delete p) old old made }
    ensures wrong { (f : Bytes → Bytes) (p : Bytes) (old made : Tree) → MayMove f old →
        apply (Delete (f p)) (image f old) ≡ Ok made → length made < length (image f old) →
        moved_op f (Delete p) old old ≡ [] }
    ensures no_path { (f : Bytes → Bytes) (p : Bytes) (old : Tree) → MayMove f old →
        IsFalse (is_path (f p)) → moved_op f (Delete p) old old ≡ [] }
{}

/// A copy is right where what is below its paths goes along with them, where as much is below its source and the
/// source's image, and where its target was there, or it and its image each made so many paths more.
pub fn a_copy_is_right()
    ensures there { (f : Bytes → Bytes) (source target : Bytes) (old new made : Tree) → MayMove f old →
        IsTrue (is_path (f source) && is_path (f target)) → apply (Copy source target) old ≡ Ok new →
        apply (Copy (f source) (f target)) (image f old) ≡ Ok made →
        GoesAlong f source → GoesAlong f target →
        length (subtree source old) ≡ length (subtree (f source) (image f old)) →
        IsTrue (has old target) → IsRight f (Copy source target) old new made }
    ensures free { (f : Bytes → Bytes) (source target : Bytes) (old new made : Tree) → MayMove f old →
        IsTrue (is_path (f source) && is_path (f target)) → apply (Copy source target) old ≡ Ok new →
        apply (Copy (f source) (f target)) (image f old) ≡ Ok made →
        GoesAlong f source → GoesAlong f target →
        length (subtree source old) ≡ length (subtree (f source) (image f old)) →
        length new ≡ length old + length (subtree source old) →
        length made ≡ length (image f old) + length (subtree source old) →
        IsRight f (Copy source target) old new made }
{}

/// A rename is right where what is below its paths goes along with them, where as much is below its source and the
/// source's image, and where its target was there, or it and its image each left as many paths as there were.
pub fn a_rename_is_right()
    ensures there { (f : Bytes → Bytes) (source target : Bytes) (old new made : Tree) → MayMove f old →
        IsTrue (is_path (f source) && is_path (f target)) → apply (Rename source target) old ≡ Ok new →
        apply (Rename (f source) (f target)) (image f old) ≡ Ok made →
        GoesAlong f source → GoesAlong f target →
        length (subtree source old) ≡ length (subtree (f source) (image f old)) →
        IsTrue (has old target) → IsRight f (Rename source target) old new made }
    ensures free { (f : Bytes → Bytes) (source target : Bytes) (old new made : Tree) → MayMove f old →
        IsTrue (is_path (f source) && is_path (f target)) → apply (Rename source target) old ≡ Ok new →
        apply (Rename (f source) (f target)) (image f old) ≡ Ok made →
        GoesAlong f source → GoesAlong f target →
        length (subtree source old) ≡ length (subtree (f source) (image f old)) →
        length new ≡ length old → length made ≡ length (image f old) →
        IsRight f (Rename source target) old new made }
{}

/// Below a folder each mapped operation whose paths are paths is right, whatever the trees are.
pub fn below_a_folder_names_are_enough()
    ensures { (folder : Bytes) (op : FileOp) (old new : Tree) → MayMove (image_of (Sub folder)) old →
        MayMove (image_of (Sub folder)) new → apply op old ≡ Ok new →
        IsTrue (names_paths (mapped_op (image_of (Sub folder)) op)) →
        IsRight (image_of (Sub folder)) op old new (image (image_of (Sub folder)) new) }
{}

/// Below a folder one put whose path gets too long is why a move is refused, whichever tree is the first to have such a
/// path.
pub fn below_a_folder_a_long_put_is_enough()
    ensures { (folder : Bytes) (events : List PlainEvent) → IsSound events →
        IsTrue (list_any (has_long_put (image_of (Sub folder))) events) →
        first_of (image_of (Sub folder)) events events ≡ Some (fault.Limit limit.PathBytes MAX_PATH_BYTES) }
{}

/// Below a folder each operation becomes itself at the images of its paths, and no tree has a fault, where by the
/// operations alone no path gets too long.
pub fn below_a_folder_short_paths_go_by_name()
    ensures { (folder : Bytes) (events : List PlainEvent) → IsPath folder → IsSound events →
        length folder + 1 + longest_in 0 events ≤ MAX_PATH_BYTES → GoesByName (image_of (Sub folder)) events }
{}
