//! Laws of images and differences of trees. Each function's contract is one, and its body is empty.
ghost use Rattle.std.specs.Prelude.{
  ◌≡◌,
  ◌≤◌,
  ◌+◌,
  ◌++◌,
  ◌∷◌,
  [],
  ℕ,
  None,
  Ok,
  Some,
  length,
  IsTrue,
  IsFalse,
};
ghost use Rattle.std.specs.Ordering.{is_lt, nat_cmp};
ghost use Rattle.std.specs.Cmp.Lexicographic.{slice_cmp};
ghost use Rattle.plain_model.specs.declared.fault.Fault.TheVariants as fault;
ghost use Rattle.plain_model.specs.declared.fault.Which.TheVariants as limit;
ghost use Rattle.plain_model.specs.declared.limit.TheConstants.{MAX_PATHS, MAX_PATH_BYTES};
ghost use Rattle.plain_model.specs.declared.operation.Entry.{Entry};
ghost use Rattle.plain_model.specs.declared.operation.FileOp.TheVariants.{Modify};
ghost use Rattle.plain_model.specs.Paths.{Bytes, IsPath};
ghost use Rattle.plain_model.specs.Trees.{IsTree, Tree, apply, apply_all, at, has};
ghost use Rattle.squash_laws.specs.Takings.{is_none};
ghost use Rattle.path_move_laws.specs.Apart.{AreApart, MayMove};
ghost use Rattle.path_move_laws.specs.Difference.{are_same, difference};
ghost use Rattle.path_move_laws.specs.Images.{collides, collision, has_long_image, image};
ghost use Rattle.path_move_laws.specs.MovedOps.{image_fault, is_path};
ghost use Rattle.path_move_laws.specs.PathMaps.{HasPaths, image_of};
ghost use Rattle.path_move_laws.specs.declared.path_map.PathMap.{PathMap};

/// The difference of two trees makes the second of the first.
pub fn a_difference_makes_the_new_tree()
    ensures { (old new : Tree) → IsTree old → IsTree new → length new ≤ MAX_PATHS →
        apply_all (difference old new) old ≡ Ok new }
{}

/// There is no difference exactly between trees that are the same.
pub fn a_difference_tells_trees_apart()
    ensures { (old new : Tree) → IsTree old → IsTree new →
        is_none (difference old new) ≡ are_same old new }
{}

/// The image of a tree whose images are apart is a tree of as many paths, with each entry at the image of its path and
/// nothing else.
pub fn an_image_has_each_entry()
    ensures tree { (f : Bytes → Bytes) (tree : Tree) → AreApart f tree → IsTree (image f tree) }
    ensures entry { (f : Bytes → Bytes) (tree : Tree) → AreApart f tree → (p : Bytes) → IsTrue (has tree p) →
        at (image f tree) (f p) ≡ at tree p }
    ensures only { (f : Bytes → Bytes) (tree : Tree) (q : Bytes) → IsTrue (has (image f tree) q) →
        (p : Bytes) × IsTrue (has tree p) × (q ≡ f p) }
    ensures count { (f : Bytes → Bytes) (tree : Tree) → IsTree tree → AreApart f tree →
        length (image f tree) ≡ length tree }
{}

/// No image is found to collide exactly where the images are apart; and the one that is found is the first in byte
/// order of those that do.
pub fn a_collision_is_found()
    ensures none { (f : Bytes → Bytes) (tree : Tree) → collision f tree ≡ None → AreApart f tree }
    ensures apart { (f : Bytes → Bytes) (tree : Tree) → IsTree tree → AreApart f tree →
        collision f tree ≡ None }
    ensures there { (f : Bytes → Bytes) (tree : Tree) (q : Bytes) → collision f tree ≡ Some q →
        IsTrue (has (image f tree) q) }
    ensures collides { (f : Bytes → Bytes) (tree : Tree) (q : Bytes) → collision f tree ≡ Some q →
        IsTrue (collides f tree q) }
    ensures first { (f : Bytes → Bytes) (tree : Tree) (q : Bytes) → collision f tree ≡ Some q →
        (p : Bytes) → IsTrue (has (image f tree) p) → IsTrue (is_lt (slice_cmp nat_cmp p q)) →
        IsFalse (collides f tree p) }
    ensures exact { (f : Bytes → Bytes) (tree : Tree) (q : Bytes) → IsTrue (has (image f tree) q) →
        IsTrue (collides f tree q) → ((p : Bytes) → IsTrue (has (image f tree) p) →
        IsTrue (is_lt (slice_cmp nat_cmp p q)) → IsFalse (collides f tree p)) →
        collision f tree ≡ Some q }
{}

/// The image of a tree can be put together path by path: as long as it grows by one path each time it is the image of
/// the front, which may be mapped; and where the images are apart it grows.
pub fn an_image_is_put_together()
    ensures grows { (f : Bytes → Bytes) (front : Tree) (e : Bytes × Entry) (rest made : Tree) →
        IsTree (front ++ e ∷ rest) → length (front ++ e ∷ []) ≤ MAX_PATHS → MayMove f front →
        IsTrue (is_path (f e.0)) →
        apply (Modify e.1.mode e.1.content (f e.0)) (image f front) ≡ Ok made →
        length made ≡ length front + 1 →
        MayMove f (front ++ e ∷ []) × (made ≡ image f (front ++ e ∷ [])) }
    ensures must { (f : Bytes → Bytes) (front : Tree) (e : Bytes × Entry) (rest : Tree) →
        IsTree (front ++ e ∷ rest) → length (front ++ e ∷ []) ≤ MAX_PATHS → MayMove f front →
        IsTrue (is_path (f e.0)) → AreApart f (front ++ e ∷ rest) →
        (apply (Modify e.1.mode e.1.content (f e.0)) (image f front)
        ≡ Ok (image f (front ++ e ∷ []))) × (length (image f (front ++ e ∷ [])) ≡ length front + 1) }
{}

/// Where the image of a path of a tree is no path, the tree has an image that is too long.
pub fn what_is_no_path_is_too_long()
    ensures { (how : PathMap) (tree : Tree) (p : Bytes) → HasPaths how → IsPath p → IsTrue (has tree p) →
        IsFalse (is_path (image_of how p)) → IsTrue (has_long_image (image_of how) tree) }
{}

/// An image that is too long is reported before images that collide.
pub fn a_long_image_comes_first()
    ensures long { (f : Bytes → Bytes) (mark number : ℕ) (tree : Tree) → IsTrue (has_long_image f tree) →
        image_fault f mark number tree ≡ Some (fault.Limit limit.PathBytes MAX_PATH_BYTES) }
    ensures collision { (f : Bytes → Bytes) (mark number : ℕ) (tree : Tree) (path : Bytes) →
        IsFalse (has_long_image f tree) → collision f tree ≡ Some path →
        image_fault f mark number tree ≡ Some (fault.PathCollision mark number path) }
{}
