//! Small examples of what the definitions say, computed by the checker.
ghost use Rattle.std.specs.Prelude.{◌≡◌, ◌≤◌, ◌+◌, [], None, Ok, Some, IsSome, codes, length};
ghost use Rattle.plain_model.specs.declared.limit.TheConstants.{MAX_PATHS};
ghost use Rattle.plain_model.specs.Histories.{folded, tree};
ghost use Rattle.plain_model.specs.Trees.{IsTree, Tree, at, cleared_for, without};
ghost use Rattle.simplify_laws.specs.Examples.{
  anew_at_once,
  begun_anew,
  folder_goes,
  folder_goes_last,
  foldered,
  one_blob,
  put_and_deleted,
  put_below,
  put_last,
  put_over,
  put_twice,
  renamed_between,
  third,
  two_blobs,
};
ghost use Rattle.simplify_laws.specs.Simplify.{simpler, simplify_of};

/// A file that is put twice is put the last time alone.
pub fn a_file_is_put_once()
    ensures { simplify_of third put_twice ≡ Ok put_last }
{}

/// A put that a deletion and then another put make void goes with its blob.
pub fn a_blob_goes_with_its_last_operation()
    ensures { simplify_of third (two_blobs put_over) ≡ Ok one_blob }
{}

/// A put stays where the file is renamed before it is put again, and a deletion of a folder where a file is put below it.
pub fn an_operation_before_a_rename_stays()
    ensures renamed { simplify_of third (two_blobs renamed_between) ≡ Ok (two_blobs renamed_between) }
    ensures below { simplify_of third (two_blobs put_below) ≡ Ok (two_blobs put_below) }
{}

/// A put stays before a deletion of its path: it may have taken away a file that was in its way.
pub fn a_put_before_a_deletion_stays()
    ensures done { simplify_of third (two_blobs put_and_deleted) ≡ Ok (two_blobs put_and_deleted) }
    ensures its_tree { tree (two_blobs put_and_deleted) 3 ≡ Some [] }
{}

/// Whatever is before a `deleteall` is void, a copy and another `deleteall` too.
pub fn a_deleteall_drops_all_before_it()
    ensures { simplify_of third (two_blobs begun_anew) ≡ Ok (two_blobs anew_at_once) }
{}

/// Where a dropped deletion of a folder made room, a file comes while the folder is still there. In a tree with as many
/// paths as are allowed that is refused.
pub fn a_drop_may_need_room()
    ensures small { simplify_of third (foldered folder_goes) ≡ Ok (foldered folder_goes_last) }
    ensures its_tree { tree (foldered folder_goes_last) 3 ≡ tree (foldered folder_goes) 3 }
    ensures left { simpler folder_goes ≡ folder_goes_last }
    ensures before { (full : Tree) → length (without (codes "d") full) + 2 ≤ MAX_PATHS → IsTree full →
        IsSome (folded folder_goes (Some full)) }
    ensures after { (full : Tree) → length full ≡ MAX_PATHS → IsTree full → at full (codes "e") ≡ None →
        cleared_for (codes "e") full ≡ full → folded folder_goes_last (Some full) ≡ None }
{}
