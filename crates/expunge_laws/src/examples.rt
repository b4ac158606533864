//! Small examples of what the definitions say, computed by the checker.
ghost use Rattle.std.specs.Prelude.{◌≡◌, [], ◌∷◌, Ok, Some, codes, false, true};
ghost use Rattle.plain_model.specs.declared.operation.Content.TheVariants.{Blob as OfBlob};
ghost use Rattle.plain_model.specs.declared.operation.Mode.TheVariants.{Plain};
ghost use Rattle.plain_model.specs.Histories.{tree};
ghost use Rattle.squash_laws.specs.Examples.{each_kind};
ghost use Rattle.expunge_laws.specs.Expunged.{expunge_of};
ghost use Rattle.expunge_laws.specs.Examples.{
  beside,
  carried_out,
  copied,
  copied_out,
  folder_left_out,
  folder_over_file,
  merged,
  middle,
  not_beside,
  only,
  still_merged,
  two_roots,
  without_both,
  without_middle,
  without_root,
  without_secret,
};

/// What a rename carried out of a matched path is put at its new path, and what one carried into a matched path is
/// deleted. A blob goes where nothing names it any more.
pub fn what_was_carried_out_stays()
    ensures secret { expunge_of (only (codes "secret")) carried_out ≡ Ok without_secret }
    ensures z { expunge_of (only (codes "z")) without_secret ≡ Ok without_both }
{}

/// A commit of which nothing is left goes, and its tag goes to its child.
pub fn a_tag_goes_to_the_child()
    ensures { expunge_of (only (codes "s")) middle ≡ Ok without_middle }
{}

/// Where a root before a merge is emptied, the merge begins without files, and its tree is the old one without the
/// path.
pub fn a_merge_begins_without_files()
    ensures left { expunge_of (only (codes "s")) two_roots ≡ Ok without_root }
    ensures tree { tree without_root 5
        ≡ Some ((codes "h", record { mode = Plain; content = OfBlob 2 }) ∷ []) }
{}

/// A file goes that gave way to a matched one. A copy of a matched file stays, and so does a deletion of a folder that
/// has more than matched files.
pub fn folders_and_copies_are_written_out()
    ensures folder { expunge_of (only (codes "a/s")) folder_over_file ≡ Ok folder_left_out }
    ensures copy { expunge_of (only (codes "d/s")) copied ≡ Ok copied_out }
{}

/// A merge stays, and so does a commit that did nothing.
pub fn merges_stay()
    ensures { expunge_of (only (codes "s")) merged ≡ Ok still_merged }
{}

/// Where the only commit of a branch is emptied, its tag, its reset and its alias go with it.
pub fn an_only_branch_leaves()
    ensures { expunge_of (only (codes "s")) beside ≡ Ok not_beside }
{}

/// An expunge of no path changes nothing, and one of all paths leaves nothing of a history without merges.
pub fn an_expunge_of_nothing_changes_nothing()
    ensures none { expunge_of (λ p. false) each_kind ≡ Ok each_kind }
    ensures all { expunge_of (λ p. true) carried_out ≡ Ok [] }
{}
