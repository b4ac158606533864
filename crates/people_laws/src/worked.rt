//! Small examples of what the definitions say, computed by the checker.
ghost use Rattle.std.specs.Prelude.{◌≡◌, [], ◌∷◌, Ok, Err, None, Some, codes, map, negsuc, pos, true};
ghost use Rattle.plain_model.specs.declared.fault.Fault.TheVariants as fault;
ghost use Rattle.plain_model.specs.declared.id.AnyId.TheVariants as any;
ghost use Rattle.history_laws.specs.Examples.{master, someone_at};
ghost use Rattle.event_fields.specs.declared.field.Field.TheVariants as field;
ghost use Rattle.people_laws.specs.Authors.{author_of, authors_of};
ghost use Rattle.people_laws.specs.Dates.{time_offset_of};
ghost use Rattle.people_laws.specs.Examples.{
  authors_file,
  bad_file,
  by_a,
  by_ann,
  earlier,
  later,
  latest,
  no_authors,
  none_of,
  right_authors,
  right_lines,
  signed,
};
ghost use Rattle.people_laws.specs.Values.{set_field_of};

/// Of two lines with one email the later counts, and all people are looked up by the emails that they had. The first line
/// that is no author is refused.
pub fn authors_are_put_in()
    ensures done { authors_of authors_file by_a ≡ Ok by_ann }
    ensures bad { authors_of bad_file by_a ≡ Err (fault.BadAuthors 2) }
    ensures none { authors_of [] by_a ≡ Ok by_a }
{}

/// A key with blanks, an email that is empty, and ` = ` twice, of which the first counts.
pub fn lines_that_are_authors()
    ensures { map author_of right_lines ≡ right_authors }
{}

/// A name is missing, or the key; something is after the `>`, if only a CR; a `<` is missing, or the space before it; there is one
/// `>` too many; the blanks around `=` are missing; or there is nothing but blanks.
pub fn lines_that_are_no_authors()
    ensures { map author_of no_authors ≡ none_of no_authors }
{}

/// The dates of an author and a committer, or of a tagger, move together; the first event in the order of the selection is
/// refused that would have a date before 1970 or after the last one.
pub fn dates_move()
    ensures later { time_offset_of (pos 50) None (any.Commit 2 ∷ any.Blob 1 ∷ []) by_a ≡ Ok later }
    ensures earlier { time_offset_of (negsuc 49) (Some (record { minus = true; offset = 330 }))
        (any.Commit 3 ∷ any.Tag 5 ∷ any.Reset 4 ∷ []) by_a ≡ Ok earlier }
    ensures range { time_offset_of (negsuc 150) None (any.Commit 3 ∷ any.Commit 2 ∷ []) by_a ≡ Err (fault.MomentRange 2) }
    ensures order { time_offset_of (negsuc 200) None (any.Tag 5 ∷ any.Commit 2 ∷ []) by_a ≡ Err (fault.MomentRange 5) }
    ensures greatest { time_offset_of (pos 249999999900) None (any.Commit 2 ∷ []) by_a ≡ Ok latest }
    ensures last { time_offset_of (pos 249999999901) None (any.Commit 2 ∷ []) by_a ≡ Err (fault.MomentRange 2) }
{}

/// The comment of a commit, the branch of a commit and a reset, and the name of a tag are set; selected events that have no
/// such field stay.
pub fn values_are_set()
    ensures comment { set_field_of (record { field = field.Comment; text = codes "two words" })
        (any.Commit 3 ∷ any.Reset 4 ∷ any.Blob 1 ∷ []) by_a
        ≡ signed (someone_at 100) (someone_at 200) (codes "two words") master (codes "v1") }
    ensures branch { set_field_of (record { field = field.Branch; text = codes "side" })
        (any.Commit 3 ∷ any.Reset 4 ∷ any.Tag 5 ∷ []) by_a
        ≡ signed (someone_at 100) (someone_at 200) (codes "c3") (codes "side") (codes "v1") }
    ensures name { set_field_of (record { field = field.Name; text = codes "v2" })
        (any.Tag 5 ∷ any.Commit 2 ∷ []) by_a
        ≡ signed (someone_at 100) (someone_at 200) (codes "c3") master (codes "v2") }
{}
