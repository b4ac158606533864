//! Worked streams: the histories and first defects of small texts, which the prover computes.
ghost use Rattle.std.specs.Prelude.{◌≡◌, ◌++◌, [], ◌∷◌, codes, None, Some};
ghost use Rattle.plain_model.specs.declared.fault.Why.TheVariants.{
  BadData,
  BadMark,
  BadMode,
  BadName,
  BadPath,
  BadPerson,
  BadWhen,
  LeftOut,
  MissingLine,
  MissingSource,
  RepeatedMark,
  UnknownLine,
  UnknownMark,
  UnknownRef,
};
ghost use Rattle.plain_model.specs.declared.event.PlainEvent.TheVariants.{
  Blob,
  Commit,
  Pass,
  Reset,
  Tag,
};
ghost use Rattle.plain_model.specs.declared.operation.Content.TheVariants.{Blob as OfBlob};
ghost use Rattle.plain_model.specs.declared.operation.FileOp.TheVariants.{
  Copy,
  Delete,
  DeleteAll,
  Modify,
};
ghost use Rattle.plain_model.specs.declared.operation.Mode.TheVariants.{Plain};
ghost use Rattle.line_automaton.specs.Machine.{all, outcome};
ghost use Rattle.line_automaton.specs.Machine.Outcome.{Misses, Refuses};
ghost use Rattle.stream_grammar.specs.Lines.{history_in, stream};
ghost use Rattle.stream_grammar.specs.Worked.{ann, commit_on_b, lines, of_ann};

/// Streams and their histories. An id is an event's place, from 1.
pub fn streams_have_histories()
    ensures empty { history_in [] ≡ Some [] }

    ensures marked { history_in (lines (codes "blob" ∷ codes "mark :7" ∷ codes "data 2" ∷ codes "hi"
        ∷ commit_on_b ++ [] ∷ codes "M 644 :7 f" ∷ []))
        ≡ Some (Blob 1 7 (codes "hi")
        ∷ of_ann 2 8 [] (Modify Plain (OfBlob 1) (codes "f") ∷ []) ∷ []) }

    // What has no mark gets the next numbers above the greatest.
    ensures unmarked { history_in (lines (codes "blob" ∷ codes "data 0" ∷ [] ∷ codes "blob" ∷ codes "mark :3"
        ∷ codes "data 0" ∷ [] ∷ codes "blob" ∷ codes "data 0" ∷ []))
        ≡ Some (Blob 1 4 [] ∷ Blob 2 3 [] ∷ Blob 3 5 [] ∷ []) }

    // The bytes of an operation are a blob before the commit.
    ensures inline { history_in (lines (commit_on_b ++ [] ∷ codes "M 100644 inline f" ∷ codes "data 1" ∷ codes "x" ∷ []))
        ≡ Some (Blob 1 1 (codes "x")
        ∷ of_ann 2 2 [] (Modify Plain (OfBlob 1) (codes "f") ∷ []) ∷ []) }

    // A commit goes on from its branch's tip.
    ensures tip { history_in (lines (commit_on_b ++ [] ∷ commit_on_b ++ [] ∷ codes "D f" ∷ []))
        ≡ Some (of_ann 1 1 [] [] ∷ of_ann 2 2 (1 ∷ []) (Delete (codes "f") ∷ []) ∷ []) }

    // A merge without a first parent begins with no files.
    ensures root_of_a_merge { history_in (lines (codes "commit refs/heads/a" ∷ codes "mark :1"
        ∷ codes "committer Ann <a@b> 1 +0000" ∷ codes "data 0" ∷ codes "reset refs/heads/b"
        ∷ commit_on_b ++ [] ∷ codes "merge :1" ∷ []))
        ≡ history_in (lines (codes "commit refs/heads/a" ∷ codes "mark :1"
        ∷ codes "committer Ann <a@b> 1 +0000" ∷ codes "data 0" ∷ codes "reset refs/heads/b"
        ∷ commit_on_b ++ [] ∷ codes "from :1" ∷ codes "deleteall" ∷ [])) }

    // A delimiter ends the data, and a comment may be wherever a line is expected.
    ensures delimited { history_in (lines (codes "blob" ∷ codes "# of two lines" ∷ codes "data <<END" ∷ codes "# x"
        ∷ codes "y" ∷ codes "END" ∷ []))
        ≡ Some (Blob 1 1 (lines (codes "# x" ∷ codes "y" ∷ [])) ∷ []) }

    ensures other_events { history_in (lines (codes "feature done" ∷ commit_on_b ++ [] ∷ codes "reset refs/heads/c"
        ∷ codes "from refs/heads/b" ∷ [] ∷ codes "tag v1" ∷ codes "from refs/heads/c"
        ∷ codes "tagger Ann <a@b> 1 +0000" ∷ codes "data 0" ∷ [] ∷ codes "done" ∷ codes "never read" ∷ []))
        ≡ Some (Pass 1 (codes "feature done") ∷ of_ann 2 1 [] []
        ∷ Reset 3 (codes "refs/heads/c") (Some 2) ∷ Tag 4 (codes "v1") 2 (Some ann) [] None ∷ []) }

    // An alias is one more mark of its commit, and names it from then on; what has no mark gets one above all of them.
    ensures alias { history_in (lines (commit_on_b ++ codes "alias" ∷ codes "mark :9" ∷ codes "to refs/heads/b" ∷ []
        ∷ codes "tag v1" ∷ codes "mark :7" ∷ codes "from :9" ∷ codes "data 0" ∷ []))
        ≡ Some (Commit 1 10 (codes "refs/heads/b") ann ann None [] [] [] (9 ∷ [])
        ∷ Tag 2 (codes "v1") 1 None [] (Some 7) ∷ []) }
{}

/// Lines that can't be where they do.
pub fn forms_have_first_defects()
    ensures unknown { outcome stream all (lines (codes "hello" ∷ [])) ≡ Refuses 1 UnknownLine }
    ensures no_data { outcome stream all (lines (codes "blob" ∷ codes "mark :1" ∷ codes "blob" ∷ []))
        ≡ Refuses 3 MissingLine }
    ensures no_committer { outcome stream all (lines (codes "commit refs/heads/b" ∷ codes "data 0" ∷ []))
        ≡ Refuses 2 MissingLine }
    ensures author_too_late { outcome stream all (lines (codes "commit refs/heads/b"
        ∷ codes "committer Ann <a@b> 1 +0000" ∷ codes "author Ann <a@b> 1 +0000" ∷ []))
        ≡ Refuses 3 MissingLine }

    // A line that belongs into an event isn't one between events.
    ensures operation_outside { outcome stream all (lines (codes "D f" ∷ [])) ≡ Refuses 1 UnknownLine }

    // An author without anything after it is no person.
    ensures bare_word { outcome stream all (lines (codes "commit refs/heads/b" ∷ codes "author" ∷ []))
        ≡ Refuses 2 BadPerson }

    // What git knows and this program leaves out is named as such, also within an event.
    ensures left_out { outcome stream all (lines (codes "blob" ∷ codes "cat-blob :1" ∷ []))
        ≡ Refuses 2 LeftOut }
    ensures mark_of_a_tag { outcome stream all (lines (commit_on_b ++ [] ∷ codes "tag v1" ∷ codes "from refs/heads/b"
        ∷ codes "mark :2" ∷ [])) ≡ Refuses 7 MissingLine }
    ensures alias_without_mark { outcome stream all (lines (commit_on_b ++ codes "alias" ∷ codes "to :1" ∷ []))
        ≡ Refuses 5 MissingLine }
    ensures alias_with_more { outcome stream all (lines (codes "alias x" ∷ [])) ≡ Refuses 1 UnknownLine }
    ensures left_out_feature { outcome stream all (lines (codes "feature import-marks=f" ∷ []))
        ≡ Refuses 1 LeftOut }
{}

/// Fields with a defect, and marks, branches and paths that aren't there.
pub fn fields_have_first_defects()
    ensures mark { outcome stream all (lines (codes "blob" ∷ codes "mark :0" ∷ [])) ≡ Refuses 2 BadMark }
    ensures mark_again { outcome stream all (lines (codes "blob" ∷ codes "mark :1" ∷ codes "data 0" ∷ [] ∷ codes "blob"
        ∷ codes "mark :1" ∷ [])) ≡ Refuses 6 RepeatedMark }
    ensures name { outcome stream all (lines (codes "reset " ∷ [])) ≡ Refuses 1 BadName }
    ensures moment { outcome stream all (lines (codes "commit b" ∷ codes "committer Ann <a@b> now" ∷ []))
        ≡ Refuses 2 BadWhen }
    ensures count { outcome stream all (lines (codes "blob" ∷ codes "data x" ∷ [])) ≡ Refuses 2 BadData }
    ensures mode { outcome stream all (lines (commit_on_b ++ [] ∷ codes "M 7 :1 f" ∷ []))
        ≡ Refuses 5 BadMode }
    ensures path { outcome stream all (lines (commit_on_b ++ [] ∷ codes "D a//b" ∷ []))
        ≡ Refuses 5 BadPath }
    ensures no_blob { outcome stream all (lines (commit_on_b ++ [] ∷ codes "M 644 :9 f" ∷ []))
        ≡ Refuses 5 UnknownMark }
    ensures alias_again { outcome stream all (lines (commit_on_b ++ codes "alias" ∷ codes "mark :9" ∷ codes "to refs/heads/b"
        ∷ codes "alias" ∷ codes "mark :9" ∷ [])) ≡ Refuses 8 RepeatedMark }
    ensures mark_of_a_tag { outcome stream all (lines (commit_on_b ++ codes "tag v1" ∷ codes "mark :7"
        ∷ codes "from refs/heads/b" ∷ codes "data 0" ∷ codes "tag v2" ∷ codes "from :7" ∷ [])) ≡ Refuses 9 UnknownMark }
    ensures no_branch { outcome stream all (lines (codes "reset refs/heads/b" ∷ codes "from refs/heads/c" ∷ []))
        ≡ Refuses 2 UnknownRef }

    // A commit's tree at this point has the source, or something below it.
    ensures source { outcome stream all (lines (commit_on_b ++ [] ∷ codes "M 644 inline d/f" ∷ codes "data 0" ∷ []
        ∷ codes "C d/f g" ∷ codes "R d e" ∷ codes "R d g" ∷ [])) ≡ Refuses 10 MissingSource }

    // Fields are judged from left to right.
    ensures first_field { outcome stream all (lines (commit_on_b ++ [] ∷ codes "M 7 :9 a//b" ∷ []))
        ≡ Refuses 5 BadMode }
{}

/// Texts that end too early.
pub fn ends_come_early()
    ensures no_line { outcome stream all (lines (codes "blob" ∷ [])) ≡ Misses 2 }
    ensures cut_data { outcome stream all (lines (codes "blob" ∷ codes "data 9" ∷ codes "x" ∷ [])) ≡ Misses 2 }
    ensures no_done { outcome stream all (lines (codes "feature done" ∷ [])) ≡ Misses 2 }
{}
