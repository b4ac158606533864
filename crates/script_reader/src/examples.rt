//! Small examples of what the definitions say, computed by the checker.
ghost use Rattle.std.specs.Prelude.{◌≡◌, Some, codes};
ghost use Rattle.plain_model.specs.Policies.{delete_how};
ghost use Rattle.script_reader.specs.Written.{CanBeWritten, line_with, parts_of};
ghost use Rattle.script_reader.specs.declared.command.Command.TheVariants as command;
ghost use Rattle.script_reader.specs.declared.command.Order.TheVariants.{Step};
ghost use Rattle.script_reader.specs.declared.edit.Edit.TheVariants as edit;

/// A word has quotes where it has a blank, or would be a redirection, and only there.
pub fn lines_are_written_as_these()
    ensures alone { line_with (parts_of (Step command.Renumber)) ≡ codes "renumber" }
    ensures file { line_with (parts_of (Step (command.Write (Some (codes "b.fi")))))
        ≡ codes "write >b.fi" }
    ensures selected { line_with (parts_of (Step (command.Assign (codes ":1..:2") (codes "x"))))
        ≡ codes ":1..:2 assign x" }
    ensures option { line_with (parts_of (Step (command.Edit (Some (codes ":3"))
        (edit.Squash delete_how)))) ≡ codes ":3 squash --delete" }
    ensures blank { line_with (parts_of (Step (command.Edit (Some (codes ":3"))
        (edit.RemoveBy (codes "a b"))))) ≡ codes ":3 remove \"a b\"" }
    ensures sign { line_with (parts_of (Step (command.Edit (Some (codes ":3"))
        (edit.RemoveBy (codes ">a"))))) ≡ codes ":3 remove \">a\"" }
    ensures can { CanBeWritten (Step (command.Write (Some (codes "b.fi")))) }
{}
