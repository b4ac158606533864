//! Laws of moves of paths: which files commits have afterwards. Each function's contract is a law; its body calls the laws that it rests on.
ghost use Rattle.std.specs.Prelude.{◌≡◌, List, Ok, Option, ℕ};
ghost use Rattle.plain_model.specs.Files.{Files};
ghost use Rattle.byte_patterns.specs.Judging.{Denial};
ghost use Rattle.path_move_laws.specs.declared.path_map.PathMap.TheVariants.{Rename, Sub, Sup};
ghost use Rattle.script_reader.specs.declared.command.Command.TheVariants as command;
ghost use Rattle.script_reader.specs.declared.edit.Edit.TheVariants as edit;
ghost use Rattle.history_machine.specs.Changed.{ChangesChosen, MovesPaths};
ghost use Rattle.history_machine.specs.Lawful.{IsLawful};
ghost use Rattle.history_machine.specs.Machine.{Effect};
ghost use Rattle.history_machine.specs.Sessions.{Session};
ghost use Rattle.history_machine.specs.Steps.{step};

use path_move_laws::{a_move_maps_trees, nothing_else_changes};

/// A `path rename`, a `paths sub` and a `paths sup` give each commit of the chosen history the tree that it had, with each
/// file at its new path and the same bytes in it. All else of each event is as it was, but for the operations of commits.
pub fn a_move_gives_files_other_paths()
    ensures rename { (denial : Option Denial) (s : Session) (files : Files)
        (selection : Option (List ℕ)) (source target : List ℕ) (t : Effect Session) →
        step denial s files (command.Edit selection (edit.PathRename source target)) ≡ Ok t →
        IsLawful s → ChangesChosen (MovesPaths (Rename source target)) denial s
        (command.Edit selection (edit.PathRename source target)) t.session }
    ensures sub { (denial : Option Denial) (s : Session) (files : Files)
        (selection : Option (List ℕ)) (folder : List ℕ) (t : Effect Session) →
        step denial s files (command.Edit selection (edit.PathsSub folder)) ≡ Ok t →
        IsLawful s → ChangesChosen (MovesPaths (Sub folder)) denial s
        (command.Edit selection (edit.PathsSub folder)) t.session }
    ensures sup { (denial : Option Denial) (s : Session) (files : Files)
        (selection : Option (List ℕ)) (folder : List ℕ) (t : Effect Session) →
        step denial s files (command.Edit selection (edit.PathsSup folder)) ≡ Ok t →
        IsLawful s → ChangesChosen (MovesPaths (Sup folder)) denial s
        (command.Edit selection (edit.PathsSup folder)) t.session }
{
    a_move_maps_trees();
    nothing_else_changes();
}
