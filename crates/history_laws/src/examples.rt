//! Small examples of what the definitions say, computed by the checker.
ghost use Rattle.std.specs.Prelude.{◌≡◌, [], ◌∷◌, map};
ghost use Rattle.plain_model.specs.Histories.{tree};
ghost use Rattle.plain_model.specs.Text.{text};
ghost use Rattle.history_laws.specs.Examples.{
  put_in_turn,
  moved_in_turn,
  file_folder_file,
  reset_before_root,
  root_on_a_tip,
  second_root_written,
};

/// In two examples a file gives way where a folder of its name comes, and the folder where the file comes
/// again.
pub fn files_and_folders_give_way()
    ensures puts { map (tree put_in_turn) (2 ∷ 3 ∷ 4 ∷ []) ≡ file_folder_file }
    ensures moves { map (tree moved_in_turn) (2 ∷ 3 ∷ 4 ∷ []) ≡ file_folder_file }
{}

/// In an example a `reset` is written before a root on a branch that has a tip, and where the history has that
/// reset itself, no second one.
pub fn a_root_is_reset_once()
    ensures as_it_stands { text reset_before_root ≡ second_root_written }
    ensures put_in { text root_on_a_tip ≡ second_root_written }
{}
