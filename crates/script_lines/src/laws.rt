//! Laws of words and scripts. A caller has one by a call of its function.
ghost use Rattle.std.specs.List.{list_all};
ghost use Rattle.std.specs.Prelude.{◌≡◌, ℕ, List, Err, true};
ghost use Rattle.plain_model.specs.declared.fault.Fault.TheVariants.{Absent};
ghost use Rattle.script_lines.specs.Scripts.{script_of};
ghost use Rattle.script_lines.specs.declared.word.Word.{Word};
ghost use Rattle.script_lines.specs.Words.{words_of};
ghost use Rattle.script_lines.specs.Written.{is_whole, line_of};

/// Words that are written with a space after each, in quotes or without, are found again.
pub fn words_are_found_again()
    ensures { (words : List Word) → list_all is_whole words ≡ true → words_of (line_of words) ≡ words }
{}

/// What is wrong with the bytes of a script is never that a file is missing.
pub fn a_script_is_never_absent()
    ensures { (bytes name : List ℕ) → script_of bytes ≡ Err (Absent name) → ⊥ }
{}
