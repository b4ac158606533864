//! Laws of runs: of a script that runs no macro, and how many turns there are.
ghost use Rattle.std.specs.Prelude.{◌≡◌, ◌+◌, ◌≤◌, ℕ, Bool, List, length};
ghost use Rattle.std.specs.List.{AllByRecursion};
ghost use Rattle.plain_model.specs.Files.{Files};
ghost use Rattle.plain_model.specs.declared.limit.TheConstants.{MAX_COMMANDS};
ghost use Rattle.plain_model.specs.declared.status.Status.TheVariants as status;
ghost use Rattle.script_lines.specs.declared.script.ScriptItem.{ScriptItem};
ghost use Rattle.history_machine.specs.Sessions.{Session};
ghost use Rattle.history_machine.specs.Straight.{AreFirstOf, RunsNoMacro, lines_of};
ghost use Rattle.history_machine.specs.Whole.{Denials, run_from};

/// A run of a script that runs no macro carries out the first of its lines, in their order, each once; and all of them where none is
/// refused.
pub fn a_script_is_run_from_its_front()
    ensures front { (denials : Denials) (s : Session) (files : Files) (items : List ScriptItem)
        (keep_going : Bool) → AllByRecursion (λ item. RunsNoMacro item.what) items →
        AreFirstOf (run_from denials s files items keep_going).ran (lines_of items) }
    ensures all { (denials : Denials) (s : Session) (files : Files) (items : List ScriptItem)
        (keep_going : Bool) → AllByRecursion (λ item. RunsNoMacro item.what) items →
        (run_from denials s files items keep_going).status ≡ status.Done →
        (run_from denials s files items keep_going).ran ≡ lines_of items }
{}

/// A run has one turn a line that it carries out, and at most one more than that many lines, for the one that is refused since it is one
/// too many.
pub fn a_run_has_so_many_turns()
    ensures { (denials : Denials) (s : Session) (files : Files) (items : List ScriptItem)
        (keep_going : Bool) →
        length (run_from denials s files items keep_going).effects ≤ MAX_COMMANDS + 1 }
{}
