//! Laws of commands in turn. Each function's contract is one; its body calls the laws that it rests on.
ghost use Rattle.std.specs.Prelude.{◌≡◌, ℕ, Bool, List, Ok, Option, Some, IsFalse, IsTrue, take};
ghost use Rattle.std.specs.List.{AllByRecursion};
ghost use Rattle.plain_model.specs.Files.{Files};
ghost use Rattle.plain_model.specs.Lookups.{id_number};
ghost use Rattle.plain_model.specs.Paths.{Bytes};
ghost use Rattle.plain_model.specs.Soundness.{has_id};
ghost use Rattle.plain_model.specs.declared.id.AnyId.{AnyId};
ghost use Rattle.byte_patterns.specs.Judging.{Denial};
ghost use Rattle.script_lines.specs.declared.script.ScriptItem.{ScriptItem};
ghost use Rattle.script_reader.specs.Commands.{IsSpelledCommand};
ghost use Rattle.script_reader.specs.declared.command.Command.{Command};
ghost use Rattle.history_machine.specs.Lawful.{IsLawful};
ghost use Rattle.history_machine.specs.Machine.{Effect, session_after};
ghost use Rattle.history_machine.specs.Sessions.{Repo, Session, empty_session, find_repo};
ghost use Rattle.history_machine.specs.Steps.{step};
ghost use Rattle.history_machine.specs.Whole.{Denials, run, run_from};
ghost use Rattle.kept_steps.specs.Changing.{Changes, Remains, RemainsWhole};
ghost use Rattle.kept_steps.specs.Following.{Joins, arrived, comes, joins, joins_nothing, source};
ghost use Rattle.kept_steps.specs.Keeping.{keeps_commits, keeps_trees, line_passes};
ghost use Rattle.kept_steps.specs.Origins.{IsKept, IsAlone, IsWhole, held_from, origins_from};
ghost use Rattle.kept_steps.specs.Requests.{IsLoad, Request, after_requests, steps_by, steps_of};

use history_machine::{
    a_coalesce_keeps_trees, a_file_edit_keeps_trees, a_graft_keeps_trees, a_renumber_keeps_trees,
    a_simplify_keeps_trees, a_squash_forward_keeps_trees, a_step_keeps_it, a_unite_keeps_trees,
    an_assign_keeps_histories, each_session_of_a_run_is_lawful, new_parents_keep_trees,
    other_fields_keep_trees, what_is_kept_composes,
};

/// What a command that keeps trees does to the load list, if it is done: of each repository something is left with its trees, another
/// one is taken in, or several become one. Where it keeps commits, all are left. What comes is the history of the file that a `read`
/// names, or a `sample`, and nothing comes by others.
pub fn one_command_keeps_trees()
    ensures trees { (denial : Option Denial) (s : Session) (files : Files) (what : Command)
        (t : Effect Session) → step denial s files what ≡ Ok t → IsLawful s →
        IsTrue (keeps_trees what) → Changes Remains s (joins what) t.session }
    ensures commits { (denial : Option Denial) (s : Session) (files : Files) (what : Command)
        (t : Effect Session) → step denial s files what ≡ Ok t → IsLawful s →
        IsTrue (keeps_commits what) → Changes RemainsWhole s (joins what) t.session }
    ensures loads { (denial : Option Denial) (s : Session) (files : Files) (what : Command)
        (t : Effect Session) → step denial s files what ≡ Ok t → IsLawful s →
        IsTrue (keeps_trees what) → IsLoad files what (arrived s (joins what) t.session) }
{
    a_renumber_keeps_trees();
    an_assign_keeps_histories();
    a_squash_forward_keeps_trees();
    new_parents_keep_trees();
    a_coalesce_keeps_trees();
    a_simplify_keeps_trees();
    a_file_edit_keeps_trees();
    other_fields_keep_trees();
    a_graft_keeps_trees();
    a_unite_keeps_trees();
    what_is_kept_composes();
}

/// Each event that is there before a command is itself, as if the command were refused: its repository doesn't come by the command, and no
/// number is as high as a new one.
pub fn what_is_there_is_itself()
    ensures { (s : Session) (how : Joins) (name : Bytes) (repo : Repo) (id : AnyId) → IsLawful s →
        find_repo name s.repos ≡ Some repo → IsTrue (has_id repo.history id) →
        IsFalse (comes s how name) × (source s how (record { repo = name; number = id_number id })
        ≡ record { repo = name; number = id_number id }) }
{}

/// After commands that keep trees, each done or refused, every event of a loaded repository is one of a repository that came, or that
/// was there at first, and each commit has the tree that it had there. The commands are such as a script can spell.
pub fn commits_keep_their_trees_through_commands()
    ensures { (s : Session) (asked : List Request) → IsLawful s →
        AllByRecursion (λ one. IsSpelledCommand one.what) asked →
        AllByRecursion (λ one. IsTrue (keeps_trees one.what)) asked → AllByRecursion
        (IsKept (origins_from s (steps_of s asked))) (after_requests s asked).repos }
{
    one_command_keeps_trees();
    a_step_keeps_it();
}

/// So it is after each run whose lines keep trees, those of macros included, and after the first lines of a whole run, if these do.
pub fn commits_keep_their_trees_through_a_run()
    ensures from { (denials : Denials) (s : Session) (files : Files) (items : List ScriptItem)
        (keep_going : Bool) → IsLawful s →
        AllByRecursion (λ line. IsTrue (line_passes keeps_trees line))
        (run_from denials s files items keep_going).ran → AllByRecursion
        (IsKept (origins_from s (steps_by (run_from denials s files items keep_going).ran
        (run_from denials s files items keep_going).effects)))
        (session_after s (run_from denials s files items keep_going).effects).repos }
    ensures whole { (denials : Denials) (words : List Bytes) (files : Files) →
        AllByRecursion (λ line. IsTrue (line_passes keeps_trees line)) (run denials words files).ran →
        AllByRecursion
        (IsKept (origins_from empty_session (steps_by (run denials words files).ran
        (run denials words files).effects)))
        (session_after empty_session (run denials words files).effects).repos }
    ensures on_the_way { (denials : Denials) (words : List Bytes) (files : Files) (k : ℕ) →
        AllByRecursion (λ line. IsTrue (line_passes keeps_trees line))
        (take k (run denials words files).ran) → AllByRecursion
        (IsKept (origins_from empty_session (steps_by (run denials words files).ran
        (take k (run denials words files).effects))))
        (session_after empty_session (take k (run denials words files).effects)).repos }
{
    one_command_keeps_trees();
    a_step_keeps_it();
    each_session_of_a_run_is_lawful();
}

/// Where no command is one that removes commits, either, each repository that came and wasn't dropped is in a loaded one, with all the
/// commits that it had when it came.
pub fn every_commit_stays_through_commands()
    ensures { (s : Session) (asked : List Request) → IsLawful s →
        AllByRecursion (λ one. IsSpelledCommand one.what) asked →
        AllByRecursion (λ one. IsTrue (keeps_commits one.what)) asked → AllByRecursion
        (IsWhole (origins_from s (steps_of s asked)) (after_requests s asked).repos)
        (held_from s (steps_of s asked)) }
{
    one_command_keeps_trees();
    a_step_keeps_it();
}

/// So it is after each run of such lines, and after the first lines of a whole run, if these are such.
pub fn every_commit_stays_through_a_run()
    ensures from { (denials : Denials) (s : Session) (files : Files) (items : List ScriptItem)
        (keep_going : Bool) → IsLawful s →
        AllByRecursion (λ line. IsTrue (line_passes keeps_commits line))
        (run_from denials s files items keep_going).ran → AllByRecursion
        (IsWhole (origins_from s (steps_by (run_from denials s files items keep_going).ran
        (run_from denials s files items keep_going).effects))
        (session_after s (run_from denials s files items keep_going).effects).repos)
        (held_from s (steps_by (run_from denials s files items keep_going).ran
        (run_from denials s files items keep_going).effects)) }
    ensures whole { (denials : Denials) (words : List Bytes) (files : Files) →
        AllByRecursion (λ line. IsTrue (line_passes keeps_commits line)) (run denials words files).ran →
        AllByRecursion
        (IsWhole (origins_from empty_session (steps_by (run denials words files).ran
        (run denials words files).effects))
        (session_after empty_session (run denials words files).effects).repos)
        (held_from empty_session (steps_by (run denials words files).ran
        (run denials words files).effects)) }
    ensures on_the_way { (denials : Denials) (words : List Bytes) (files : Files) (k : ℕ) →
        AllByRecursion (λ line. IsTrue (line_passes keeps_commits line))
        (take k (run denials words files).ran) → AllByRecursion
        (IsWhole (origins_from empty_session (steps_by (run denials words files).ran
        (take k (run denials words files).effects)))
        (session_after empty_session (take k (run denials words files).effects)).repos)
        (held_from empty_session (steps_by (run denials words files).ran
        (take k (run denials words files).effects))) }
{
    one_command_keeps_trees();
    a_step_keeps_it();
    each_session_of_a_run_is_lawful();
}

/// Where no command joins repositories, each loaded one has the events of one that came under its name, under the ids that they had.
pub fn names_and_ids_stay_through_commands()
    ensures { (s : Session) (asked : List Request) → IsLawful s →
        AllByRecursion (λ one. IsSpelledCommand one.what) asked →
        AllByRecursion (λ one. IsTrue (joins_nothing one.what)) asked → AllByRecursion
        (IsAlone (origins_from s (steps_of s asked))) (after_requests s asked).repos }
{
    a_step_keeps_it();
}

/// So it is after each run of such lines, and after the first lines of a whole run, if these are such.
pub fn names_and_ids_stay_through_a_run()
    ensures from { (denials : Denials) (s : Session) (files : Files) (items : List ScriptItem)
        (keep_going : Bool) → IsLawful s →
        AllByRecursion (λ line. IsTrue (line_passes joins_nothing line))
        (run_from denials s files items keep_going).ran → AllByRecursion
        (IsAlone (origins_from s (steps_by (run_from denials s files items keep_going).ran
        (run_from denials s files items keep_going).effects)))
        (session_after s (run_from denials s files items keep_going).effects).repos }
    ensures whole { (denials : Denials) (words : List Bytes) (files : Files) →
        AllByRecursion (λ line. IsTrue (line_passes joins_nothing line)) (run denials words files).ran →
        AllByRecursion
        (IsAlone (origins_from empty_session (steps_by (run denials words files).ran
        (run denials words files).effects)))
        (session_after empty_session (run denials words files).effects).repos }
    ensures on_the_way { (denials : Denials) (words : List Bytes) (files : Files) (k : ℕ) →
        AllByRecursion (λ line. IsTrue (line_passes joins_nothing line))
        (take k (run denials words files).ran) → AllByRecursion
        (IsAlone (origins_from empty_session (steps_by (run denials words files).ran
        (take k (run denials words files).effects))))
        (session_after empty_session (take k (run denials words files).effects)).repos }
{
    a_step_keeps_it();
    each_session_of_a_run_is_lawful();
}
