//! Laws of the machine. Each function's contract is one; its body is empty, or calls the laws that it rests on.
ghost use Rattle.std.specs.Prelude.{◌≡◌, ℕ, ℤ, Bool, false, List, [], None, Ok, Err, Option, Result, take};
ghost use Rattle.std.specs.List.{AllByRecursion};
ghost use Rattle.plain_model.specs.declared.event.PlainEvent.{PlainEvent};
ghost use Rattle.plain_model.specs.declared.fault.Fault.{Fault};
ghost use Rattle.plain_model.specs.Faults.{refusal};
ghost use Rattle.plain_model.specs.Files.{Files};
ghost use Rattle.byte_patterns.specs.Judging.{Denial};
ghost use Rattle.plain_model.specs.Text.{text};
ghost use Rattle.edit_laws.specs.Editing.{IsEdit, IsLawfulHistory, Remade};
ghost use Rattle.event_fields.specs.Shifts.{PlainZone};
ghost use Rattle.event_fields.specs.Values.{PlainValue};
ghost use Rattle.event_sets.specs.Once.{AreLive, IsOnce};
ghost use Rattle.event_sets.specs.Sets.{Ids};
ghost use Rattle.sample_history.specs.Sample.{sample};
ghost use Rattle.script_reader.specs.Commands.{IsSpelledCommand};
ghost use Rattle.script_reader.specs.Edits.{IsSpelledEdit};
ghost use Rattle.script_reader.specs.declared.command.Command.TheVariants as command;
ghost use Rattle.script_reader.specs.declared.command.Command.{Command};
ghost use Rattle.script_reader.specs.declared.command.FileEdit.{FileEdit};
ghost use Rattle.script_reader.specs.declared.edit.Edit.TheVariants as edit;
ghost use Rattle.script_reader.specs.declared.edit.Edit.{Edit};
ghost use Rattle.script_lines.specs.declared.script.ScriptItem.{ScriptItem};
ghost use Rattle.script_lines.specs.declared.script.ScriptLine.{ScriptLine};
ghost use Rattle.plain_model.specs.declared.policy.Lean.{Lean};
ghost use Rattle.plain_model.specs.declared.policy.Policy.{Policy};
ghost use Rattle.stream_grammar.specs.Limits.{stream_of};
ghost use Rattle.plain_model.specs.declared.policy.Push.TheVariants as push;
ghost use Rattle.expunge_laws.specs.Matching.{Matches, matched_by};
ghost use Rattle.history_machine.specs.Changed.{
  ChangesChosen,
  GivesLastTrees,
  JoinsCommits,
  Merges,
  RemovesSelected,
  Reparents,
  Splits,
  SplitsBy,
  Tagifies,
  Unmerges,
};
ghost use Rattle.history_machine.specs.FileEdits.{IsLineFault};
ghost use Rattle.history_machine.specs.Joined.{Divides, Grafts, Unites};
ghost use Rattle.history_machine.specs.Kept.{
  Each,
  KeepsEveryTree,
  KeepsHistory,
  KeepsIdsAndTrees,
  KeepsTreesOfCommits,
  KeepsTreesOfRest,
  LosesPaths,
};
ghost use Rattle.history_machine.specs.Lawful.{IsLawful};
ghost use Rattle.history_machine.specs.Machine.{Effect, effect_of, session_after};
ghost use Rattle.history_machine.specs.PathWords.{matches_of};
ghost use Rattle.history_machine.specs.Sessions.{
  Repo,
  Session,
  after_edit,
  chosen,
  empty_session,
  remade,
  said_by,
};
ghost use Rattle.history_machine.specs.Steps.{line_step, sends, step};
ghost use Rattle.history_machine.specs.Several.{
  IsDivision,
  IsJoining,
  IsUniting,
  after_dividing,
  after_joining,
  after_uniting,
  grafted_with,
  halves_of,
  united_of,
};
ghost use Rattle.history_machine.specs.Whole.{Denials, run, run_from};

use coalesce_laws::{a_coalesce_is_an_edit, a_coalescing_keeps_trees, only_joined_commits_go};
use divide_laws::{
    an_event_goes_with_what_it_refers_to, halves_are_sound, halves_keep_the_limits,
    halves_keep_trees,
};
use expunge_laws::{
    an_expunge_adds_nothing, an_expunge_comes_to_its_end, an_expunge_is_an_edit,
    an_expunge_restricts_trees,
};
use graft_laws::{
    a_graft_has_no_other_events, a_graft_is_an_edit, a_graft_keeps_the_base,
    a_pruned_graft_keeps_trees, a_pruned_unite_keeps_all_trees, a_pruned_unite_keeps_trees,
    a_unite_has_no_other_events, a_unite_is_lawful, a_unite_keeps_the_base,
};
use mailbox_laws::{
    a_box_is_refused_for_a_message, a_landing_is_an_edit, only_people_and_comments_land,
    other_words_keep_all_else,
};
use path_move_laws::a_move_is_an_edit;
use people_laws::{
    a_set_field_is_an_edit, a_time_offset_is_an_edit, authors_are_an_edit,
    changed_fields_keep_trees, the_lowest_line_is_refused,
};
use renumbering::{a_renumbering_is_an_edit, ids_stay, renumbering_keeps_trees};
use reorder_laws::a_reorder_is_an_edit;
use reparent_laws::{
    a_change_is_an_edit, a_change_keeps_the_ids, a_merge_is_of_two_commits,
    a_reparent_has_a_last_commit, one_commit_is_changed, other_parents_keep_trees,
};
use sample_history::samples_are_lawful;
use script_reader::a_command_is_spelled;
use selection_eval::{
    selections_are_live, selections_are_without_repeats, sound_histories_are_such,
};
use simplify_laws::{a_simplify_is_an_edit, simplifying_keeps_the_ids, simplifying_keeps_trees};
use soundness_laws::{what_is_read_is_sound, what_is_read_passes_no_limit};
use split_laws::{
    a_split_is_an_edit, a_split_is_of_one_commit, a_split_keeps_trees, a_split_makes_two_halves,
};
use squash_laws::{
    a_push_back_gives_the_last_tree, a_push_forward_keeps_trees, a_squash_is_an_edit,
    a_squash_removes_its_commits, nothing_is_added, parents_give_way_to_their_parents,
};
use tagify_laws::{
    a_tagify_is_an_edit, a_tagify_removes_its_commits, nothing_else_goes_or_comes,
    tags_are_in_the_place_of_commits,
};

/// A line that is refused leaves the session and the files as they were, one line is printed, and nothing is run in its place.
pub fn a_refused_line_changes_nothing()
    ensures session { (s : Session) (line : ℕ) (fault : Fault) →
        (effect_of s line (Err fault)).session ≡ s }
    ensures no_file { (s : Session) (line : ℕ) (fault : Fault) →
        (effect_of s line (Err fault)).to ≡ None }
    ensures printed { (s : Session) (line : ℕ) (fault : Fault) →
        (effect_of s line (Err fault)).bytes ≡ refusal line fault }
    ensures calls { (s : Session) (line : ℕ) (fault : Fault) →
        (effect_of s line (Err fault)).calls ≡ [] }
{}

/// A `write` is done where a repository is chosen. It sends the text of that history, and changes nothing else.
pub fn a_write_sends_the_stream()
    ensures sent { (denial : Option Denial) (s : Session) (files : Files) (to : Option (List ℕ))
        (t : Effect Session) → step denial s files (command.Write to) ≡ Ok t →
        (repo : Repo) × (chosen s ≡ Ok repo) × (t ≡ sends s to (text repo.history)) }
    ensures done { (denial : Option Denial) (s : Session) (files : Files) (to : Option (List ℕ))
        (repo : Repo) → chosen s ≡ Ok repo →
        step denial s files (command.Write to) ≡ Ok (sends s to (text repo.history)) }
{}

/// A `renumber` that is done leaves every loaded repository its name and the names in it, and each of its commits its id and
/// its tree.
pub fn a_renumber_keeps_trees()
    ensures { (denial : Option Denial) (s : Session) (files : Files) (t : Effect Session) →
        step denial s files command.Renumber ≡ Ok t → Each KeepsIdsAndTrees s.repos t.session.repos }
{
    ids_stay();
    renumbering_keeps_trees();
}

/// An assign that is done leaves every loaded repository its name, its history and its next number: only lists of events under names
/// are others.
pub fn an_assign_keeps_histories()
    ensures { (denial : Option Denial) (s : Session) (files : Files) (selection name : List ℕ)
        (t : Effect Session) → step denial s files (command.Assign selection name) ≡ Ok t →
        Each KeepsHistory s.repos t.session.repos }
{}

/// A squash that pushes forward leaves every loaded repository its name, and each commit that is still there its tree.
pub fn a_squash_forward_keeps_trees()
    ensures { (denial : Option Denial) (s : Session) (files : Files) (selection : Option (List ℕ))
        (tags : Lean) (t : Effect Session) →
        step denial s files (command.Edit selection (edit.Squash (record {
          push = push.Forward;
          tags = tags;
        }))) ≡ Ok t → IsLawful s → Each KeepsTreesOfRest s.repos t.session.repos }
{
    a_push_forward_keeps_trees();
    nothing_is_added();
}

/// A squash that pushes back removes the selected commits of the chosen history and no others: each commit that is still there has
/// the tree of the last removed one that hung on it, and where none did, its own.
pub fn a_squash_back_gives_the_last_tree()
    ensures { (denial : Option Denial) (s : Session) (files : Files) (selection : Option (List ℕ))
        (tags : Lean) (t : Effect Session) →
        step denial s files (command.Edit selection (edit.Squash (record {
          push = push.Back;
          tags = tags;
        }))) ≡ Ok t → IsLawful s → ChangesChosen (GivesLastTrees tags) denial s
        (command.Edit selection (edit.Squash (record { push = push.Back; tags = tags })))
        t.session }
{
    a_push_back_gives_the_last_tree();
    a_squash_removes_its_commits();
    squash_laws::no_other_event_leaves();
    parents_give_way_to_their_parents();
}

/// A split is of one commit of the chosen history: its operations are in two halves, what was on it is on its copy, and nothing else of
/// an event changes. The copy has the tree that the commit had, and every other commit its own.
pub fn a_split_keeps_other_trees()
    ensures at { (denial : Option Denial) (s : Session) (files : Files)
        (selection : Option (List ℕ)) (number : ℕ) (t : Effect Session) →
        step denial s files (command.Edit selection (edit.SplitAt number)) ≡ Ok t →
        IsLawful s → ChangesChosen (Splits number) denial s
        (command.Edit selection (edit.SplitAt number)) t.session }
    ensures by { (denial : Option Denial) (s : Session) (files : Files)
        (selection : Option (List ℕ)) (path : List ℕ) (t : Effect Session) →
        step denial s files (command.Edit selection (edit.SplitBy path)) ≡ Ok t →
        IsLawful s → ChangesChosen (SplitsBy path) denial s
        (command.Edit selection (edit.SplitBy path)) t.session }
{
    a_split_is_of_one_commit();
    a_split_makes_two_halves();
    a_split_keeps_trees();
    selections_are_live();
    sound_histories_are_such();
}

/// A reparent without `--rebase`, a merge and an unmerge leave every loaded repository its name, and all its commits, each
/// with its tree.
pub fn new_parents_keep_trees()
    ensures reparent { (denial : Option Denial) (s : Session) (files : Files)
        (selection : Option (List ℕ)) (use_order : Bool) (t : Effect Session) →
        step denial s files (command.Edit selection (edit.Reparent (record {
          use_order = use_order;
          rebase = false;
        }))) ≡ Ok t → IsLawful s → Each KeepsEveryTree s.repos t.session.repos }
    ensures merge { (denial : Option Denial) (s : Session) (files : Files)
        (selection : Option (List ℕ)) (t : Effect Session) →
        step denial s files (command.Edit selection edit.Merge) ≡ Ok t → IsLawful s →
        Each KeepsEveryTree s.repos t.session.repos }
    ensures unmerge { (denial : Option Denial) (s : Session) (files : Files)
        (selection : Option (List ℕ)) (t : Effect Session) →
        step denial s files (command.Edit selection edit.Unmerge) ≡ Ok t → IsLawful s →
        Each KeepsEveryTree s.repos t.session.repos }
{
    other_parents_keep_trees();
    a_change_keeps_the_ids();
    selections_are_without_repeats();
    selections_are_live();
    sound_histories_are_such();
}

/// A reparent gives the last of its commits the others as parents, a merge gives the later one of two commits the other as a parent too,
/// and an unmerge leaves a commit its first parent alone. All events of the chosen history are there, and nothing else of one changes
/// but that commit's operations.
pub fn new_parents_are_given()
    ensures reparent { (denial : Option Denial) (s : Session) (files : Files)
        (selection : Option (List ℕ)) (use_order rebase : Bool) (t : Effect Session) →
        step denial s files (command.Edit selection (edit.Reparent (record {
          use_order = use_order;
          rebase = rebase;
        }))) ≡ Ok t → IsLawful s → ChangesChosen (Reparents use_order rebase) denial s
        (command.Edit selection (edit.Reparent (record {
          use_order = use_order;
          rebase = rebase;
        }))) t.session }
    ensures merge { (denial : Option Denial) (s : Session) (files : Files)
        (selection : Option (List ℕ)) (t : Effect Session) →
        step denial s files (command.Edit selection edit.Merge) ≡ Ok t → IsLawful s →
        ChangesChosen Merges denial s (command.Edit selection edit.Merge) t.session }
    ensures unmerge { (denial : Option Denial) (s : Session) (files : Files)
        (selection : Option (List ℕ)) (t : Effect Session) →
        step denial s files (command.Edit selection edit.Unmerge) ≡ Ok t → IsLawful s →
        ChangesChosen Unmerges denial s (command.Edit selection edit.Unmerge) t.session }
{
    a_reparent_has_a_last_commit();
    a_merge_is_of_two_commits();
    one_commit_is_changed();
    a_change_keeps_the_ids();
    selections_are_without_repeats();
    selections_are_live();
    sound_histories_are_such();
}

/// A coalesce leaves every loaded repository its name, and each commit that is still there its tree.
pub fn a_coalesce_keeps_trees()
    ensures { (denial : Option Denial) (s : Session) (files : Files)
        (selection : Option (List ℕ)) (seconds : ℕ) (t : Effect Session) →
        step denial s files (command.Edit selection (edit.Coalesce seconds)) ≡ Ok t →
        IsLawful s → Each KeepsTreesOfRest s.repos t.session.repos }
{
    a_coalescing_keeps_trees();
    coalesce_laws::nothing_is_added();
}

/// A squash removes the selected events of the chosen history, whichever way it pushes, and no others but blobs that nothing names any
/// more, and tags and resets for which there is no commit; and each commit has what stands for its old parents. A coalesce removes the
/// commits that are joined to their only child, and no event else.
pub fn no_other_event_leaves()
    ensures squash { (denial : Option Denial) (s : Session) (files : Files)
        (selection : Option (List ℕ)) (how : Policy) (t : Effect Session) →
        step denial s files (command.Edit selection (edit.Squash how)) ≡ Ok t → IsLawful s →
        ChangesChosen (RemovesSelected how) denial s (command.Edit selection (edit.Squash how)) t.session }
    ensures coalesce { (denial : Option Denial) (s : Session) (files : Files)
        (selection : Option (List ℕ)) (seconds : ℕ) (t : Effect Session) →
        step denial s files (command.Edit selection (edit.Coalesce seconds)) ≡ Ok t → IsLawful s →
        ChangesChosen (JoinsCommits seconds) denial s
        (command.Edit selection (edit.Coalesce seconds)) t.session }
{
    a_squash_removes_its_commits();
    squash_laws::no_other_event_leaves();
    parents_give_way_to_their_parents();
    only_joined_commits_go();
}

/// A simplify leaves every loaded repository its name, and all its commits, each with its tree.
pub fn a_simplify_keeps_trees()
    ensures { (denial : Option Denial) (s : Session) (files : Files)
        (selection : Option (List ℕ)) (t : Effect Session) →
        step denial s files (command.Edit selection edit.Simplify) ≡ Ok t → IsLawful s →
        Each KeepsEveryTree s.repos t.session.repos }
{
    simplifying_keeps_trees();
    simplifying_keeps_the_ids();
    simplify_laws::nothing_is_added();
}

/// An edit that a file says leaves every loaded repository its name, its events and each of its commits its tree.
pub fn a_file_edit_keeps_trees()
    ensures { (denial : Option Denial) (s : Session) (files : Files) (what : FileEdit)
        (file : List ℕ) (t : Effect Session) →
        step denial s files (command.EditBy what file) ≡ Ok t →
        Each KeepsEveryTree s.repos t.session.repos }
{
    only_people_and_comments_land();
    other_words_keep_all_else();
    changed_fields_keep_trees();
}

/// Where a repository is chosen and the file is read, such an edit is refused for a line of the file, and for nothing else.
pub fn a_file_edit_is_refused_for_a_line()
    ensures { (s : Session) (repo : Repo) (what : FileEdit) (bytes : List ℕ) (why : Fault) →
        chosen s ≡ Ok repo → after_edit s (said_by what bytes) ≡ Err why → IsLineFault why }
{
    a_box_is_refused_for_a_message();
    the_lowest_line_is_refused();
}

/// A `timeoffset` and a `setfield` leave every loaded repository its name, its events and each of its commits its tree.
pub fn other_fields_keep_trees()
    ensures offset { (denial : Option Denial) (s : Session) (files : Files)
        (selection : Option (List ℕ)) (seconds : ℤ) (zone : Option PlainZone)
        (t : Effect Session) →
        step denial s files (command.Edit selection (edit.TimeOffset seconds zone)) ≡ Ok t →
        Each KeepsEveryTree s.repos t.session.repos }
    ensures value { (denial : Option Denial) (s : Session) (files : Files)
        (selection : Option (List ℕ)) (value : PlainValue) (t : Effect Session) →
        step denial s files (command.Edit selection (edit.SetField value)) ≡ Ok t →
        Each KeepsEveryTree s.repos t.session.repos }
{
    changed_fields_keep_trees();
}

/// A `tagify` leaves every loaded repository its name, and each commit that is still there its tree. It takes away the selected commits
/// of the chosen history that do nothing and have one parent, and puts a tag in the place of each.
pub fn a_tagify_keeps_trees()
    ensures trees { (denial : Option Denial) (s : Session) (files : Files)
        (selection : Option (List ℕ)) (t : Effect Session) →
        step denial s files (command.Edit selection edit.Tagify) ≡ Ok t → IsLawful s →
        Each KeepsTreesOfCommits s.repos t.session.repos }
    ensures tags { (denial : Option Denial) (s : Session) (files : Files)
        (selection : Option (List ℕ)) (t : Effect Session) →
        step denial s files (command.Edit selection edit.Tagify) ≡ Ok t → IsLawful s →
        ChangesChosen Tagifies denial s (command.Edit selection edit.Tagify) t.session }
{
    tags_are_in_the_place_of_commits();
    tagify_laws::a_tagify_keeps_trees();
    a_tagify_removes_its_commits();
    nothing_else_goes_or_comes();
}

/// An expunge that is done takes the paths that its words match out of the chosen repository: each commit that is still
/// there has the tree that it had, without them. No other repository changes.
pub fn an_expunge_takes_paths_out_of_trees()
    ensures { (denial : Option Denial) (s : Session) (files : Files) (words : List (List ℕ))
        (t : Effect Session) → step denial s files (command.Expunge words) ≡ Ok t → IsLawful s →
        (matchers : List Matches) × ((matches_of words).value ≡ Ok matchers)
        × LosesPaths (matched_by matchers) s t.session }
{
    an_expunge_restricts_trees();
    an_expunge_adds_nothing();
    an_expunge_comes_to_its_end();
}

/// A graft that is done leaves the chosen repository its events, each commit with its tree. With `--prune` each commit of the other
/// one has its tree, too. No event comes from elsewhere.
pub fn a_graft_keeps_trees()
    ensures { (denial : Option Denial) (s : Session) (files : Files) (selection name : List ℕ)
        (prune : Bool) (t : Effect Session) →
        step denial s files (command.Graft selection name prune) ≡ Ok t → IsLawful s →
        Grafts prune name s t.session }
{
    selections_are_without_repeats();
    selections_are_live();
    sound_histories_are_such();
    a_graft_keeps_the_base();
    a_pruned_graft_keeps_trees();
    a_graft_has_no_other_events();
}

/// A `unite` that is done leaves each commit of the oldest repository its tree, and with `--prune` each commit of the others. No event
/// comes from elsewhere.
pub fn a_unite_keeps_trees()
    ensures { (denial : Option Denial) (s : Session) (files : Files) (names : List (List ℕ))
        (prune : Bool) (t : Effect Session) →
        step denial s files (command.Unite names prune) ≡ Ok t → IsLawful s →
        Unites prune names s t.session }
{
    a_unite_is_lawful();
    a_unite_keeps_the_base();
    a_pruned_unite_keeps_trees();
    a_pruned_unite_keeps_all_trees();
    a_unite_has_no_other_events();
}

/// A division that is done leaves each commit of the chosen repository in one half alone, with its tree.
pub fn a_division_keeps_trees()
    ensures { (denial : Option Denial) (s : Session) (files : Files) (selection : List ℕ)
        (t : Effect Session) → step denial s files (command.Divide selection) ≡ Ok t → IsLawful s →
        Divides denial (command.Divide selection) s t.session }
{
    an_event_goes_with_what_it_refers_to();
    halves_keep_trees();
}

/// Where each repository keeps the trees of its events it keeps every commit with its tree, and then the trees of what is still
/// there; and what several commands in turn keep of these, all of them together keep.
pub fn what_is_kept_composes()
    ensures all { (old new : List Repo) → Each KeepsIdsAndTrees old new → Each KeepsEveryTree old new }
    ensures rest { (old new : List Repo) → Each KeepsEveryTree old new → Each KeepsTreesOfRest old new }
    ensures every_in_turn { (first second third : List Repo) → Each KeepsEveryTree first second →
        Each KeepsEveryTree second third → Each KeepsEveryTree first third }
    ensures rest_in_turn { (first second third : List Repo) → Each KeepsTreesOfRest first second →
        Each KeepsTreesOfRest second third → Each KeepsTreesOfRest first third }
{}

/// What is read of a stream is a lawful history.
pub fn what_is_read_is_lawful()
    ensures { (bytes : List ℕ) (events : List PlainEvent) → stream_of bytes ≡ Ok events →
        IsLawfulHistory events }
{
    what_is_read_is_sound();
    what_is_read_passes_no_limit();
}

/// So is each sample.
pub fn a_sample_is_lawful()
    ensures { (count start : ℕ) → IsLawfulHistory (sample count start) }
{
    samples_are_lawful();
}

/// Each edit makes lawful histories of lawful ones, if the operation that it may add is one that a script can spell.
pub fn every_edit_is_one()
    ensures { (what : Edit) → IsSpelledEdit what →
        IsEdit (λ set next events. remade what set next events) }
{
    a_squash_is_an_edit();
    a_split_is_an_edit();
    a_reorder_is_an_edit();
    a_change_is_an_edit();
    a_coalesce_is_an_edit();
    a_simplify_is_an_edit();
    a_move_is_an_edit();
    a_time_offset_is_an_edit();
    a_set_field_is_an_edit();
    a_tagify_is_an_edit();
}

/// So does each edit that a file says.
pub fn every_file_edit_is_one()
    ensures { (what : FileEdit) (bytes : List ℕ) →
        IsEdit (λ set next events. said_by what bytes next events) }
{
    a_landing_is_an_edit();
    authors_are_an_edit();
}

/// A lawful session, whose histories are lawful and whose names are right, stays one by every command that is done, if a script
/// can spell it. So it does by every line.
pub fn a_step_keeps_it()
    ensures command { (denial : Option Denial) (s : Session) (files : Files) (what : Command)
        (t : Effect Session) → step denial s files what ≡ Ok t → IsLawful s →
        IsSpelledCommand what → IsLawful t.session }
    ensures line { (denial : Option Denial) (s : Session) (files : Files) (depth : ℕ)
        (what : ScriptLine) (t : Effect Session) → line_step denial s files depth what ≡ Ok t →
        IsLawful s → IsLawful t.session }
{
    what_is_read_is_lawful();
    a_sample_is_lawful();
    selections_are_without_repeats();
    selections_are_live();
    sound_histories_are_such();
    every_edit_is_one();
    an_expunge_is_an_edit();
    a_renumbering_is_an_edit();
    every_file_edit_is_one();
    several_become_lawful();
    a_command_is_spelled();
}

/// So is each session of a run that begins with such a one, as the empty one is: before each line that is carried out, after it, and
/// where the run breaks off.
pub fn each_session_of_a_run_is_lawful()
    ensures empty { IsLawful empty_session }
    ensures after { (denials : Denials) (s : Session) (files : Files) (items : List ScriptItem)
        (keep_going : Bool) → IsLawful s → AllByRecursion (λ t. IsLawful t.session)
        (run_from denials s files items keep_going).effects }
    ensures before { (denials : Denials) (s : Session) (files : Files) (items : List ScriptItem)
        (keep_going : Bool) → IsLawful s → (k : ℕ) →
        IsLawful (session_after s (take k (run_from denials s files items keep_going).effects)) }
    ensures whole { (denials : Denials) (words : List (List ℕ)) (files : Files) →
        AllByRecursion (λ t. IsLawful t.session) (run denials words files).effects }
{
    a_step_keeps_it();
}

/// What `graft`, `unite` and `divide` make of lawful repositories is lawful.
pub fn several_become_lawful()
    ensures grafts { (prune : Bool) → IsJoining (grafted_with prune) }
    ensures unites { (prune : Bool) → IsUniting (united_of prune) }
    ensures divides { (ids : Ids) → IsDivision (halves_of ids) }
{
    a_graft_is_an_edit();
    a_unite_is_lawful();
    halves_are_sound();
    halves_keep_the_limits();
}

/// A command that takes another repository in leaves such a session, where what it makes of the two is an edit; and so do one that
/// makes one repository of several and one that makes two of one, where what they make is lawful.
pub fn several_repositories_keep_it()
    ensures joining { (s after : Session) (name : List ℕ)
        (edit : Repo → Ids → ℕ → List PlainEvent → Result Remade Fault) (ids : Ids) →
        IsJoining edit → IsLawful s → IsOnce ids →
        ((repo : Repo) → chosen s ≡ Ok repo → AreLive repo.history ids) →
        after_joining s name (λ part. edit part ids) ≡ Ok after → IsLawful after }
    ensures uniting { (s after : Session) (names : List (List ℕ))
        (united : List Repo → Result Repo Fault) → IsUniting united → IsLawful s →
        after_uniting s names united ≡ Ok after → IsLawful after }
    ensures dividing { (s after : Session)
        (halves_of : List PlainEvent → Result (List PlainEvent × List PlainEvent) Fault) →
        IsDivision halves_of → IsLawful s →
        after_dividing s halves_of ≡ Ok after → IsLawful after }
{}

/// The chosen history of such a session is sound and within the limits.
pub fn the_chosen_history_is_lawful()
    ensures { (s : Session) (repo : Repo) → chosen s ≡ Ok repo → IsLawful s →
        IsLawfulHistory repo.history }
{}
