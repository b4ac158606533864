//! Laws of edits that keep operations, not trees: which events are left, and on which parents commits are; and of an expunge, which
//! events leave. Each function's contract is a law; its body calls the laws that it rests on.
ghost use Rattle.std.specs.Prelude.{◌≡◌, Bool, List, Ok, Option, true, ℕ};
ghost use Rattle.plain_model.specs.Files.{Files};
ghost use Rattle.plain_model.specs.declared.policy.Lean.{Lean};
ghost use Rattle.plain_model.specs.declared.policy.Push.TheVariants as push;
ghost use Rattle.plain_model.specs.declared.raw.RawOp.{RawOp};
ghost use Rattle.plain_model.specs.Fields.{HasItsContent, OpFits};
ghost use Rattle.byte_patterns.specs.Judging.{Denial};
ghost use Rattle.expunge_laws.specs.Matching.{Matches, matched_by};
ghost use Rattle.reparent_laws.specs.declared.removal.Removal.TheVariants.{Index};
ghost use Rattle.script_reader.specs.declared.command.Command.TheVariants as command;
ghost use Rattle.script_reader.specs.declared.edit.Edit.TheVariants as edit;
ghost use Rattle.history_machine.specs.Changed.{
  Adds,
  ChangesChosen,
  Deletes,
  Expunges,
  Rebases,
  Removes,
  RemovesBy,
  Reorders,
};
ghost use Rattle.history_machine.specs.Lawful.{IsLawful};
ghost use Rattle.history_machine.specs.Machine.{Effect};
ghost use Rattle.history_machine.specs.PathWords.{matches_of};
ghost use Rattle.history_machine.specs.Sessions.{Session};
ghost use Rattle.history_machine.specs.Steps.{step};

use expunge_laws::{
    an_expunge_restricts_trees, blobs_leave_that_nothing_names, emptied_commits_leave,
    parents_give_way_to_what_stays, what_stays_is_as_it_was,
};
use reorder_laws::{a_line_is_put_in_order, a_reorder_keeps_the_ids, a_reorder_replays_operations};
use reparent_laws::{
    a_blob_goes_with_its_last_operation, a_change_keeps_the_ids, a_rebase_replays_operations,
    a_reparent_has_a_last_commit, an_operation_is_of_one_commit, one_commit_is_changed,
    other_operations_are_replayed,
};
use selection_eval::{
    selections_are_live, selections_are_without_repeats, sound_histories_are_such,
};
use squash_laws::{
    a_squash_removes_its_commits, no_other_event_leaves, parents_give_way_to_their_parents,
};

/// A deletion removes the selected events of the chosen history with the tags and resets of removed commits, and no others but blobs
/// that nothing names any more. Each commit that is still there has its operations, on what stands for its old parents, and its tree
/// is what they make of its new first parent's. Nothing else of an event changes.
pub fn a_deletion_replays_what_remains()
    ensures { (denial : Option Denial) (s : Session) (files : Files) (selection : Option (List ℕ))
        (tags : Lean) (t : Effect Session) →
        step denial s files (command.Edit selection (edit.Squash (record {
          push = push.Discard;
          tags = tags;
        }))) ≡ Ok t → IsLawful s → ChangesChosen (Deletes tags) denial s
        (command.Edit selection (edit.Squash (record { push = push.Discard; tags = tags })))
        t.session }
{
    a_squash_removes_its_commits();
    no_other_event_leaves();
    parents_give_way_to_their_parents();
    squash_laws::a_deletion_replays_what_remains();
}

/// A reorder keeps all events of the chosen history. The selected commits have the parents that their order gives them, the last of
/// them stands among parents for the last of the line, and nothing else of an event changes: each tree is what a commit's operations
/// make of its new first parent's.
pub fn a_reorder_replays_in_another_order()
    ensures { (denial : Option Denial) (s : Session) (files : Files) (selection : Option (List ℕ))
        (t : Effect Session) → step denial s files (command.Edit selection edit.Reorder) ≡ Ok t →
        IsLawful s →
        ChangesChosen Reorders denial s (command.Edit selection edit.Reorder) t.session }
{
    a_line_is_put_in_order();
    a_reorder_keeps_the_ids();
    a_reorder_replays_operations();
    selections_are_without_repeats();
    selections_are_live();
    sound_histories_are_such();
}

/// A reparent with `--rebase` keeps all events of the chosen history. The last of its commits has the others as its parents, and
/// nothing else of an event changes: each tree is what a commit's operations make of its new first parent's.
pub fn a_rebase_replays_on_other_parents()
    ensures { (denial : Option Denial) (s : Session) (files : Files) (selection : Option (List ℕ))
        (use_order : Bool) (t : Effect Session) →
        step denial s files (command.Edit selection (edit.Reparent (record {
          use_order = use_order;
          rebase = true;
        }))) ≡ Ok t → IsLawful s → ChangesChosen (Rebases use_order) denial s
        (command.Edit selection (edit.Reparent (record { use_order = use_order; rebase = true })))
        t.session }
{
    a_reparent_has_a_last_commit();
    one_commit_is_changed();
    a_change_keeps_the_ids();
    a_rebase_replays_operations();
    selections_are_without_repeats();
    selections_are_live();
    sound_histories_are_such();
}

/// An add and a remove change the operations of one commit of the chosen history, and nothing else of any event: each tree is what a
/// commit's operations make of its first parent's. A remove takes those blobs away that only the removed operations named.
pub fn an_operation_changes_one_commit()
    ensures add { (denial : Option Denial) (s : Session) (files : Files) (selection : Option (List ℕ))
        (op : RawOp) (t : Effect Session) →
        step denial s files (command.Edit selection (edit.Add op)) ≡ Ok t → IsLawful s →
        HasItsContent op → OpFits op →
        ChangesChosen (Adds op) denial s (command.Edit selection (edit.Add op)) t.session }
    ensures remove_at { (denial : Option Denial) (s : Session) (files : Files)
        (selection : Option (List ℕ)) (number : ℕ) (t : Effect Session) →
        step denial s files (command.Edit selection (edit.RemoveAt number)) ≡ Ok t → IsLawful s →
        ChangesChosen (Removes (Index number)) denial s
        (command.Edit selection (edit.RemoveAt number)) t.session }
    ensures remove_by { (denial : Option Denial) (s : Session) (files : Files)
        (selection : Option (List ℕ)) (path : List ℕ) (t : Effect Session) →
        step denial s files (command.Edit selection (edit.RemoveBy path)) ≡ Ok t → IsLawful s →
        ChangesChosen (RemovesBy path) denial s (command.Edit selection (edit.RemoveBy path))
        t.session }
{
    an_operation_is_of_one_commit();
    one_commit_is_changed();
    a_change_keeps_the_ids();
    a_blob_goes_with_its_last_operation();
    other_operations_are_replayed();
}

/// After an expunge those commits of the chosen history are gone that it emptied, and no others; those blobs that nothing names any
/// more; and those tags and resets for which there is no commit. What stays has its tree without the paths that the words match, on
/// what stands for its old parents. Nothing else of an event changes, but operations, and the targets of tags and resets.
pub fn an_expunge_removes_what_it_emptied()
    ensures { (denial : Option Denial) (s : Session) (files : Files) (words : List (List ℕ))
        (t : Effect Session) → step denial s files (command.Expunge words) ≡ Ok t → IsLawful s →
        (matchers : List Matches) × ((matches_of words).value ≡ Ok matchers)
        × ChangesChosen (Expunges (matched_by matchers)) denial s (command.Expunge words) t.session }
{
    emptied_commits_leave();
    blobs_leave_that_nothing_names();
    parents_give_way_to_what_stays();
    what_stays_is_as_it_was();
    an_expunge_restricts_trees();
    expunge_laws::no_other_event_leaves();
}
