//! Laws of renumbering. Each function's contract is one, and its body is empty.
ghost use Rattle.std.specs.Prelude.{◌≡◌, ℕ, List, Ok, length, map};
ghost use Rattle.std.specs.List.{enumerate_from};
ghost use Rattle.plain_model.specs.declared.event.PlainEvent.{PlainEvent};
ghost use Rattle.plain_model.specs.Histories.{tree};
ghost use Rattle.plain_model.specs.Lookups.{id_of, marks_of};
ghost use Rattle.plain_model.specs.Snapshots.{refs, shown_tree};
ghost use Rattle.plain_model.specs.Soundness.{IsSound};
ghost use Rattle.edit_laws.specs.Editing.{IsEdit, with_number};
ghost use Rattle.renumbering.specs.Renumbered.{all_marked, renumbered};

/// All marks, in the order of the list, are 1, 2, 3, ..: a blob's, a commit's and then its aliases, a tag's.
/// The events that have them are the same.
pub fn marks_count_up()
    ensures { (events : List PlainEvent) → marks_of (renumbered events)
        ≡ enumerate_from 1 (map (λ own. own.1) (marks_of events)) }
{}

/// But for the numbers that its marks are, each event is the same: a commit keeps as many aliases, and a tag has a
/// mark where it had one.
pub fn nothing_else_changes()
    ensures { (events : List PlainEvent) (mark : ℕ) →
        map (all_marked mark) (renumbered events) ≡ map (all_marked mark) events }
{}

/// Each commit keeps its tree, with the same bytes in it, and each branch is where it was.
pub fn renumbering_keeps_trees()
    ensures trees { (events : List PlainEvent) (c : ℕ) →
        tree (renumbered events) c ≡ tree events c }
    ensures shown { (events : List PlainEvent) (c : ℕ) →
        shown_tree (renumbered events) c ≡ shown_tree events c }
    ensures refs { (events : List PlainEvent) → refs (renumbered events) ≡ refs events }
{}

/// The same ids are in the same order, so there are as many events.
pub fn ids_stay()
    ensures ids { (events : List PlainEvent) →
        map id_of (renumbered events) ≡ map id_of events }
    ensures count { (events : List PlainEvent) → length (renumbered events) ≡ length events }
{}

/// A sound history stays sound. Its marks occur once, so there are no more than marks.
pub fn renumbering_keeps_soundness()
    ensures { (events : List PlainEvent) → IsSound events → IsSound (renumbered events) }
{}

/// A second time changes nothing.
pub fn numbered_again()
    ensures { (events : List PlainEvent) →
        renumbered (renumbered events) ≡ renumbered events }
{}

/// A renumbering is an edit that gives no number, looks at no selection and is never refused: of a lawful history it makes a
/// lawful one.
pub fn a_renumbering_is_an_edit()
    ensures { IsEdit (λ set next events. with_number next (Ok (renumbered events))) }
{}
