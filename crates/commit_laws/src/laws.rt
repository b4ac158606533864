//! Laws of one commit of a history.
ghost use Rattle.std.specs.Prelude.{◌≡◌, ℕ, List, Some, IsFalse, IsTrue};
ghost use Rattle.std.specs.List.{AllByRecursion};
ghost use Rattle.plain_model.specs.declared.event.PlainEvent.{PlainEvent};
ghost use Rattle.plain_model.specs.Histories.{Node, node_at, nodes, past};
ghost use Rattle.plain_model.specs.declared.id.AnyId.{AnyId};
ghost use Rattle.plain_model.specs.Lookups.{next_mark};
ghost use Rattle.plain_model.specs.Marks.{IsMark};
ghost use Rattle.plain_model.specs.Soundness.{IsCommitOf, IsSound, are_distinct};
ghost use Rattle.plain_model.specs.Streams.{is_marked};
ghost use Rattle.commit_laws.specs.Selected.{chosen, listed};
ghost use Rattle.edit_laws.specs.Selecting.{IsSelection};

/// Each commit of a sound history is found by its id, with its parents and its operations.
pub fn a_commit_is_found_as_it_is()
    ensures { (events : List PlainEvent) → IsSound events →
        AllByRecursion (λ (n : Node). node_at (past events) n.id ≡ Some n) (nodes events) }
{}

/// The commits of a selection are there, each once, in the order of the selection and in that of the list.
pub fn a_selection_has_its_commits_once()
    ensures chosen { (events : List PlainEvent) (set : List AnyId) → IsSelection events set →
        AllByRecursion (IsCommitOf events) (chosen set) }
    ensures chosen_once { (events : List PlainEvent) (set : List AnyId) → IsSelection events set →
        IsTrue (are_distinct (chosen set)) }
    ensures listed { (set : List AnyId) (events : List PlainEvent) →
        AllByRecursion (IsCommitOf events) (listed set events) }
    ensures listed_once { (set : List AnyId) (events : List PlainEvent) → IsSound events →
        IsTrue (are_distinct (listed set events)) }
{}

/// One above the greatest mark is a mark that no event has, if there is one.
pub fn the_next_mark_is_new()
    ensures new { (events : List PlainEvent) (mark : ℕ) → next_mark events ≡ Some mark →
        IsFalse (is_marked events mark) }
    ensures mark { (events : List PlainEvent) (mark : ℕ) → IsSound events →
        next_mark events ≡ Some mark → IsMark mark }
{}
