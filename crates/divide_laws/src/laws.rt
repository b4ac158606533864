//! Laws of a division, first of the link, then of what is where, then of trees. Each function's contract is one, and
//! its body is empty.
ghost use Rattle.edit_laws.specs.Keeping.{AddsNothing};
ghost use Rattle.reparent_laws.specs.Remaining.{IsRewritten};
ghost use Rattle.std.specs.Prelude.{◌≡◌, ◌↔◌, ℕ, List, Some, Err, Ok, IsTrue, filter, map, not};
ghost use Rattle.std.specs.List.{AllByRecursion};
ghost use Rattle.plain_model.specs.declared.event.PlainEvent.{PlainEvent};
ghost use Rattle.plain_model.specs.declared.fault.Fault.TheVariants as fault;
ghost use Rattle.plain_model.specs.declared.id.AnyId.{AnyId};
ghost use Rattle.plain_model.specs.declared.id.AnyId.TheVariants as any;
ghost use Rattle.plain_model.specs.Histories.{past};
ghost use Rattle.plain_model.specs.Lookups.{find_event, id_of};
ghost use Rattle.plain_model.specs.Snapshots.{commit_mark};
ghost use Rattle.plain_model.specs.Soundness.{IsCommitOf, IsSound, has_id};
ghost use Rattle.ancestry_laws.specs.Ancestry.{is_parent_in};
ghost use Rattle.edit_laws.specs.Parts.{AreComplete};
ghost use Rattle.edit_laws.specs.Passing.{IsWithinLimits};
ghost use Rattle.divide_laws.specs.Divide.{cut_link, divide_of, loses};
ghost use Rattle.divide_laws.specs.declared.link.Link.{Link};
ghost use Rattle.divide_laws.specs.Links.{IsChain, is_late};
ghost use Rattle.divide_laws.specs.Remaining.{HasTreesOf, IsPlaced};
ghost use Rattle.divide_laws.specs.declared.halves.Halves.{Halves};

/// The link that is cut is one between a commit of the history and one of its parents.
pub fn the_link_is_one_of_parents()
    ensures { (set : List AnyId) (events : List PlainEvent) (cut : Link) →
        cut_link set events ≡ Ok cut → IsTrue (is_parent_in (past events) cut.parent cut.child) }
{}

/// The late commits are those to which a chain of other links leads from the child, and the parent is early.
pub fn the_late_commits_are_joined_to_the_child()
    ensures joined { (events : List PlainEvent) (cut : Link) (c : ℕ) →
        IsTrue (is_late events cut c) ↔ IsChain events cut cut.child c }
    ensures late { (set : List AnyId) (events : List PlainEvent) (cut : Link) (halves : Halves) (c : ℕ) →
        cut_link set events ≡ Ok cut → divide_of set events ≡ Ok halves → IsCommitOf events c →
        has_id halves.late (any.Commit c) ≡ is_late events cut c }
    ensures child { (set : List AnyId) (events : List PlainEvent) (cut : Link) (halves : Halves) →
        cut_link set events ≡ Ok cut → divide_of set events ≡ Ok halves →
        IsCommitOf halves.late cut.child }
    ensures parent { (set : List AnyId) (events : List PlainEvent) (cut : Link) (halves : Halves) →
        IsSound events → cut_link set events ≡ Ok cut → divide_of set events ≡ Ok halves →
        IsCommitOf halves.early cut.parent }
{}

/// A history is refused exactly where a chain of other links leads from the child to the parent, once the link is
/// there.
pub fn a_chain_keeps_the_halves_together()
    ensures refused { (set : List AnyId) (events : List PlainEvent) (cut : Link) →
        cut_link set events ≡ Ok cut → IsChain events cut cut.child cut.parent →
        divide_of set events ≡ Err (fault.StillConnected (commit_mark events cut.child)) }
    ensures divided { (set : List AnyId) (events : List PlainEvent) (cut : Link) (halves : Halves) →
        cut_link set events ≡ Ok cut → divide_of set events ≡ Ok halves →
        IsChain events cut cut.child cut.parent → ⊥ }
{}

/// Both halves of a sound history are sound.
pub fn halves_are_sound()
    ensures early { (set : List AnyId) (events : List PlainEvent) (halves : Halves) → IsSound events →
        divide_of set events ≡ Ok halves → IsSound halves.early }
    ensures late { (set : List AnyId) (events : List PlainEvent) (halves : Halves) → IsSound events →
        divide_of set events ≡ Ok halves → IsSound halves.late }
{}

/// A commit is in one half alone. A tag, and a reset with a target, is where its commit is; a reset without one and a
/// passed line are in both; a blob is in each half that names it, and in the early one where none does.
pub fn an_event_goes_with_what_it_refers_to()
    ensures commits { (set : List AnyId) (events : List PlainEvent) (halves : Halves) (c : ℕ) →
        divide_of set events ≡ Ok halves → IsCommitOf events c →
        has_id halves.late (any.Commit c) ≡ not (has_id halves.early (any.Commit c)) }
    ensures events { (set : List AnyId) (events : List PlainEvent) (halves : Halves) → IsSound events →
        divide_of set events ≡ Ok halves → AllByRecursion (IsPlaced halves) events }
{}

/// All that a half refers to is in it.
pub fn halves_refer_to_themselves()
    ensures early { (set : List AnyId) (events : List PlainEvent) (halves : Halves) → IsSound events →
        divide_of set events ≡ Ok halves → AreComplete halves.early }
    ensures late { (set : List AnyId) (events : List PlainEvent) (halves : Halves) → IsSound events →
        divide_of set events ≡ Ok halves → AreComplete halves.late }
{}

/// Each event of a half is one of the history, as it was, but for the child of the cut link, which is in the late
/// half: it has lost the parent, and where that was its first one its operations write out its tree.
pub fn halves_are_as_they_were()
    ensures early { (set : List AnyId) (events : List PlainEvent) (halves : Halves) → IsSound events →
        divide_of set events ≡ Ok halves →
        AllByRecursion (λ e. find_event (id_of e) events ≡ Some e) halves.early }
    ensures late { (set : List AnyId) (events : List PlainEvent) (cut : Link) (halves : Halves) →
        IsSound events → cut_link set events ≡ Ok cut → divide_of set events ≡ Ok halves →
        AllByRecursion (IsRewritten cut.child (loses events cut.parent) events) halves.late }
{}

/// The events of a half are in the order in which they were.
pub fn halves_keep_the_order()
    ensures early { (set : List AnyId) (events : List PlainEvent) (halves : Halves) → IsSound events →
        divide_of set events ≡ Ok halves →
        map id_of halves.early ≡ filter (has_id halves.early) (map id_of events) }
    ensures late { (set : List AnyId) (events : List PlainEvent) (halves : Halves) → IsSound events →
        divide_of set events ≡ Ok halves →
        map id_of halves.late ≡ filter (has_id halves.late) (map id_of events) }
{}

/// No half has an event, id, mark or alias more than the history.
pub fn nothing_is_added()
    ensures early { (set : List AnyId) (events : List PlainEvent) (halves : Halves) →
        divide_of set events ≡ Ok halves → AddsNothing events halves.early }
    ensures late { (set : List AnyId) (events : List PlainEvent) (halves : Halves) →
        divide_of set events ≡ Ok halves → AddsNothing events halves.late }
{}

/// Both halves of a history within the limits are within them.
pub fn halves_keep_the_limits()
    ensures early { (set : List AnyId) (events : List PlainEvent) (halves : Halves) → IsSound events →
        IsWithinLimits events → divide_of set events ≡ Ok halves → IsWithinLimits halves.early }
    ensures late { (set : List AnyId) (events : List PlainEvent) (halves : Halves) → IsSound events →
        IsWithinLimits events → divide_of set events ≡ Ok halves → IsWithinLimits halves.late }
{}

/// Each commit has the tree that it had, with the same bytes in it.
pub fn halves_keep_trees()
    ensures early { (set : List AnyId) (events : List PlainEvent) (halves : Halves) → IsSound events →
        divide_of set events ≡ Ok halves → HasTreesOf events halves.early }
    ensures late { (set : List AnyId) (events : List PlainEvent) (halves : Halves) → IsSound events →
        divide_of set events ≡ Ok halves → HasTreesOf events halves.late }
{}
