//! Laws of a graft and of a `unite`. Each function's contract is one; its body is empty, or calls those that it rests on.
ghost use Rattle.std.specs.Prelude.{
  ◌≡◌,
  ◌+◌,
  ◌-◌,
  ◌++◌,
  ◌≤◌,
  ◌<◌,
  ◌⊎◌,
  ◌∷◌,
  ℕ,
  Bool,
  List,
  Option,
  Ok,
  IsFalse,
  IsTrue,
  drop,
  length,
  map,
  slice_get,
  take,
  true,
};
ghost use Rattle.std.specs.List.{AllByRecursion, enumerate_from};
ghost use Rattle.plain_model.specs.declared.event.PlainEvent.{PlainEvent};
ghost use Rattle.plain_model.specs.declared.id.AnyId.{AnyId};
ghost use Rattle.plain_model.specs.Histories.{nodes, tree};
ghost use Rattle.plain_model.specs.Lookups.{AreIdsBelow, greatest_mark, id_number, marks_of, next_number};
ghost use Rattle.plain_model.specs.Paths.{Bytes};
ghost use Rattle.plain_model.specs.Soundness.{IsCommitOf, IsSound, has_id};
ghost use Rattle.edit_laws.specs.Editing.{IsEdit, IsLawfulHistory, with_number};
ghost use Rattle.edit_laws.specs.Equations.{Fits};
ghost use Rattle.edit_laws.specs.Passing.{IsWithinLimits};
ghost use Rattle.edit_laws.specs.Selecting.{IsSelection};
ghost use Rattle.renumbering.specs.Renumbered.{all_marked, renumbered};
ghost use Rattle.graft_laws.specs.Graft.{graft_of};
ghost use Rattle.graft_laws.specs.Joined.{
  AreNameBytes,
  BeginsWith,
  HasTreesOf,
  IsLawfulPart,
  IsPart,
  StaysIn,
};
ghost use Rattle.graft_laws.specs.Joining.{new_number, without_passes};
ghost use Rattle.graft_laws.specs.Names.{is_used, names_of};
ghost use Rattle.graft_laws.specs.Order.{IsByAge, IsLatest, of_age};
ghost use Rattle.graft_laws.specs.Sources.{
  HasTreesOfAll,
  IsFrom,
  IsFromOne,
  number_after,
  number_at,
};
ghost use Rattle.graft_laws.specs.Unite.{
  Part,
  by_age,
  latest_before,
  oldest_place,
  unite_of,
  with_part,
  with_parts,
};

/// What a graft leaves is sound, where both histories are.
pub fn a_graft_keeps_soundness()
    ensures { (prune : Bool) (next : ℕ) (name : Bytes) (part : List PlainEvent) (set : List AnyId)
        (base new : List PlainEvent) → IsSound base → IsSound part → AreNameBytes name →
        AreIdsBelow next base → IsSelection base set →
        graft_of prune next name part set base ≡ Ok new → IsSound new }
{}

/// What isn't refused is within the limits.
pub fn a_graft_keeps_the_limits()
    ensures { (prune : Bool) (next : ℕ) (name : Bytes) (part : List PlainEvent) (set : List AnyId)
        (base new : List PlainEvent) → graft_of prune next name part set base ≡ Ok new →
        IsWithinLimits new }
{}

/// The events of the base come first, as they were, and each of its commits has its tree. Each event of the part but for
/// passed lines has taken one id.
pub fn a_graft_keeps_the_base()
    ensures base { (prune : Bool) (next : ℕ) (name : Bytes) (part : List PlainEvent)
        (set : List AnyId) (base new : List PlainEvent) → IsSound base → IsSound part →
        AreIdsBelow next base → IsSelection base set →
        graft_of prune next name part set base ≡ Ok new → BeginsWith base new }
    ensures ids { (prune : Bool) (next : ℕ) (name : Bytes) (part : List PlainEvent)
        (set : List AnyId) (base new : List PlainEvent) → IsSound part → AreIdsBelow next base →
        graft_of prune next name part set base ≡ Ok new →
        AreIdsBelow (next + length (without_passes part)) new }
{}

/// With `--prune` each commit of the part has the tree that it had, with the same bytes.
pub fn a_pruned_graft_keeps_trees()
    ensures { (next : ℕ) (name : Bytes) (part : List PlainEvent) (set : List AnyId)
        (base new : List PlainEvent) → IsSound base → IsSound part → AreIdsBelow next base →
        IsSelection base set → graft_of true next name part set base ≡ Ok new →
        HasTreesOf part next new }
{}

/// With `--prune` or without it, each event was one of the base, under its id, or is one of the part, under its new number.
pub fn a_graft_has_no_other_events()
    ensures { (prune : Bool) (next : ℕ) (name : Bytes) (part : List PlainEvent) (set : List AnyId)
        (base new : List PlainEvent) (id : AnyId) → IsSound part →
        graft_of prune next name part set base ≡ Ok new → IsTrue (has_id new id) →
        IsTrue (has_id base id) ⊎ IsFrom part next id }
{}

/// With `--prune` or without it, each tree is what the commit's operations make of its first parent's. Without it a commit of the
/// part has the operations that it had.
pub fn a_graft_replays_operations()
    ensures { (prune : Bool) (next : ℕ) (name : Bytes) (part : List PlainEvent) (set : List AnyId)
        (base new : List PlainEvent) → IsSound base → IsSound part → AreNameBytes name →
        AreIdsBelow next base → IsSelection base set →
        graft_of prune next name part set base ≡ Ok new →
        AllByRecursion (Fits (tree new)) (nodes new) }
{}

/// With a lawful history under a name as repositories have, a graft is an edit: of a lawful history it makes a lawful one, and each
/// event of the part but for passed lines takes one number.
pub fn a_graft_is_an_edit()
    ensures { (prune : Bool) (name : Bytes) (part : List PlainEvent) → IsLawfulHistory part → AreNameBytes name →
        IsEdit (λ set next base. with_number (next + length (without_passes part))
        (graft_of prune next name part set base)) }
{
    a_graft_keeps_soundness();
    a_graft_keeps_the_limits();
    a_graft_keeps_the_base();
}

/// The marks of what is put behind go on from the greatest of the base, one after another.
pub fn a_graft_goes_on_with_marks()
    ensures { (prune : Bool) (next : ℕ) (name : Bytes) (part : List PlainEvent) (set : List AnyId)
        (base new : List PlainEvent) → graft_of prune next name part set base ≡ Ok new →
        (ids : List AnyId)
        × (marks_of new ≡ marks_of base ++ enumerate_from (greatest_mark base + 1) ids) }
{}

/// No name of what is put behind is one of the base.
pub fn a_graft_gives_free_names()
    ensures { (prune : Bool) (next : ℕ) (name : Bytes) (part : List PlainEvent) (set : List AnyId)
        (base new : List PlainEvent) → graft_of prune next name part set base ≡ Ok new →
        AllByRecursion (λ given. IsFalse (is_used base given)) (names_of (drop (length base) new)) }
{}

/// What a `unite` leaves is sound, where all histories are.
pub fn a_unite_keeps_soundness()
    ensures { (prune : Bool) (parts : List Part) (new : List PlainEvent) →
        AllByRecursion IsPart parts → unite_of prune parts ≡ Ok new → IsSound new }
{}

/// What isn't refused is within the limits.
pub fn a_unite_keeps_the_limits()
    ensures { (prune : Bool) (parts : List Part) (new : List PlainEvent) →
        unite_of prune parts ≡ Ok new → IsWithinLimits new }
{}

/// Of lawful histories under names as repositories have a lawful one is made, all of whose ids are below its next number, and
/// of fewer than two none.
pub fn a_unite_is_lawful()
    ensures lawful { (prune : Bool) (parts : List Part) (new : List PlainEvent) →
        AllByRecursion IsLawfulPart parts → unite_of prune parts ≡ Ok new →
        IsLawfulHistory new × AreIdsBelow (next_number new) new }
    ensures several { (prune : Bool) (parts : List Part) (new : List PlainEvent) →
        unite_of prune parts ≡ Ok new → 2 ≤ length parts }
{
    a_unite_keeps_soundness();
    a_unite_keeps_the_limits();
}

/// The events of the oldest part come first, as they were but for their marks, and each of its commits has its tree.
pub fn a_unite_keeps_the_base()
    ensures events { (prune : Bool) (parts others : List Part) (base : Part)
        (new : List PlainEvent) (mark : ℕ) → unite_of prune parts ≡ Ok new →
        by_age (λ (part : Part). part.events) parts ≡ base ∷ others →
        map (all_marked mark) (take (length base.events) new) ≡ map (all_marked mark) base.events }
    ensures trees { (prune : Bool) (parts others : List Part) (base : Part)
        (new : List PlainEvent) (c : ℕ) → AllByRecursion IsPart parts →
        unite_of prune parts ≡ Ok new →
        by_age (λ (part : Part). part.events) parts ≡ base ∷ others →
        IsCommitOf base.events c → StaysIn base.events new c }
{}

/// With `--prune` each commit of a further part has the tree that it had, with the same bytes.
pub fn a_pruned_unite_keeps_trees()
    ensures { (parts before after : List Part) (base part : Part) (so_far new : List PlainEvent) →
        AllByRecursion IsPart parts → unite_of true parts ≡ Ok new →
        by_age (λ (part : Part). part.events) parts ≡ base ∷ (before ++ part ∷ after) →
        with_parts true base.events before ≡ Ok so_far →
        HasTreesOf part.events (next_number so_far) new }
{}

/// The same of all further parts, by their order alone: the numbers of each come after those of the one before it.
pub fn a_pruned_unite_keeps_all_trees()
    ensures trees { (parts others : List Part) (base : Part) (new : List PlainEvent) →
        AllByRecursion IsPart parts → unite_of true parts ≡ Ok new →
        by_age (λ (part : Part). part.events) parts ≡ base ∷ others →
        HasTreesOfAll others (next_number base.events) new }
    ensures numbers { (prune : Bool) (events : List PlainEvent) (part : Part) →
        next_number (with_part prune events part)
        ≡ number_after (next_number events) part.events }
{}

/// With `--prune` or without it, each event was one of the oldest part, under its id, or is one of a further part, under its new
/// number.
pub fn a_unite_has_no_other_events()
    ensures { (prune : Bool) (parts others : List Part) (base : Part) (new : List PlainEvent)
        (id : AnyId) → AllByRecursion IsPart parts → unite_of prune parts ≡ Ok new →
        by_age (λ (part : Part). part.events) parts ≡ base ∷ others → IsTrue (has_id new id) →
        IsTrue (has_id base.events id) ⊎ IsFromOne others (next_number base.events) id }
{}

/// The new number of an event of a part leads back to its own, and is one of the part's. Each commit has one.
pub fn a_number_leads_back()
    ensures back { (part : List PlainEvent) (first : ℕ) (id : AnyId) →
        IsTrue (has_id (without_passes part) id) →
        number_at part (new_number first (without_passes part) id - first) ≡ id_number id }
    ensures within { (part : List PlainEvent) (first : ℕ) (id : AnyId) →
        IsTrue (has_id (without_passes part) id) →
        (first ≤ new_number first (without_passes part) id)
        × (new_number first (without_passes part) id < number_after first part) }
    ensures commits { (part : List PlainEvent) (c : ℕ) → IsCommitOf part c →
        IsCommitOf (without_passes part) c }
    ensures events { (part : List PlainEvent) (id : AnyId) →
        IsTrue (has_id (without_passes part) id) → IsTrue (has_id part id) }
{}

/// No name of a part is one of the parts before it.
pub fn a_unite_gives_free_names()
    ensures { (prune : Bool) (parts before after : List Part) (base part : Part)
        (so_far new : List PlainEvent) → unite_of prune parts ≡ Ok new →
        by_age (λ (part : Part). part.events) parts ≡ base ∷ (before ++ part ∷ after) →
        with_parts prune base.events before ≡ Ok so_far →
        AllByRecursion (λ given. IsFalse (is_used so_far given))
        (names_of (drop (length so_far) (with_part prune so_far part))) }
{}

/// Each part but the first is no older than the one in front of it; those of one age are those that were there, in their
/// order; and the first is the one at the place that is given.
pub fn parts_come_by_age()
    ensures sorted { (parts : List Part) →
        IsByAge (λ (part : Part). part.events) (by_age (λ (part : Part). part.events) parts) }
    ensures stable { (age : Option ℕ) (parts : List Part) →
        of_age (λ (part : Part). part.events) age (by_age (λ (part : Part). part.events) parts)
        ≡ of_age (λ (part : Part). part.events) age parts }
    ensures first { (parts : List Part) →
        slice_get parts (oldest_place (λ (part : Part). part.events) parts)
        ≡ slice_get (by_age (λ (part : Part). part.events) parts) 0 }
{}

/// Of the commits before a root none is later than the one that becomes its parent; where it gets none, there is none.
pub fn a_root_gets_the_latest_commit()
    ensures { (events : List PlainEvent) (seconds : ℕ) →
        IsLatest events seconds (latest_before events seconds) }
{}

/// All marks are those that `renumber` gives.
pub fn a_unite_gives_all_marks_anew()
    ensures { (prune : Bool) (parts : List Part) (new : List PlainEvent) →
        unite_of prune parts ≡ Ok new → renumbered new ≡ new }
{}
