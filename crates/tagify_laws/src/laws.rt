//! Laws of a `tagify`. Each function's contract is one, and its body is empty.
ghost use Rattle.std.specs.Prelude.{
  ◌≡◌,
  ◌≤◌,
  ◌+◌,
  ◌&&◌,
  ◌⊎◌,
  ℕ,
  [],
  List,
  Ok,
  Err,
  IsFalse,
  IsTrue,
  length,
  not,
};
ghost use Rattle.std.specs.List.{AllByRecursion};
ghost use Rattle.plain_model.specs.declared.event.PlainEvent.{PlainEvent};
ghost use Rattle.plain_model.specs.declared.fault.Fault.{Fault};
ghost use Rattle.plain_model.specs.declared.id.AnyId.{AnyId};
ghost use Rattle.plain_model.specs.declared.id.AnyId.TheVariants as any;
ghost use Rattle.plain_model.specs.Histories.{nodes};
ghost use Rattle.plain_model.specs.Lookups.{AreIdsBelow, alias_count, is_listed};
ghost use Rattle.plain_model.specs.Soundness.{IsSound, has_id};
ghost use Rattle.history_laws.specs.FirstParents.{ops_along};
ghost use Rattle.edit_laws.specs.Editing.{IsEdit, with_number};
ghost use Rattle.edit_laws.specs.Keeping.{HasTreesOf};
ghost use Rattle.edit_laws.specs.Passing.{IsWithinLimits};
ghost use Rattle.squash_laws.specs.Removed.{is_removed};
ghost use Rattle.tagify_laws.specs.InPlace.{in_place, moved};
ghost use Rattle.tagify_laws.specs.Remaining.{IsFirstTaken, IsNewTag, apart_from_commits, tag_count};
ghost use Rattle.tagify_laws.specs.Tagify.{
  becomes_tag,
  has_tag_named,
  name_for,
  tagged,
  tagified,
  tagify_of,
};

/// A `tagify` comes to its end. Each commit that becomes a tag has it in its place. The other events have the commits before
/// these among their parents, or as their target; nothing else of them changes, and none moves.
pub fn tags_are_in_the_place_of_commits()
    ensures ends { (selected : List AnyId) (events : List PlainEvent) (next : ℕ) → IsSound events →
        tagified selected events next ≡ Ok (in_place selected events next events) }
    ensures done { (next : ℕ) (selected : List AnyId) (events new : List PlainEvent) →
        IsSound events → tagify_of next selected events ≡ Ok new →
        new ≡ in_place selected events next events }
    ensures links { (selected : List AnyId) (events : List PlainEvent) (event : PlainEvent) →
        apart_from_commits (moved selected events event) ≡ apart_from_commits event }
{}

/// Each commit that is there has the tree that it had, with the same bytes in it.
pub fn a_tagify_keeps_trees()
    ensures { (next : ℕ) (selected : List AnyId) (events new : List PlainEvent) → IsSound events →
        AreIdsBelow next events → tagify_of next selected events ≡ Ok new → HasTreesOf events new }
{}

/// The commits are there that become no tags, and no others.
pub fn a_tagify_removes_its_commits()
    ensures { (next : ℕ) (selected : List AnyId) (events new : List PlainEvent) → IsSound events →
        AreIdsBelow next events → tagify_of next selected events ≡ Ok new → (c : ℕ) →
        has_id new (any.Commit c) ≡ has_id events (any.Commit c) && not (is_removed (tagged selected events) c) }
{}

/// There is a tag more for each commit that becomes one, and so there are as many events as before.
pub fn a_tag_comes_for_each_commit()
    ensures tags { (next : ℕ) (selected : List AnyId) (events new : List PlainEvent) →
        IsSound events → tagify_of next selected events ≡ Ok new →
        tag_count new ≡ tag_count events + length (tagged selected events) }
    ensures events { (next : ℕ) (selected : List AnyId) (events new : List PlainEvent) →
        IsSound events → tagify_of next selected events ≡ Ok new → length new ≡ length events }
{}

/// Nothing goes but the commits that become tags, and nothing comes but the tags, which have the next numbers.
pub fn nothing_else_goes_or_comes()
    ensures goes { (next : ℕ) (selected : List AnyId) (events new : List PlainEvent) →
        IsSound events → tagify_of next selected events ≡ Ok new → (id : AnyId) →
        IsFalse (is_listed id (tagged selected events)) → IsTrue (has_id events id) → IsTrue (has_id new id) }
    ensures comes { (next : ℕ) (selected : List AnyId) (events new : List PlainEvent) →
        IsSound events → tagify_of next selected events ≡ Ok new → (id : AnyId) →
        IsTrue (has_id new id) → IsTrue (has_id events id) ⊎ IsNewTag next id }
    ensures below { (next : ℕ) (selected : List AnyId) (events new : List PlainEvent) →
        IsSound events → AreIdsBelow next events → tagify_of next selected events ≡ Ok new →
        AreIdsBelow (next + length (tagged selected events)) new }
{}

/// No more tags come than numbers were given, since each is in the place of a commit that has one.
pub fn no_more_tags_come_than_numbers()
    ensures { (selected : List AnyId) (next : ℕ) (events : List PlainEvent) → IsSound events →
        AreIdsBelow next events → length (tagged selected events) ≤ next }
{}

/// Where no commit becomes a tag, nothing changes.
pub fn nothing_changes_where_no_commit_becomes_a_tag()
    ensures { (next : ℕ) (selected : List AnyId) (events : List PlainEvent) → IsSound events →
        tagged selected events ≡ [] → tagify_of next selected events ≡ Ok events }
{}

/// A sound history stays sound.
pub fn a_tagify_keeps_soundness()
    ensures { (next : ℕ) (selected : List AnyId) (events new : List PlainEvent) → IsSound events →
        AreIdsBelow next events → tagify_of next selected events ≡ Ok new → IsSound new }
{}

/// No limit is passed that wasn't passed before: operations are the same, and there are no more aliases.
pub fn a_tagify_keeps_the_limits()
    ensures limits { (next : ℕ) (selected : List AnyId) (events new : List PlainEvent) →
        IsSound events → IsWithinLimits events → tagify_of next selected events ≡ Ok new →
        IsWithinLimits new }
    ensures operations { (next : ℕ) (selected : List AnyId) (events new : List PlainEvent) →
        IsSound events → tagify_of next selected events ≡ Ok new →
        ops_along (nodes new) ≡ ops_along (nodes events) }
    ensures aliases { (next : ℕ) (selected : List AnyId) (events new : List PlainEvent) →
        IsSound events → tagify_of next selected events ≡ Ok new → alias_count new ≤ alias_count events }
{}

/// It is refused exactly where a tag has the name of a new one, and the first such name is reported.
pub fn the_first_taken_name_is_refused()
    ensures free { (next : ℕ) (selected : List AnyId) (events new : List PlainEvent) →
        tagify_of next selected events ≡ Ok new →
        AllByRecursion (λ event. IsTrue (becomes_tag selected event) → IsFalse (has_tag_named events (name_for event))) events }
    ensures taken { (next : ℕ) (selected : List AnyId) (events : List PlainEvent) (why : Fault) →
        tagify_of next selected events ≡ Err why → IsFirstTaken selected events why }
{}

/// A tagify is an edit that gives a number for each tag: of a lawful history it makes a lawful one.
pub fn a_tagify_is_an_edit()
    ensures { IsEdit (λ set next events.
        with_number (next + length (tagged set events)) (tagify_of next set events)) }
{}
