//! Laws of commands that change people, dates, comments and labels. Each function's contract is one, and its body is empty.
ghost use Rattle.std.specs.Prelude.{
  ◌≡◌,
  ℕ,
  ℤ,
  List,
  Ok,
  Err,
  Option,
  IfSome,
  IsTrue,
  map,
};
ghost use Rattle.std.specs.List.{AllByRecursion};
ghost use Rattle.plain_model.specs.declared.event.PlainEvent.{PlainEvent};
ghost use Rattle.plain_model.specs.declared.fault.Fault.{Fault};
ghost use Rattle.plain_model.specs.declared.id.AnyId.{AnyId};
ghost use Rattle.plain_model.specs.Lookups.{AreIdsBelow};
ghost use Rattle.plain_model.specs.Paths.{Bytes};
ghost use Rattle.plain_model.specs.Soundness.{IsSound};
ghost use Rattle.edit_laws.specs.Editing.{IsEdit, with_number};
ghost use Rattle.edit_laws.specs.Keeping.{KeepsTrees};
ghost use Rattle.edit_laws.specs.Parts.{IsLawful};
ghost use Rattle.edit_laws.specs.Passing.{IsWithinLimits};
ghost use Rattle.event_arena.specs.Changes.{without_all};
ghost use Rattle.event_fields.specs.Shifts.{IsZone, PlainZone};
ghost use Rattle.event_fields.specs.Values.{PlainValue, is_value};
ghost use Rattle.mailbox_laws.specs.Boxes.{lines_in};
ghost use Rattle.mailbox_laws.specs.Words.{HaveOtherWords, KeepsAllElse};
ghost use Rattle.people_laws.specs.Alike.{HaveOther, HaveOtherLabels, KeepsTheRest, undated, unnamed, with_people};
ghost use Rattle.people_laws.specs.Authors.{authors_of};
ghost use Rattle.people_laws.specs.Dates.{time_offset_of};
ghost use Rattle.people_laws.specs.Refusing.{CanMove, IsFirstStuck, IsFirstWrong, IsRight};
ghost use Rattle.people_laws.specs.Values.{set_field_of, with_text};

// ---- labels

/// Histories that differ in branches and names of tags alone have the same ids, marks, aliases, parents, operations and trees.
/// One is within the limits with the other, and sound, if its labels are names.
pub fn other_labels_keep_the_rest()
    ensures rest { (old new : List PlainEvent) → HaveOtherLabels old new → KeepsTheRest old new }
    ensures trees { (old new : List PlainEvent) → HaveOtherLabels old new → KeepsTrees old new }
    ensures limits { (old new : List PlainEvent) → HaveOtherLabels old new →
        IsWithinLimits old → IsWithinLimits new }
    ensures below { (old new : List PlainEvent) (next : ℕ) → HaveOtherLabels old new →
        AreIdsBelow next old → AreIdsBelow next new }
    ensures sound { (old new : List PlainEvent) → IsSound old → HaveOtherLabels old new →
        AllByRecursion IsLawful new → IsSound new }
{}

// ---- what changes

/// Authors change names and emails alone.
pub fn authors_change_people_alone()
    ensures people { (bytes : Bytes) (events new : List PlainEvent) → authors_of bytes events ≡ Ok new →
        map (with_people unnamed) new ≡ map (with_people unnamed) events }
    ensures words { (bytes : Bytes) (events new : List PlainEvent) → authors_of bytes events ≡ Ok new →
        HaveOtherWords events new }
{}

/// Moved dates are all that changes, and only in the events of the set.
pub fn time_offset_changes_dates_alone()
    ensures dates { (seconds : ℤ) (zone : Option PlainZone) (set : List AnyId) (events new : List PlainEvent) →
        time_offset_of seconds zone set events ≡ Ok new →
        map (with_people undated) new ≡ map (with_people undated) events }
    ensures others { (seconds : ℤ) (zone : Option PlainZone) (set : List AnyId) (events new : List PlainEvent) →
        time_offset_of seconds zone set events ≡ Ok new → without_all set new ≡ without_all set events }
    ensures words { (seconds : ℤ) (zone : Option PlainZone) (set : List AnyId) (events new : List PlainEvent) →
        time_offset_of seconds zone set events ≡ Ok new → HaveOtherWords events new }
{}

/// A value that is set changes its field alone, and only in the events of the set.
pub fn values_change_their_field_alone()
    ensures field { (value : PlainValue) (text : Bytes) (set : List AnyId) (events : List PlainEvent) →
        map (with_text value.field text) (set_field_of value set events) ≡ map (with_text value.field text) events }
    ensures others { (value : PlainValue) (set : List AnyId) (events : List PlainEvent) →
        without_all set (set_field_of value set events) ≡ without_all set events }
    ensures alike { (value : PlainValue) (set : List AnyId) (events : List PlainEvent) →
        HaveOther value.field events (set_field_of value set events) }
{}

/// After each of the three commands each commit has the tree that it had, with the same bytes, and ids, marks, aliases, parents and
/// operations are the same; references too, but for a value that is set.
pub fn changed_fields_keep_trees()
    ensures authors { (bytes : Bytes) (events new : List PlainEvent) → authors_of bytes events ≡ Ok new →
        KeepsTrees events new × KeepsAllElse events new }
    ensures dates { (seconds : ℤ) (zone : Option PlainZone) (set : List AnyId) (events new : List PlainEvent) →
        time_offset_of seconds zone set events ≡ Ok new → KeepsTrees events new × KeepsAllElse events new }
    ensures values { (value : PlainValue) (set : List AnyId) (events : List PlainEvent) →
        KeepsTrees events (set_field_of value set events) × KeepsTheRest events (set_field_of value set events) }
{}

// ---- what is refused

/// The lowest line is refused that is neither passed over nor an author; where none is refused, there is no such line.
pub fn the_lowest_line_is_refused()
    ensures wrong { (bytes : Bytes) (events : List PlainEvent) (why : Fault) →
        authors_of bytes events ≡ Err why → IsFirstWrong bytes why }
    ensures right { (bytes : Bytes) (events new : List PlainEvent) → authors_of bytes events ≡ Ok new →
        AllByRecursion IsRight (lines_in bytes) }
{}

/// The first selected event is refused that has a date which can't move, and the dates of all can where none is refused.
pub fn no_dates_leave_the_range()
    ensures stuck { (seconds : ℤ) (zone : Option PlainZone) (set : List AnyId) (events : List PlainEvent) (why : Fault) →
        time_offset_of seconds zone set events ≡ Err why → IsFirstStuck seconds zone set events why }
    ensures free { (seconds : ℤ) (zone : Option PlainZone) (set : List AnyId) (events new : List PlainEvent) →
        time_offset_of seconds zone set events ≡ Ok new → AllByRecursion (CanMove seconds zone events) set }
{}

// ---- soundness

/// A sound history stays sound under a file's authors.
pub fn authors_keep_soundness()
    ensures { (bytes : Bytes) (events new : List PlainEvent) → IsSound events →
        authors_of bytes events ≡ Ok new → IsSound new }
{}

/// A sound history stays sound when dates move.
pub fn time_offset_keeps_soundness()
    ensures { (seconds : ℤ) (zone : Option PlainZone) (set : List AnyId) (events new : List PlainEvent) →
        IsSound events → IfSome zone IsZone → time_offset_of seconds zone set events ≡ Ok new → IsSound new }
{}

/// A sound history stays sound when a value is set that may be one.
pub fn values_keep_soundness()
    ensures { (value : PlainValue) (set : List AnyId) (events : List PlainEvent) →
        IsSound events → IsTrue (is_value value.field value.text) → IsSound (set_field_of value set events) }
{}

// ---- edits

/// Authors are an edit that gives no number: of a lawful history it makes a lawful one. It is for all events, and for no selection.
pub fn authors_are_an_edit()
    ensures { (bytes : Bytes) → IsEdit (λ set next events. with_number next (authors_of bytes events)) }
{}

/// A time offset is an edit that gives no number: of a lawful history it makes a lawful one.
pub fn a_time_offset_is_an_edit()
    ensures { (seconds : ℤ) (zone : Option PlainZone) → IfSome zone IsZone →
        IsEdit (λ set next events. with_number next (time_offset_of seconds zone set events)) }
{}

/// A value that is set is an edit that gives no number: of a lawful history it makes a lawful one, and is never refused.
pub fn a_set_field_is_an_edit()
    ensures { (value : PlainValue) → IsTrue (is_value value.field value.text) →
        IsEdit (λ set next events. with_number next (Ok (set_field_of value set events))) }
{}
