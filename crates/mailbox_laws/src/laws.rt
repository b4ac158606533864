//! Laws of mailboxes. Each function's contract is one, and its body is empty.
ghost use Rattle.std.specs.Prelude.{◌≡◌, [], List, Ok, Err, Some, ℕ};
ghost use Rattle.std.specs.List.{AllByRecursion};
ghost use Rattle.plain_model.specs.declared.event.PlainEvent.{PlainEvent};
ghost use Rattle.plain_model.specs.declared.fault.Fault.{Fault};
ghost use Rattle.plain_model.specs.declared.id.AnyId.{AnyId};
ghost use Rattle.plain_model.specs.Lookups.{AreIdsBelow};
ghost use Rattle.plain_model.specs.Soundness.{IsSound};
ghost use Rattle.edit_laws.specs.Editing.{IsEdit, with_number};
ghost use Rattle.edit_laws.specs.Keeping.{KeepsTrees};
ghost use Rattle.edit_laws.specs.Parts.{IsLawful};
ghost use Rattle.edit_laws.specs.Passing.{IsWithinLimits};
ghost use Rattle.mailbox_laws.specs.Boxes.{Message, box_in, lines_in};
ghost use Rattle.mailbox_laws.specs.Cutting.{AreLinesOf};
ghost use Rattle.mailbox_laws.specs.Landing.{box_faults, land_of};
ghost use Rattle.mailbox_laws.specs.Naming.{IsFoundAgain};
ghost use Rattle.mailbox_laws.specs.Reporting.{IsBoxFault, IsLowest};
ghost use Rattle.mailbox_laws.specs.Words.{HaveOtherWords, KeepsAllElse};
ghost use Rattle.mailbox_laws.specs.Written.{box_of};

/// A box that is written of events of a sound history is read without a fault and changes nothing, whatever is in their comments,
/// if each tag among them is the first of its name.
pub fn a_written_box_changes_nothing()
    ensures { (events : List PlainEvent) (ids : List AnyId) → IsSound events →
        AllByRecursion (IsFoundAgain events) ids → land_of events (box_of events ids) ≡ Ok events }
{}

/// A box is read as those messages that are its lines, put together after the lines before the first line of hyphens: it has such
/// messages, and no others.
pub fn a_box_is_cut_in_one_way()
    ensures cut { (bytes : List ℕ) → (front : List (List ℕ))
        × ((box_in bytes).body ≡ Some front) × AreLinesOf (lines_in bytes) front (box_in bytes).later }
    ensures only { (bytes : List ℕ) (front : List (List ℕ)) (messages : List Message) →
        AreLinesOf (lines_in bytes) front messages →
        box_in bytes ≡ record { headers = []; body = Some front; later = messages } }
{}

/// Where a box is refused, the fault is one of those that it has, and none of these is at a lower line. A box that isn't refused has
/// none.
pub fn the_lowest_fault_is_reported()
    ensures refused { (events : List PlainEvent) (bytes : List ℕ) (why : Fault) →
        land_of events bytes ≡ Err why → IsLowest (box_faults events (box_in bytes)) why }
    ensures done { (events new : List PlainEvent) (bytes : List ℕ) → land_of events bytes ≡ Ok new →
        box_faults events (box_in bytes) ≡ [] }
{}

/// A box is refused for a message alone: that it is malformed, that its event isn't there, or for the text that it checks.
pub fn a_box_is_refused_for_a_message()
    ensures { (events : List PlainEvent) (bytes : List ℕ) (why : Fault) →
        land_of events bytes ≡ Err why → IsBoxFault why }
{}

/// What lands are people, dates and comments: but for these the events are the same, in the same order.
pub fn only_people_and_comments_land()
    ensures { (events new : List PlainEvent) (bytes : List ℕ) → land_of events bytes ≡ Ok new →
        HaveOtherWords events new }
{}

/// Histories that differ in people, dates and comments alone have the same ids, marks, aliases, parents, operations, branches and
/// trees. One is within the limits with the other, and sound, if its people are such as a stream spells them.
pub fn other_words_keep_all_else()
    ensures all_else { (old new : List PlainEvent) → HaveOtherWords old new → KeepsAllElse old new }
    ensures trees { (old new : List PlainEvent) → HaveOtherWords old new → KeepsTrees old new }
    ensures limits { (old new : List PlainEvent) → HaveOtherWords old new →
        IsWithinLimits old → IsWithinLimits new }
    ensures below { (old new : List PlainEvent) (next : ℕ) → HaveOtherWords old new →
        AreIdsBelow next old → AreIdsBelow next new }
    ensures sound { (old new : List PlainEvent) → IsSound old → HaveOtherWords old new →
        AllByRecursion IsLawful new → IsSound new }
{}

/// A landing is an edit that gives no number: of a lawful history it makes a lawful one. It is for whichever events its
/// messages name, and for no selection.
pub fn a_landing_is_an_edit()
    ensures { (bytes : List ℕ) → IsEdit (λ set next events. with_number next (land_of events bytes)) }
{}

/// A sound history stays sound.
pub fn a_landing_keeps_soundness()
    ensures { (events new : List PlainEvent) (bytes : List ℕ) → IsSound events →
        land_of events bytes ≡ Ok new → IsSound new }
{}
