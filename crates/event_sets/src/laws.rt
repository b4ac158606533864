//! Laws of sets. Each function's contract is one, and its body is empty.
ghost use Rattle.std.specs.Prelude.{◌≡◌, ◌&&◌, ◌||◌, ℕ, not, option_to_list, Bool, List, map};
ghost use Rattle.event_sets.specs.Bits.{picks};
ghost use Rattle.event_sets.specs.Once.{AreLive, IsOnce};
ghost use Rattle.event_sets.specs.Sets.{
  called,
  common,
  is_live,
  live,
  near_times,
  numbered,
  passing,
  rest,
  union,
};
ghost use Rattle.plain_model.specs.Lookups.{find_mark, is_listed};
ghost use Rattle.plain_model.specs.Soundness.{IsSound};
ghost use Rattle.plain_model.specs.declared.event.PlainEvent.{PlainEvent};
ghost use Rattle.plain_model.specs.declared.id.AnyId.{AnyId};
ghost use Rattle.selection_parser.specs.declared.function.Function.{Function};

/// A bit for each event stands for the events that pass a test; and an event is in a union where it is
/// in one of the two, in what is common where it is in both, and in the rest where it is of the history
/// and not in the set.
pub fn bits_stand_for_lists()
    ensures test { (test : PlainEvent → Bool) (events : List PlainEvent) →
        picks (map test events) events ≡ passing test events }
    ensures either { (id : AnyId) (left : List AnyId) (right : List AnyId) →
        is_listed id (union left right) ≡ is_listed id left || is_listed id right }
    ensures both { (id : AnyId) (left : List AnyId) (right : List AnyId) →
        is_listed id (common left right) ≡ is_listed id left && is_listed id right }
    ensures others { (id : AnyId) (events : List PlainEvent) (ids : List AnyId) →
        is_listed id (rest events ids) ≡ is_live events id && not (is_listed id ids) }
{}

/// Sets of a sound history are without repeats, if what they are made of is.
pub fn sets_are_without_repeats()
    ensures union { (left : List AnyId) (right : List AnyId) →
        IsOnce left → IsOnce right → IsOnce (union left right) }
    ensures common { (left : List AnyId) (right : List AnyId) →
        IsOnce left → IsOnce (common left right) }
    ensures live { (events : List PlainEvent) (ids : List AnyId) →
        IsOnce ids → IsOnce (live events ids) }
    ensures numbered { (events : List PlainEvent) (number : ℕ) →
        IsOnce (numbered events number) }
    ensures passing { (events : List PlainEvent) → IsSound events →
        (test : PlainEvent → Bool) → IsOnce (passing test events) }
    ensures near { (events : List PlainEvent) → IsSound events →
        (times : ℕ) (ids : List AnyId) → IsOnce ids → IsOnce (near_times events times ids) }
    ensures called { (events : List PlainEvent) → IsSound events →
        (function : Function) (ids : List AnyId) → IsOnce (called events function ids) }
{}

/// Sets have events of their history alone, if what they are made of has.
pub fn sets_are_live()
    ensures union { (events : List PlainEvent) (left : List AnyId) (right : List AnyId) →
        AreLive events left → AreLive events right → AreLive events (union left right) }
    ensures common { (events : List PlainEvent) (left : List AnyId) (right : List AnyId) →
        AreLive events left → AreLive events (common left right) }
    ensures live { (events : List PlainEvent) (ids : List AnyId) →
        AreLive events (live events ids) }
    ensures numbered { (events : List PlainEvent) (number : ℕ) →
        AreLive events (numbered events number) }
    ensures marked { (events : List PlainEvent) (mark : ℕ) →
        AreLive events (option_to_list (find_mark mark events)) }
    ensures passing { (events : List PlainEvent) (test : PlainEvent → Bool) →
        AreLive events (passing test events) }
    ensures near { (events : List PlainEvent) (times : ℕ) (ids : List AnyId) →
        AreLive events ids → AreLive events (near_times events times ids) }
    ensures called { (events : List PlainEvent) (function : Function) (ids : List AnyId) →
        AreLive events (called events function ids) }
{}
