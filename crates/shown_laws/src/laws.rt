//! Laws of what is written of a history. Each function's contract is one, and its body is empty but for laws that it rests on.
ghost use Rattle.std.specs.Prelude.{◌≡◌, ℕ, List, Some};
ghost use Rattle.plain_model.specs.declared.event.PlainEvent.{PlainEvent};
ghost use Rattle.plain_model.specs.Snapshots.{snapshot};
ghost use Rattle.plain_model.specs.Soundness.{IsSound};
ghost use Rattle.plain_model.specs.Text.{text};
ghost use Rattle.stream_grammar.specs.Lines.{history_in};
ghost use Rattle.production_laws.specs.Raw.{Raw, SpellsRaw, history};
ghost use Rattle.replay_laws.specs.Replay.{replay_in};
ghost use Rattle.round_trip_laws.specs.AsRead.{IsAsRead};
ghost use Rattle.shown_laws.specs.AsWritten.{as_written};
ghost use Rattle.shown_laws.specs.Showing.{IsShownBy};

use production_laws::a_history_is_that_of_the_spelled_events;
use replay_laws::replay_shows_the_history;
use round_trip_laws::what_is_written_is_read_again;

/// Other ids and put-in resets change neither the text of a sound history nor what it shows.
pub fn ids_and_resets_are_not_shown()
    ensures written { (events : List PlainEvent) → IsSound events →
        text (as_written events) ≡ text events }
    ensures shown { (events : List PlainEvent) → IsSound events →
        snapshot (as_written events) ≡ snapshot events }
{}

/// With resets before its roots and places as ids a history is such as reading gives it.
pub fn histories_are_read_as_written()
    ensures as_read { (events : List PlainEvent) → IsSound events →
        IsAsRead (as_written events) }
    ensures read { (events : List PlainEvent) → IsSound events →
        history_in (text events) ≡ Some (as_written events) }
{
    what_is_written_is_read_again();
}

/// What is written of a history is a stream by the productions, whose history is written again as the same bytes, and shows
/// what the history shows.
pub fn what_is_written_shows_the_history()
    ensures { (events : List PlainEvent) → IsSound events → IsShownBy (text events) events }
{
    what_is_written_is_read_again();
    a_history_is_that_of_the_spelled_events();
    replay_shows_the_history();
}

/// The replay of a stream is one of the events that it spells: it shows what their history shows, whatever else the text has.
pub fn a_replay_is_that_of_the_spelled_events()
    ensures { (bytes : List ℕ) (raws : List Raw) (events : List PlainEvent) →
        SpellsRaw bytes raws → history raws ≡ Some events → replay_in bytes ≡ Some (snapshot events) }
{
    a_history_is_that_of_the_spelled_events();
    replay_shows_the_history();
}

/// Of a history such as reading gives it nothing changes.
pub fn what_is_read_stays_as_it_is()
    ensures { (events : List PlainEvent) → IsAsRead events → as_written events ≡ events }
{}
