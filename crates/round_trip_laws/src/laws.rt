//! The law of writing and reading. Its function's body is empty.
ghost use Rattle.std.specs.Prelude.{◌≡◌, List, Some};
ghost use Rattle.plain_model.specs.declared.event.PlainEvent.{PlainEvent};
ghost use Rattle.plain_model.specs.Text.{text};
ghost use Rattle.stream_grammar.specs.Lines.{history_in};
ghost use Rattle.round_trip_laws.specs.AsRead.{IsAsRead};

/// What is written of a history that was read is read again as it.
pub fn what_is_written_is_read_again()
    ensures { (events : List PlainEvent) → IsAsRead events →
        history_in (text events) ≡ Some events }
{}
