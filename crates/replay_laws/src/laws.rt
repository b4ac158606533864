//! The law of replays: the function's contract is the law, and its body is empty.
ghost use Rattle.std.specs.Prelude.{◌≡◌, ℕ, List, Some};
ghost use Rattle.plain_model.specs.declared.event.PlainEvent.{PlainEvent};
ghost use Rattle.plain_model.specs.Snapshots.{snapshot};
ghost use Rattle.stream_grammar.specs.Lines.{history_in};
ghost use Rattle.replay_laws.specs.Replay.{replay_in};

/// A replay of a text by plain maps shows the history that is read.
pub fn replay_shows_the_history()
    ensures { (bytes : List ℕ) (history : List PlainEvent) →
        history_in bytes ≡ Some history → replay_in bytes ≡ Some (snapshot history) }
{}
