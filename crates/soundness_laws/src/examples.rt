//! A worked stream: such a history is read.
ghost use Rattle.std.specs.Prelude.{◌≡◌, Ok};
ghost use Rattle.stream_grammar.specs.Limits.{stream_of};
ghost use Rattle.round_trip_laws.specs.AsRead.{IsAsRead};
ghost use Rattle.soundness_laws.specs.Examples.{history_of_two, stream_of_two};

/// A root with bytes after its operation and with an alias, a commit on it that copies the file, and
/// a tag that has a mark.
pub fn a_stream_is_read()
    ensures read { stream_of stream_of_two ≡ Ok history_of_two }
    ensures sound { IsAsRead history_of_two }
{}
