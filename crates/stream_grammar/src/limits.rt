//! The limits of a stream.
ghost use Rattle.std.specs.Prelude.{◌≡◌};
ghost use Rattle.stream_grammar.specs.Limits.{limit_number};

use plain_model::{
    MAX_ALIASES, MAX_COMMANDS, MAX_EVENTS, MAX_LINE_BYTES, MAX_NAME_BYTES, MAX_OPERATIONS,
    MAX_PARENTS, MAX_PATH_BYTES, MAX_PATHS, Which,
};

/// The number of a limit: what is counted may be as much, and no more.
pub fn limit_number(which: Which) -> u64
    ensures { result ≡ limit_number which }
{
    match which {
        Which::Events => MAX_EVENTS,
        Which::Operations => MAX_OPERATIONS,
        Which::Parents => MAX_PARENTS,
        Which::PathBytes => MAX_PATH_BYTES,
        Which::Paths => MAX_PATHS,
        Which::Aliases => MAX_ALIASES,
        Which::NameBytes => MAX_NAME_BYTES,
        Which::Commands => MAX_COMMANDS,
        Which::LineBytes => MAX_LINE_BYTES,
    }
}
