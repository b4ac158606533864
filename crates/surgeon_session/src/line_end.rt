//! How a line of a run ends.

use macro_lines::CalledLines;

/// What broke a line off.
#[derive(Clone, Copy)]
pub enum Broken {
    /// Reading failed.
    SourceFault,
    /// Writing or printing failed.
    SinkFault,
    Memory,
}

/// How a line of a run ends.
#[derive(Drop)]
pub enum LineEnd {
    /// It is done, and these lines are run next.
    Done(CalledLines),
    /// It is refused, and that is printed. The last one ends a run that is to keep going, too.
    Refused { is_last: bool },
    Broken(Broken),
}
