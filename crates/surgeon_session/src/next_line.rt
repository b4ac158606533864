//! The line that is run next.

use history_machine::Waiting;

/// What is taken out of the lines that wait.
#[derive(Drop)]
pub enum NextLine {
    /// The next one.
    Line(Waiting),
    /// The next one, for such a line of the script, which has more bytes than a line may have.
    TooLong { line: u64 },
    /// It can't be made, since memory is out.
    NoMemory,
}
