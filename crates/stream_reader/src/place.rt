//! Where in a stream the next byte is.
use crate::fault::ReadFault;
use plain_model::Text;

/// Where the next byte is.
#[derive(Drop)]
pub enum Place {
    /// In a line, of which this has come.
    Line {
        begun: Text,
    },
    /// In a block after the line of this number, which wants one byte and so many more; these have come.
    Block {
        from: u64,
        more: u64,
        bytes: Text,
    },
    /// In a block after the line of this number, which wants more bytes than can come.
    EndlessBlock {
        from: u64,
    },
    /// After a block, in whose last line something has come unless the block ended in an LF.
    AfterBlock {
        in_line: bool,
    },
    /// In a block after the line of this number, up to a line that equals the delimiter: the lines that have come, and what
    /// has come of the next one.
    DelimitedBlock {
        from: u64,
        delimiter: Text,
        bytes: Text,
        begun: Text,
    },
    /// After everything that is looked at.
    Over,
    /// After a line that was refused.
    Refused(ReadFault),
}
