//! Why a stream is not read.
ghost use Rattle.std.specs.Prelude.{◌≡◌};
ghost use Rattle.stream_reader.specs.declared.fault.ReadFault.TheVariants as read;

use plain_model::{NoMemory, Which, Why};
use thiserror::Error;

/// Why a stream is not read: its first line that has a defect, numbered from 1, or that passes a limit; or that no marks
/// are left for the blobs and commits without one; or out of memory.
#[derive(Clone, Copy, Debug, PartialEq, Eq, Error)]
pub enum ReadFault {
    #[error("line {line} of the stream has the defect {why:?}")]
    BadStream { line: u64, why: Why },
    #[error("the stream passes the limit {which:?} of {number}")]
    Limit { which: Which, number: u64 },
    #[error("no marks are left")]
    MarksSpent,
    #[error("out of memory")]
    Memory,
}

impl From<NoMemory> for ReadFault {
    ghost from_gives = { λ _ fault. fault ≡ read.Memory };

    fn from(_error: NoMemory) -> ReadFault {
        ReadFault::Memory
    }
}
