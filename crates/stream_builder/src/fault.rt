//! Why a line is not taken.
ghost use Rattle.std.specs.Prelude.{◌≡◌};
ghost use Rattle.stream_fields.specs.declared.fault.FieldFault.TheVariants as field;
ghost use Rattle.stream_builder.specs.Judging.{line_fault};
ghost use Rattle.stream_builder.specs.declared.fault.LineFault.TheVariants as line;

use plain_model::{NoMemory, Which, Why};
use stream_fields::FieldFault;
use thiserror::Error;

/// Why a line is not taken: its defect, or the limit that it passes; or out of memory.
#[derive(Clone, Copy, Debug, PartialEq, Eq, Error)]
pub enum LineFault {
    #[error("the line has the defect {0:?}")]
    Bad(Why),
    #[error("the line passes the limit {0:?}")]
    Limit(Which),
    #[error("out of memory")]
    Memory,
}

impl From<Why> for LineFault {
    ghost from_gives = { λ why fault. fault ≡ line.Bad why };

    fn from(why: Why) -> LineFault {
        LineFault::Bad(why)
    }
}

impl From<NoMemory> for LineFault {
    ghost from_gives = { λ _ fault. fault ≡ line.Memory };

    fn from(_error: NoMemory) -> LineFault {
        LineFault::Memory
    }
}

impl From<FieldFault> for LineFault {
    ghost from_gives = { λ error fault. fault ≡ line_fault error };

    fn from(error: FieldFault) -> LineFault {
        match error {
            FieldFault::Bad(why) => LineFault::Bad(why),
            FieldFault::Memory => LineFault::Memory,
        }
    }
}
