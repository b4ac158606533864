//! Why a field is not read.
ghost use Rattle.std.specs.Prelude.{◌≡◌};
ghost use Rattle.plain_model.specs.Fields.{or_defect as or_defect_field};
ghost use Rattle.stream_fields.specs.declared.fault.FieldFault.TheVariants.{Bad, Memory};

use plain_model::{NoMemory, Why};
use thiserror::Error;

/// Why a field is not read: the kind of its defect, or out of memory.
#[derive(Clone, Copy, Debug, PartialEq, Eq, Error)]
pub enum FieldFault {
    #[error("the field has the defect {0:?}")]
    Bad(Why),
    #[error("out of memory")]
    Memory,
}

impl From<Why> for FieldFault {
    ghost from_gives = { λ why fault. fault ≡ Bad why };

    fn from(why: Why) -> FieldFault {
        FieldFault::Bad(why)
    }
}

impl From<NoMemory> for FieldFault {
    ghost from_gives = { λ _ fault. fault ≡ Memory };

    fn from(_error: NoMemory) -> FieldFault {
        FieldFault::Memory
    }
}

/// What was found, or this defect.
pub fn or_defect<T>(why: Why, found: Option<T>) -> Result<T, Why>
    ensures { result ≡ or_defect_field why found }
{
    match found {
        Some(value) => Ok(value),
        None => Err(why),
    }
}
