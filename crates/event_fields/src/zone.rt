//! Zones into which dates move.
ghost use Rattle.std.specs.Prelude.{◌≡◌, ◌≤◌};
ghost use Rattle.event_fields.specs.Shifts.{zone_in};

use std::marker::Model;
use stream_fields::number_up_to;

/// A sign and the number that four digits say, 0 to 9999, which isn't judged. (git-fast-import, `raw` dates.)
#[derive(Clone, Copy, Debug, PartialEq, Eq)]
pub struct Zone {
    minus: bool,
    offset: u16,
}

impl Model for Zone {
    ghost use Rattle.event_fields.specs.Shifts.{IsZone, PlainZone};

    ghost Value = { PlainZone };

    ghost view = { λ z. record {
      minus = z.minus;
      offset = z.offset;
    } };

    ghost invariant = { λ z. IsZone (record { minus = z.minus; offset = z.offset }) };

    ghost inverse = { λ z. record {
      minus = z.minus;
      offset = z.offset;
    } };
}

impl Zone {
    /// The zone that a sign and four digits say.
    pub fn of(text: &[u8]) -> Option<Zone>
        ensures { result ≡ zone_in text.now }
    {
        match text {
            [] => None,
            [sign, digits @ ..] => {
                if !((*sign == b'+' || *sign == b'-') && digits.len() == 4) {
                    return None;
                }
                let offset = number_up_to(9999, digits)? as u16;
                Some(Zone {
                    minus: *sign == b'-',
                    offset,
                })
            }
        }
    }

    /// Whether the sign is `-`.
    pub fn is_minus(&self) -> bool
        ensures { result ≡ self.now.minus }
    {
        self.minus
    }

    /// The four digits as a number.
    pub fn offset(&self) -> u16
        ensures number { result ≡ self.now.offset }
        ensures fits { result ≤ 9999 }
    {
        self.offset
    }
}
