//! By how much dates move.
ghost use Rattle.std.specs.Prelude.{◌≡◌, ◌≤◌};
ghost use Rattle.event_fields.specs.Shifts.{directed, shift_in};

use stream_fields::number_up_to;

/// The most seconds by which a date moves: 12 digits. (own)
pub const MAX_SHIFT: u64 = 999_999_999_999;

/// The most digits of them. (own)
pub const MAX_SHIFT_DIGITS: usize = 12;

// So many seconds, earlier or later.
fn directed(earlier: bool, seconds: u64) -> i64
    requires { seconds ≤ 999_999_999_999 }
    ensures { result ≡ directed earlier seconds }
{
    if earlier {
        -(seconds as i64)
    } else {
        seconds as i64
    }
}

/// The seconds that a sign and 1 to 12 digits say. (reposurgeon manual, `timeoffset`; the digits: own)
pub fn shift_in(text: &[u8]) -> Option<i64>
    ensures { result ≡ shift_in text.now }
{
    match text {
        [] => None,
        [sign, digits @ ..] => {
            if (*sign == b'+' || *sign == b'-') && digits.len() <= MAX_SHIFT_DIGITS {
                let seconds = number_up_to(MAX_SHIFT, digits)?;
                Some(directed(*sign == b'-', seconds))
            } else {
                None
            }
        }
    }
}
