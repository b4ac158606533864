//! Dates at the end of a text.
ghost use Rattle.std.specs.Prelude.{◌≡◌, ◌≤◌, ◌++◌, pos, IfOk, OnOk, string_bytes};
ghost use Rattle.civil_dates.specs.Dates.{date_text};
ghost use Rattle.jiff.specs.Words.{civil_seconds};
ghost use Rattle.plain_model.specs.declared.limit.TheConstants.{MAX_SECONDS};

use jiff::Timestamp;
use jiff::civil::DateTime;
use jiff::tz::Offset;
use plain_model::{NoMemory, Text};

// What a calendar and a clock in UTC show so many seconds after the beginning of 1970.
fn shown_at(seconds: u64) -> DateTime
    requires { seconds ≤ MAX_SECONDS }
    ensures civil { civil_seconds result ≡ pos seconds }
    ensures whole { result.time.subsec_nanosecond ≡ 0 }
{
    Offset::UTC.to_datetime(Timestamp::from_second(seconds as i64).unwrap())
}

/// Puts the date in UTC of so many seconds since 1970, as `1970-01-01T00:00:00Z`.
pub fn push_date(seconds: u64, into: &mut Text) -> Result<(), NoMemory>
    requires { seconds ≤ MAX_SECONDS }
    ensures { OnOk result (into.new ≡ into.old ++ date_text seconds) }
{
    let shown = shown_at(seconds);
    let date = format!(in into.alloc(); "{shown}Z")?;
    into.push_all(date.as_bytes())
}
