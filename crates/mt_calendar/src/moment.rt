//! Moments, YYYY-MM-DD hh:mm:ss (ClickHouse: `DateTime('UTC')`, seconds since 1970-01-01 00:00:00).

ghost use Rattle.std.specs.Prelude.{◌≡◌};
ghost use Rattle.mt_calendar.specs.Moments.{second_in_type, moment_of};

use crate::ascii::SPACE;
use crate::date::read_date;
use crate::time::read_time;

/// The seconds of a day; none has a leap second.
pub const SECONDS_OF_DAY: u32 = 86400;

/// The bytes of a text YYYY-MM-DD.
const DATE_BYTES: usize = 10;

fn in_type(second: u64) -> Option<u32>
    ensures { result ≡ second_in_type second }
{
    if second < 4294967296 {
        Some(second as u32)
    } else {
        None
    }
}

/// The second of a text YYYY-MM-DD hh:mm:ss, in seconds since 1970-01-01 00:00:00.
#[tactic(auto, unfolding(crate::specs::Moments::moment_of))]
pub fn read_moment(text: &[u8]) -> Option<u32>
    ensures { result ≡ moment_of text.now }
{
    if text.len() <= DATE_BYTES {
        return None;
    }
    if text[DATE_BYTES] != SPACE {
        return None;
    }
    let day = read_date(&text[..DATE_BYTES])?;
    let second = read_time(&text[DATE_BYTES + 1..])?;
    in_type(u64::from(day) * u64::from(SECONDS_OF_DAY) + u64::from(second))
}
