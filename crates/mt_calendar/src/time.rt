//! Times of day, hh:mm:ss.

ghost use Rattle.std.specs.Prelude.{◌≡◌, ◌<◌};
ghost use Rattle.mt_calendar.specs.declared.moment.TheConstants.{SECONDS_OF_DAY};
ghost use Rattle.mt_calendar.specs.Moments.{time_number, time_of, time_text};

use crate::ascii::COLON;
use crate::digits::{two_digits, two_digits_at};

/// The second of the day, if the day has it.
fn number_of_time(hour: u8, minute: u8, second: u8) -> Option<u32>
    ensures { result ≡ time_number hour minute second }
{
    if hour < 24 && minute < 60 && second < 60 {
        Some((hour as u32 * 60 + minute as u32) * 60 + second as u32)
    } else {
        None
    }
}

/// The second of the day of a text hh:mm:ss.
#[tactic(auto, unfolding(crate::specs::Moments::time_of))]
pub fn read_time(text: &[u8]) -> Option<u32>
    ensures value { result ≡ time_of text.now }
{
    match text {
        [a, b, COLON, c, d, COLON, e, f] => {
            let hour = two_digits_at(*a, *b)?;
            let minute = two_digits_at(*c, *d)?;
            let second = two_digits_at(*e, *f)?;
            number_of_time(hour, minute, second)
        }
        _ => None,
    }
}

/// The time of a second of the day.
pub fn time_text(second: u32) -> [u8; 8]
    requires { second < SECONDS_OF_DAY }
    ensures { result ≡ time_text second }
{
    let [a, b] = two_digits((second / 3600) as u8);
    let [c, d] = two_digits((second / 60 % 60) as u8);
    let [e, f] = two_digits((second % 60) as u8);
    [a, b, COLON, c, d, COLON, e, f]
}
