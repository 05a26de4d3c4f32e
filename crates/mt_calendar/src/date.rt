//! Dates, YYYY-MM-DD (ClickHouse: `Date`, days since 1970-01-01).

ghost use Rattle.std.specs.Prelude.{◌≡◌, ◌<◌};
ghost use Rattle.mt_calendar.specs.Dates.{day_in_type, day_number, date_of, civil_of, date_text};

use crate::ascii::DASH;
use crate::digits::{two_digits, two_digits_at};
use jiff::civil::Date;
use jiff_core::civil;

fn in_type(day: i32) -> Option<u16>
    ensures { result ≡ day_in_type day }
{
    if day < 0 {
        return None;
    }
    let day = day as u32;
    if day < 65536 { Some(day as u16) } else { None }
}

/// The day of a date, in days since 1970-01-01, if the calendar and the type have it.
fn number_of_day(year: u16, month: u8, day: u8) -> Option<u16>
    requires year { year < 10000 }
    requires month { month < 100 }
    requires day { day < 100 }
    ensures { result ≡ day_number year month day }
{
    let Ok(date) = Date::new(year as i16, month as i8, day as i8) else {
        return None;
    };
    in_type(date.to_plain().to_unix_epoch_day())
}

/// The day of a text YYYY-MM-DD, in days since 1970-01-01.
#[tactic(auto, unfolding(crate::specs::Dates::date_of))]
pub fn read_date(text: &[u8]) -> Option<u16>
    ensures { result ≡ date_of text.now }
{
    match text {
        [a, b, c, d, DASH, e, f, DASH, g, h] => {
            let century = two_digits_at(*a, *b)?;
            let year = two_digits_at(*c, *d)?;
            let month = two_digits_at(*e, *f)?;
            let day = two_digits_at(*g, *h)?;
            number_of_day(100 * century as u16 + year as u16, month, day)
        }
        _ => None,
    }
}

/// The year, month and day of a day since 1970-01-01.
fn civil_of(day: u16) -> (u16, u8, u8)
    ensures civil { (result.0, (result.1, result.2)) ≡ civil_of day }
    ensures year { result.0 < 10000 }
    ensures month { result.1 < 100 }
    ensures in_month { result.2 < 100 }
{
    let Ok(plain) = civil::Date::from_unix_epoch_day(i64::from(day)) else {
        unreachable!()
    };
    let date = Date::from_plain(plain);
    (date.year() as u16, date.month() as u8, date.day() as u8)
}

/// The date of a day since 1970-01-01.
pub fn date_text(day: u16) -> [u8; 10]
    ensures { result ≡ date_text day }
{
    let (year, month, day) = civil_of(day);
    let [a, b] = two_digits((year / 100) as u8);
    let [c, d] = two_digits((year % 100) as u8);
    let [e, f] = two_digits(month);
    let [g, h] = two_digits(day);
    [a, b, c, d, DASH, e, f, DASH, g, h]
}
