//! Dates and times of day as text, over the calendar of `jiff`.
//!
//! A text is read as exactly the day or the second that it denotes, and what is written is read again.
#![tactic(auto)]

mod ascii;
mod date;
mod digits;
mod law;
mod moment;
mod time;

pub use date::{date_text, read_date};
pub use law::{written_dates_are_read, written_moments_are_read};
pub use moment::{SECONDS_OF_DAY, read_moment};
pub use time::time_text;
