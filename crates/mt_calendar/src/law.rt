//! What is written is read again.

ghost use Rattle.std.specs.Prelude.{◌≡◌, ◌<◌, ◌^◌, ℕ, Some};
ghost use Rattle.mt_calendar.specs.Dates.{date_of, date_text};
ghost use Rattle.mt_calendar.specs.Moments.{moment_of, moment_text};

/// The date of each day of the type is read as this day.
#[tactic(auto, using(crate::proofs::WrittenDates::date_again))]
pub fn written_dates_are_read()
    ensures { (day : ℕ) → day < 2 ^ 16 → date_of (date_text day) ≡ Some day }
{}

/// The date and time of each second of the type are read as this second.
#[tactic(auto, using(crate::proofs::WrittenMoments::moment_again))]
pub fn written_moments_are_read()
    ensures { (second : ℕ) → second < 2 ^ 32 → moment_of (moment_text second) ≡ Some second }
{}
