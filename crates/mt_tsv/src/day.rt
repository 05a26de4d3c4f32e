//! Dates and moments, written.

ghost use Rattle.std.specs.Prelude.{◌≡◌, ◌++◌, take, length, OnOk, OnErr};
ghost use Rattle.mt_calendar.specs.Moments.{moment_text};
ghost use Rattle.mt_tsv.specs.Printing.{day_text, second_text};

use crate::ascii::SPACE;
use mt_calendar::{SECONDS_OF_DAY, date_text, time_text};
use mt_types::{List, NoMemory};

/// Appends the date of a value, if it is a day of the type.
pub fn append_day(out: &mut List<u8>, day: i128) -> Result<(), NoMemory>
    ensures ok { OnOk result (out.new ≡ out.old ++ day_text day) }
    ensures kept { OnErr result (take (length out.old) out.new ≡ out.old) }
{
    if 0 <= day && day < 0x1_0000 {
        out.append(&date_text(day as u16))
    } else {
        Ok(())
    }
}

/// Appends the date and time of a second since 1970-01-01 00:00:00.
fn append_moment(out: &mut List<u8>, second: u32) -> Result<(), NoMemory>
    ensures ok { OnOk result (out.new ≡ out.old ++ moment_text second) }
    ensures kept { OnErr result (take (length out.old) out.new ≡ out.old) }
{
    out.append(&date_text((second / SECONDS_OF_DAY) as u16))?;
    out.append(&[SPACE])?;
    out.append(&time_text(second % SECONDS_OF_DAY))
}

/// Appends the date and time of a value, if it is a second of the type.
pub fn append_second(out: &mut List<u8>, second: i128) -> Result<(), NoMemory>
    ensures ok { OnOk result (out.new ≡ out.old ++ second_text second) }
    ensures kept { OnErr result (take (length out.old) out.new ≡ out.old) }
{
    if 0 <= second && second < 0x1_0000_0000 {
        append_moment(out, second as u32)
    } else {
        Ok(())
    }
}
