//! The month of a day (docs/FORMAT.md, "Partition"; ClickHouse: `toYYYYMM`).

ghost use Rattle.std.specs.Prelude.{◌≡◌, IsTrue};
ghost use Rattle.mt_types.specs.declared.value.Value.{out-Value};
ghost use Rattle.mt_defs.specs.Partition.{month_of, month_at};
ghost use Rattle.mt_meta.specs.PartitionKeys.{is_day};

use jiff::civil::Date;
use jiff_core::civil;
use mt_types::Value;

/// Year times 100 plus month of a day since 1970-01-01.
pub fn month_of(day: u16) -> u32
    ensures { result ≡ month_of day }
{
    let Ok(plain) = civil::Date::from_unix_epoch_day(i64::from(day)) else {
        unreachable!()
    };
    let date = Date::from_plain(plain);
    date.year() as u32 * 100 + date.month() as u32
}

/// The month of a value, which is a day.
pub(crate) fn month_at(value: &Value) -> u32
    requires { IsTrue (is_day value.now) }
    ensures { result ≡ month_at (out-Value value.now) }
{
    match value {
        Value::Num(day) => month_of(*day as u16),
        _ => unreachable!(),
    }
}
