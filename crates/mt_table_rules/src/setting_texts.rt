//! Setting: the settings that a part's layout depends on.

ghost use Rattle.std.specs.Prelude.{◌≡◌};
ghost use Rattle.mt_table_rules.specs.SettingTexts as defined;

use mt_syntax::{SettingText, SettingValue};
use mt_table::{
    DEFAULT_GRANULE_BYTES, DEFAULT_GRANULE_ROWS, DEFAULT_WIDE_BYTES, DEFAULT_WIDE_ROWS,
    MAX_GRANULE_BYTES, MAX_GRANULE_ROWS, Settings,
};

/// A number from one to another.
fn number_in(least: u64, most: u64, value: SettingValue) -> Option<u64>
    ensures { result ≡ defined.number_in_range least most value }
{
    match value {
        SettingValue::Number(number) if least <= number && number <= most => Some(number),
        _ => None,
    }
}

/// The value of a setting that is from one number to another, or a default where it isn't given.
fn setting_in(
    least: u64,
    most: u64,
    default: u64,
    name: &[u8],
    settings: &[SettingText],
) -> Option<u64>
    ensures { result ≡ defined.setting_in least most default name.now settings.now }
{
    let mut found = None;
    for setting in settings {
        if setting.name.as_slice() == name {
            if found.is_some() {
                return None;
            }
            found = Some(setting.value);
        }
    }
    match found {
        Some(value) => number_in(least, most, value),
        None => Some(default),
    }
}

/// The settings of a table text, if they are as they should be.
#[tactic(auto, unfolding(crate::specs::SettingTexts::settings_of))]
pub fn read_settings(settings: &[SettingText]) -> Option<Settings>
    ensures { result ≡ defined.settings_of settings.now }
{
    let granule_rows = setting_in(
        1,
        MAX_GRANULE_ROWS,
        DEFAULT_GRANULE_ROWS,
        b"index_granularity",
        settings,
    )?;
    let granule_bytes = setting_in(
        1,
        MAX_GRANULE_BYTES,
        DEFAULT_GRANULE_BYTES,
        b"index_granularity_bytes",
        settings,
    )?;
    let wide_bytes = setting_in(
        0,
        u64::MAX,
        DEFAULT_WIDE_BYTES,
        b"min_bytes_for_wide_part",
        settings,
    )?;
    let wide_rows = setting_in(
        0,
        u64::MAX,
        DEFAULT_WIDE_ROWS,
        b"min_rows_for_wide_part",
        settings,
    )?;
    Some(Settings {
        granule_rows,
        granule_bytes,
        wide_bytes,
        wide_rows,
    })
}
