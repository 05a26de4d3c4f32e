//! Granules and layout.

ghost use Rattle.std.specs.Prelude.{◌≡◌, ◌||◌, ℕ, IfOk, nat_le, nat_lt};
ghost use Rattle.mt_defs.specs.WrittenGranules.{is_small, payload_size, written_granules};
ghost use Rattle.mt_layout.specs.Sizes.{saturated};

use crate::rows::row_size;
use mt_table::{Column, Settings};
use mt_types::{List, NoMemory, Row};
use std::alloc::Global;

/// How the rows of a part or of a projection are laid out.
#[derive(Drop)]
pub struct Layout {
    /// How many rows each granule has (ClickHouse: `MergeTreeIndexGranularity`).
    pub granules: List<u64>,
    /// Whether the files are those of a Compact part, else of a Wide one (ClickHouse:
    /// `MergeTreeDataPartType`).
    pub compact: bool,
}

/// The writer's layout of rows (docs/FORMAT.md, "The writer's folder"). Rows join a granule until it has
/// `granule_rows` rows or `granule_bytes` bytes over all substreams; fewer than `wide_bytes` bytes or
/// `wide_rows` rows are a Compact part.
///
/// A projection's is that of its own columns and rows, by its table's settings. No value is copied or
/// encoded; each row is measured once. The only error is that memory for the granules was refused.
pub fn layout_of(
    alloc: Global,
    settings: &Settings,
    columns: &[Column],
    rows: &[Row],
) -> Result<Layout, NoMemory>
    ensures granules { IfOk result (λ layout.
        layout.granules ≡ written_granules settings.now columns.now rows.now) }
    ensures compact { IfOk result (λ layout.
        layout.compact ≡ is_small settings.now columns.now rows.now) }
{
    let (granules, bytes) = granules_of(alloc, settings, columns, rows)?;
    let compact = is_small(settings, rows.len() as u64, bytes);
    Ok(Layout { granules, compact })
}

/// The granules of rows, and the bytes of all rows.
fn granules_of(
    alloc: Global,
    settings: &Settings,
    columns: &[Column],
    rows: &[Row],
) -> Result<(List<u64>, u64), NoMemory>
    ensures granules { IfOk result (λ cut.
        cut.0 ≡ written_granules settings.now columns.now rows.now) }
    ensures bytes { IfOk result (λ cut. cut.1 ≡ saturated (payload_size columns.now rows.now)) }
{
    let mut granules = List::new(alloc);
    let mut count = 0;
    let mut bytes = 0u64;
    let mut all_bytes = 0u64;
    for row in rows {
        let size = row_size(columns, row.as_slice());
        all_bytes = all_bytes.saturating_add(size);
        bytes = bytes.saturating_add(size);
        count += 1;
        if is_full(settings, count, bytes) {
            granules.push(count)?;
            count = 0;
            bytes = 0;
        }
    }
    if count > 0 {
        granules.push(count)?;
    }
    Ok((granules, all_bytes))
}

/// Whether a granule of so many rows and bytes takes no further row.
fn is_full(settings: &Settings, rows: u64, bytes: u64) -> bool
    ensures { (payload : ℕ) → bytes ≡ saturated payload
        → result ≡ (nat_le settings.now.granule_rows rows
        || nat_le settings.now.granule_bytes payload) }
{
    settings.granule_rows <= rows || settings.granule_bytes <= bytes
}

/// Whether so many rows and bytes make a Compact part.
fn is_small(settings: &Settings, rows: u64, bytes: u64) -> bool
    ensures { (payload : ℕ) → bytes ≡ saturated payload
        → result ≡ (nat_lt payload settings.now.wide_bytes
        || nat_lt rows settings.now.wide_rows) }
{
    bytes < settings.wide_bytes || rows < settings.wide_rows
}
