//! Laws of granules and of payload bytes, each the contract of a function that does nothing.

ghost use Rattle.std.specs.Prelude.{◌≡◌, List, length, map, sum};
ghost use Rattle.mt_types.specs.declared.ty.Ty.{Ty};
ghost use Rattle.mt_types.specs.declared.value.Value.{Value};
ghost use Rattle.mt_table.specs.declared.column.Column.{Column};
ghost use Rattle.mt_table.specs.declared.settings.Settings.{Settings};
ghost use Rattle.mt_defs.specs.Granules.{AreGranules};
ghost use Rattle.mt_defs.specs.Rows.{Row};
ghost use Rattle.mt_defs.specs.WrittenGranules.{payload_size, written_granules};
ghost use Rattle.mt_defs.specs.WrittenStreams.{written_streams};
ghost use Rattle.mt_layout.specs.Sizes.{row_size, value_size};

/// The writer's granules have a row each, and all rows together.
pub fn written_granules_hold_all_rows()
    ensures { (settings : Settings) (columns : List Column) (rows : List Row)
        → AreGranules (written_granules settings columns rows) rows }
{}

/// The payload bytes of rows are the sum of those of each row.
pub fn payloads_are_sums_over_rows()
    ensures { (columns : List Column) (rows : List Row)
        → payload_size columns rows ≡ sum (map (row_size columns) rows) }
{}

/// The bytes of a column's substreams are the sum of those of each value.
pub fn payloads_are_sums_over_values()
    ensures { (ty : Ty) (values : List Value)
        → sum (map length (written_streams ty values)) ≡ sum (map (value_size ty) values) }
{}
