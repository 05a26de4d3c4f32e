//! What is written is read again, and what is read fits.

ghost use Rattle.std.specs.Prelude.{◌≡◌, ◌<◌, ◌≤◌, ℕ, List, length, true, Ok};
ghost use Rattle.std.specs.List.{All, list_all};
ghost use Rattle.mt_types.specs.Bytes.{is_byte};
ghost use Rattle.mt_types.specs.declared.value.Value.{Value};
ghost use Rattle.mt_table.specs.declared.column.Column.{Column};
ghost use Rattle.mt_table.specs.declared.limits.TheConstants.{MAX_ROWS, MAX_CELLS};
ghost use Rattle.mt_table.specs.Rows.{RowFits, cell_count};
ghost use Rattle.mt_tsv.specs.Printing.{rows_text};
ghost use Rattle.mt_tsv.specs.Reading.{rows_reading};
ghost use Rattle.mt_tsv.specs.Writable.{is_written_type};

/// The lines of rows that fit a table of at least one column, within the limits on rows and cells,
/// are read as these rows.
pub fn written_rows_are_read()
    ensures { (columns : List Column) (rows : List (List Value))
        → 0 < length columns → All (λ column. is_written_type column.ty ≡ true) columns
        → All (RowFits columns) rows
        → length rows ≤ MAX_ROWS → cell_count columns rows ≤ MAX_CELLS
        → rows_reading columns (rows_text columns rows) ≡ Ok rows }
{}

/// The rows that are read of a text of bytes have one value of its type per column.
pub fn rows_of_bytes_fit()
    ensures { (columns : List Column) (text : List ℕ) (rows : List (List Value))
        → list_all is_byte text ≡ true
        → rows_reading columns text ≡ Ok rows
        → All (RowFits columns) rows }
{}
