//! The definitions at a worked example: three rows of two columns, and their seven files.

ghost use Rattle.std.specs.Prelude.{◌≡◌, [], ◌∷◌};
ghost use Rattle.mt_defs.specs.Sorting.{sorted_rows};
ghost use Rattle.mt_defs.specs.WorkedExample.{input, rows, table, seven_files};
ghost use Rattle.mt_defs.specs.Writer.{written_folder};

/// The order of the example's three rows by its first column.
pub fn worked_order()
    ensures { sorted_rows (0 ∷ []) input ≡ rows }
{}

/// The folder that the writer makes of the example's rows: seven files, byte for byte.
pub fn worked_folder()
    ensures { written_folder table rows ≡ seven_files }
{}
