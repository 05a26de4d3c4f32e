//! Laws of the sizes of the writer's files, each the contract of a function that does nothing.

ghost use Rattle.std.specs.Prelude.{◌≡◌, ◌≢◌, ℕ, ◌+◌, ◌*◌, ◌≤◌, List, [], length, take, All};
ghost use Rattle.mt_types.specs.Items.{item_bytes};
ghost use Rattle.mt_types.specs.declared.ty.Ty.{Ty};
ghost use Rattle.mt_types.specs.declared.value.Value.{Value};
ghost use Rattle.mt_table.specs.declared.column.Column.{Column};
ghost use Rattle.mt_table.specs.declared.definition.PartDef.{PartDef};
ghost use Rattle.mt_table.specs.declared.definition.Table.{Table};
ghost use Rattle.mt_table.specs.declared.settings.Settings.{Settings};
ghost use Rattle.mt_table.specs.declared.skip.Skip.{Skip};
ghost use Rattle.mt_table.specs.declared.skip.SkipKind.TheVariants.{Minmax};
ghost use Rattle.mt_defs.specs.Metadata.{column_at};
ghost use Rattle.mt_defs.specs.PrimaryIndex.{key_bytes};
ghost use Rattle.mt_defs.specs.Rows.{Row};
ghost use Rattle.mt_defs.specs.Writer.{definition_files};
ghost use Rattle.mt_defs.specs.WrittenColumns.{compact_files, wide_files};
ghost use Rattle.mt_defs.specs.WrittenPartition.{minmax_bytes};
ghost use Rattle.mt_defs.specs.WrittenSkips.{skip_files};
ghost use Rattle.mt_defs.specs.declared.frame.TheConstants.{FRAME_PAYLOAD};
ghost use Rattle.mt_law_written.specs.Layouts.{AreLaidOut, AreShort};
ghost use Rattle.mt_law_written.specs.Sizes.{HasWidth, HaveWidths, definition_limit, files_size};

/// The files of a definition's rows have at most this many bytes, for any settings and so in either layout: those of
/// columns.txt and count.txt, a primary key for each row and one more, and for each column its width and 49 bytes
/// more in each row, and 24.
pub fn definition_files_are_small()
    ensures { (settings : Settings) (definition : PartDef) (rows : List Row) (widths : List ℕ) (key : ℕ)
        → definition.columns ≢ [] → All (λ width. width ≤ FRAME_PAYLOAD) widths
        → HaveWidths definition.columns widths rows
        → All (λ row. length (key_bytes definition.columns (take definition.primary definition.sort) row) ≤ key) rows
        → files_size (definition_files settings definition rows)
        ≤ definition_limit definition widths key (length rows) }
{}

/// The two files of a minmax index have at most two items and 49 bytes more for each row.
pub fn minmax_indexes_are_small()
    ensures { (table : Table) (rows : List Row) (skip : Skip) (width : ℕ)
        → skip.kind ≡ Minmax → 2 * width ≤ FRAME_PAYLOAD
        → HasWidth (column_at table.columns skip.column) skip.column width rows
        → files_size (skip_files table rows skip) ≤ (2 * width + 49) * length rows }
{}

/// A minmax file of the partition has at most two items.
pub fn minmax_files_are_small()
    ensures { (ty : Ty) (values : List Value) (width : ℕ)
        → All (λ value. length (item_bytes ty value) ≤ width) values
        → length (minmax_bytes ty values) ≤ 2 * width }
{}

/// The writer's data and marks files of rows within the limits have fewer than 2^64 bytes each, over any granules.
pub fn written_files_are_short()
    ensures wide { (columns : List Column) (rows : List Row) (granules : List ℕ)
        → AreLaidOut columns rows granules → AreShort (wide_files columns rows granules) }
    ensures compact { (columns : List Column) (rows : List Row) (granules : List ℕ)
        → AreLaidOut columns rows granules → AreShort (compact_files columns rows granules) }
{}
