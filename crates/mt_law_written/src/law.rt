//! Laws of the writer's folder, each the contract of a function that does nothing.

ghost use Rattle.std.specs.Prelude.{◌≡◌, ◌≢◌, ◌≤◌, ℕ, List, length, Ok, Some, All, AllPairs};
ghost use Rattle.mt_shelf.specs.Held.{HasName};
ghost use Rattle.mt_table.specs.declared.column.Column.{Column};
ghost use Rattle.mt_table.specs.declared.definition.PartDef.{PartDef};
ghost use Rattle.mt_table.specs.declared.definition.Table.{Table};
ghost use Rattle.mt_table.specs.declared.limits.TheConstants.{MAX_COLUMNS};
ghost use Rattle.mt_table.specs.declared.settings.Settings.{Settings};
ghost use Rattle.mt_defs.specs.Folder.{folder_of};
ghost use Rattle.mt_defs.specs.Part.{HoldsRows, StandsForIn};
ghost use Rattle.mt_defs.specs.Projections.{base_of, inner_of};
ghost use Rattle.mt_defs.specs.Rows.{Row, ArePartRows};
ghost use Rattle.mt_defs.specs.Writer.{IsWritable, definition_files, written_folder};
ghost use Rattle.mt_defs.specs.WrittenColumns.{compact_files, wide_files};
ghost use Rattle.mt_defs.specs.WrittenGranules.{written_granules};
ghost use Rattle.mt_wide.specs.WideReading.{wide_reading};
ghost use Rattle.mt_compact.specs.CompactReading.{compact_reading};
ghost use Rattle.mt_law_written.specs.Layouts.{AreLaidOut, HaveNames};
ghost use Rattle.mt_law_written.specs.Stored.{IsStored};

/// The writer's Wide files of rows over any granules are read as these rows and granules.
pub fn written_wide_files_are_read()
    ensures { (columns : List Column) (rows : List Row) (granules : List ℕ)
        → 1 ≤ length columns → AreLaidOut columns rows granules → HaveNames columns
        → wide_reading (folder_of (wide_files columns rows granules)) (length rows) columns ≡ Ok (rows, granules) }
{}

/// The writer's Compact files of rows over any granules are read as these rows and granules.
pub fn written_compact_files_are_read()
    ensures { (columns : List Column) (rows : List Row) (granules : List ℕ)
        → 1 ≤ length columns → length columns ≤ MAX_COLUMNS → AreLaidOut columns rows granules
        → compact_reading (folder_of (compact_files columns rows granules)) (length rows) columns ≡ Ok (rows, granules) }
{}

/// What each folder of a table stores has columns of different names and of types of the profile, and those that it must
/// list are among them.
pub fn definitions_are_stored()
    ensures base { (table : Table) → IsStored (base_of table) }
    ensures projections { (table : Table)
        → All (λ projection. IsStored (inner_of table projection)) table.projections }
{}

/// The writer's files of a definition's rows hold these rows, in the writer's granules.
pub fn written_definition_holds_rows()
    ensures { (settings : Settings) (definition : PartDef) (rows : List Row) → IsStored definition
        → ArePartRows definition rows
        → HoldsRows definition (folder_of (definition_files settings definition rows)) rows
        (written_granules settings definition.columns rows) }
{}

/// The writer's folder of writable rows stands for these rows, in the writer's granules: for every table.
pub fn written_folder_stands()
    ensures { (table : Table) (rows : List Row) → IsWritable table rows
        → StandsForIn table (folder_of (written_folder table rows)) rows
        (written_granules table.settings table.columns rows) }
{}

/// No two files of the writer's folder have one name.
pub fn written_names_differ()
    ensures { (table : Table) (rows : List Row)
        → AllPairs (λ f g. f.name ≢ g.name) (written_folder table rows) }
{}

/// Each file of the writer's folder is found by its name.
pub fn written_files_are_found()
    ensures { (table : Table) (rows : List Row) → All (λ file.
        folder_of (written_folder table rows) file.name ≡ Some file.bytes) (written_folder table rows) }
{}

/// Each file of the writer's folder has a relative path as its name, in UTF-8.
pub fn written_names_are_paths()
    ensures { (table : Table) (rows : List Row) → All HasName (written_folder table rows) }
{}
