//! What is written is read again, and nothing else is read.

ghost use Rattle.std.specs.Prelude.{◌≡◌, ◌≢◌, ◌↔◌, ◌<◌, ◌≤◌, ◌+◌, ◌*◌, ℕ, pos, List, [], Ok, All, length, map, take};
ghost use Rattle.jiff_core.specs.Calendar.{days_from_civil, IsCivilDate};
ghost use Rattle.mt_table.specs.declared.column.Column.{Column};
ghost use Rattle.mt_table.specs.declared.definition.PartDef.{PartDef};
ghost use Rattle.mt_table.specs.declared.definition.Table.{Table};
ghost use Rattle.mt_defs.specs.Folder.{Folder};
ghost use Rattle.mt_defs.specs.Granules.{AreGranules};
ghost use Rattle.mt_defs.specs.Partition.{month_of, HasPartition};
ghost use Rattle.mt_defs.specs.PrimaryIndex.{index_rows, primary_index_of};
ghost use Rattle.mt_defs.specs.Rows.{Row, RowFits, key_of};
ghost use Rattle.mt_meta.specs.ColumnsReading.{columns_reading, CanBeListed, Lists};
ghost use Rattle.mt_meta.specs.CountReading.{count_reading, Counts};
ghost use Rattle.mt_meta.specs.KeyReading.{AreKeysOf, key_types};
ghost use Rattle.mt_meta.specs.Keys.{AreKeys};
ghost use Rattle.mt_meta.specs.PartitionReading.{HasPartitionFiles};

/// A text is read as a count exactly where it counts so many rows.
pub fn counts_are_read()
    ensures { (columns rows : ℕ) (text : List ℕ) → (count_reading columns text ≡ Ok rows) ↔ Counts columns rows text }
{}

/// A text that is read lists columns that it may list, in the order that is returned.
pub fn only_lists_are_read()
    ensures { (columns : List Column) (must order text : List ℕ) → columns_reading columns must text ≡ Ok order
        → Lists columns must order text }
{}

/// A text that lists columns that it may list is read, in its order.
pub fn listed_columns_are_read()
    ensures { (columns : List Column) (must order text : List ℕ) → CanBeListed columns → Lists columns must order text
        → columns_reading columns must text ≡ Ok order }
{}

/// The keys that a written primary.idx holds, so that `read_keys` gives them: those of the first row of each
/// granule, and of the last row.
pub fn written_keys_are_read()
    ensures { (definition : PartDef) (rows : List Row) (granules : List ℕ)
        → AreKeys definition.columns definition.sort → definition.primary ≤ length definition.sort
        → All (RowFits definition.columns) rows → rows ≢ [] → AreGranules granules rows
        → AreKeysOf (key_types definition) (length granules + 1) (primary_index_of definition rows granules)
        (map (key_of (take definition.primary definition.sort)) (index_rows rows granules)) }
{}

/// The month of a day is that of its date in the civil calendar, on every day of the type.
pub fn months_are_those_of_the_calendar()
    ensures { (day year month day_of_month : ℕ) → day < 65536 → IsCivilDate (pos year) month day_of_month
        → days_from_civil (pos year) month day_of_month ≡ pos day → month_of day ≡ year * 100 + month }
{}

/// A folder has the partition of some rows exactly where it has the files that are written of them.
pub fn written_partitions_are_compared()
    ensures { (table : Table) (rows : List Row) (folder : Folder) → rows ≢ []
        → HasPartition table rows folder ↔ HasPartitionFiles table rows folder }
{}
