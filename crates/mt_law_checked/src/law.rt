//! Laws of the checks, each the contract of a function that does nothing.

ghost use Rattle.std.specs.Prelude.{◌≡◌, ◌↔◌, ℕ, All, List, map, Err, Ok};
ghost use Rattle.mt_fault.specs.declared.file.FileBytes.{FileBytes};
ghost use Rattle.mt_fault.specs.declared.fault.Fault.{Fault};
ghost use Rattle.mt_table.specs.declared.definition.PartDef.{PartDef};
ghost use Rattle.mt_table.specs.declared.definition.Table.{Table};
ghost use Rattle.mt_defs.specs.Folder.{Folder, folder_of};
ghost use Rattle.mt_defs.specs.Part.{HoldsRows, StandsFor, StandsForIn};
ghost use Rattle.mt_defs.specs.Projections.{base_of, inner_of};
ghost use Rattle.mt_defs.specs.Rows.{Row};
ghost use Rattle.mt_definition.specs.declared.accepted.Accepted.{Accepted};
ghost use Rattle.mt_definition.specs.DefinitionReading.{definition_reading};
ghost use Rattle.mt_check.specs.FolderChecks.{folder_checks};
ghost use Rattle.mt_law_checked.specs.Listed.{HasFilesAt};
ghost use Rattle.mt_law_checked.specs.Readable.{IsReadable};

use mt_check::partitions_are_checked;
use mt_compact::compact_parts_are_read_exactly;
use mt_law_written::definitions_are_stored;
use mt_meta::{counts_are_read, listed_columns_are_read, only_lists_are_read};
use mt_proj::projections_are_tested;
use mt_skip::summaries_are_tested;
use mt_wide::wide_parts_are_read_exactly;

/// What each folder of a table stores can be read.
pub fn definitions_are_readable()
    ensures base { (table : Table) → IsReadable (base_of table) }
    ensures projections { (table : Table)
        → All (λ projection. IsReadable (inner_of table projection)) table.projections }
{
    definitions_are_stored();
}

/// The rows and granules that a definition's checks accept are those that its folder holds, and no others.
pub fn definitions_are_read_exactly()
    ensures { (definition : PartDef) (folder : Folder) (accepted : Accepted) → IsReadable definition
        → (definition_reading definition folder ≡ Ok accepted)
        ↔ HoldsRows definition folder accepted.rows accepted.granules }
{
    only_lists_are_read();
    listed_columns_are_read();
    counts_are_read();
    wide_parts_are_read_exactly();
    compact_parts_are_read_exactly();
}

/// The checks accept exactly the rows and granules for which the folder stands, and a folder that stands for no rows
/// has a fault.
pub fn folders_are_checked_exactly()
    ensures accepted { (table : Table) (folder : Folder) (names : List (List ℕ)) (accepted : Accepted)
        → HasFilesAt folder names
        → (folder_checks table folder names ≡ Ok accepted)
        ↔ StandsForIn table folder accepted.rows accepted.granules }
    ensures fault { (table : Table) (folder : Folder) (names : List (List ℕ))
        → HasFilesAt folder names → ((rows : List Row) → StandsFor table folder rows → ⊥)
        → (fault : Fault) × (folder_checks table folder names ≡ Err fault) }
{
    definitions_are_readable();
    definitions_are_read_exactly();
    listed_columns_are_read();
    partitions_are_checked();
    summaries_are_tested();
    projections_are_tested();
}

/// No folder stands for two lists of rows, nor in two lists of granules.
pub fn folders_stand_for_one_list_of_rows()
    ensures rows { (table : Table) (folder : Folder) (rows others : List Row)
        → StandsFor table folder rows → StandsFor table folder others → rows ≡ others }
    ensures granules { (table : Table) (folder : Folder) (rows others : List Row) (granules marked : List ℕ)
        → StandsForIn table folder rows granules → StandsForIn table folder others marked → granules ≡ marked }
{
    definitions_are_readable();
    definitions_are_read_exactly();
}

/// Of such folders are those of files in memory, whose names are the files' own.
pub fn listed_files_make_a_folder()
    ensures { (files : List FileBytes) → HasFilesAt (folder_of files) (map (λ file. file.name) files) }
{}
