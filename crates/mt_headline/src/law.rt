//! Laws of the commands' steps, each the contract of a function that does nothing.

ghost use Rattle.std.specs.Prelude.{◌≡◌, ◌↔◌, ℕ, false, List, map, Err, Ok, Result};
ghost use Rattle.std.specs.FinMap.{get};
ghost use Rattle.mt_fault.specs.declared.fault.Fault.{Fault};
ghost use Rattle.mt_shelf.specs.Files.{Draft, Files, entries_below, gained_files};
ghost use Rattle.mt_shelf.specs.Held.{pair_of};
ghost use Rattle.mt_shelf.specs.Paths.{is_at_or_below};
ghost use Rattle.mt_table.specs.declared.definition.Table.{Table};
ghost use Rattle.mt_defs.specs.Part.{StandsFor, StandsForIn};
ghost use Rattle.mt_defs.specs.Rows.{Row};
ghost use Rattle.mt_defs.specs.Sorting.{sorted_rows};
ghost use Rattle.mt_defs.specs.Writer.{IsWritable, written_folder};
ghost use Rattle.mt_definition.specs.declared.accepted.Accepted.{Accepted};
ghost use Rattle.mt_command.specs.Parts.{folder_at, part_checks, part_steps};
ghost use Rattle.mt_command.specs.Targets.{free_target, within_limit};
ghost use Rattle.mt_command.specs.declared.status.Status.{Status};
ghost use Rattle.mt_headline.specs.Storable.{AreStorable};

use mt_law_checked::folders_are_checked_exactly;
use mt_law_written::{written_folder_stands, written_names_differ};

/// The checks of a part accept exactly the rows and granules for which the folder of the files below it stands, and a
/// part whose folder stands for no rows has a fault.
pub fn parts_are_checked_exactly()
    ensures accepted { (table : Table) (part : List ℕ) (files : Files) (accepted : Accepted)
        → part_checks table part files (Ok accepted)
        ↔ StandsForIn table (folder_at part files) accepted.rows accepted.granules }
    ensures fault { (table : Table) (part : List ℕ) (files : Files)
        → ((rows : List Row) → StandsFor table (folder_at part files) rows → ⊥)
        → (fault : Fault) × part_checks table part files (Err fault) }
{
    folders_are_checked_exactly();
}

/// The writer's folder of writable rows, within the limit and published where no file stands, is a part that is
/// accepted, as the part of these rows and no others; it is never refused. So what `write` and `merge` publish,
/// `check` accepts and `rows` prints.
pub fn published_parts_are_accepted()
    ensures stands { (table : Table) (rows : List Row) (part : List ℕ) (files : Files)
        → IsWritable table rows → free_target part files ≡ Ok tt
        → within_limit (written_folder table rows) ≡ Ok (written_folder table rows)
        → StandsFor table (folder_at part (gained_files part (map pair_of (written_folder table rows)) files)) rows }
    ensures accepted { (table : Table) (rows : List Row) (part : List ℕ) (files : Files)
        → IsWritable table rows → free_target part files ≡ Ok tt
        → within_limit (written_folder table rows) ≡ Ok (written_folder table rows)
        → (accepted : Accepted)
        × part_steps table part (gained_files part (map pair_of (written_folder table rows)) files) (Ok accepted)
        × (accepted.rows ≡ rows) }
    ensures no_other { (table : Table) (rows : List Row) (part : List ℕ) (files : Files) (accepted : Accepted)
        → IsWritable table rows → free_target part files ≡ Ok tt
        → within_limit (written_folder table rows) ≡ Ok (written_folder table rows)
        → part_steps table part (gained_files part (map pair_of (written_folder table rows)) files) (Ok accepted)
        → accepted.rows ≡ rows }
    ensures no_refusal { (table : Table) (rows : List Row) (part : List ℕ) (files : Files) (status : Status)
        → IsWritable table rows → free_target part files ≡ Ok tt
        → within_limit (written_folder table rows) ≡ Ok (written_folder table rows)
        → part_steps table part (gained_files part (map pair_of (written_folder table rows)) files) (Err status)
        → ⊥ }
{
    parts_are_checked_exactly();
    written_folder_stands();
    written_names_differ();
}

/// Rows of one partition within the limits, in any order, are writable in key order; what is published of them is
/// accepted as the part of these rows in key order, equal keys in their former order.
pub fn storable_rows_are_accepted()
    ensures writable { (table : Table) (rows : List Row) → AreStorable table rows
        → IsWritable table (sorted_rows table.sort rows) }
    ensures stands { (table : Table) (rows : List Row) (part : List ℕ) (files : Files)
        → AreStorable table rows → free_target part files ≡ Ok tt
        → (let folder = written_folder table (sorted_rows table.sort rows) in within_limit folder ≡ Ok folder
        → StandsFor table (folder_at part (gained_files part (map pair_of folder) files))
        (sorted_rows table.sort rows)) }
    ensures accepted { (table : Table) (rows : List Row) (part : List ℕ) (files : Files)
        → AreStorable table rows → free_target part files ≡ Ok tt
        → (let folder = written_folder table (sorted_rows table.sort rows) in within_limit folder ≡ Ok folder
        → (accepted : Accepted) × part_steps table part (gained_files part (map pair_of folder) files) (Ok accepted)
        × (accepted.rows ≡ sorted_rows table.sort rows)) }
    ensures no_other { (table : Table) (rows : List Row) (part : List ℕ) (files : Files) (accepted : Accepted)
        → AreStorable table rows → free_target part files ≡ Ok tt
        → (let folder = written_folder table (sorted_rows table.sort rows) in within_limit folder ≡ Ok folder
        → part_steps table part (gained_files part (map pair_of folder) files) (Ok accepted)
        → accepted.rows ≡ sorted_rows table.sort rows) }
    ensures no_refusal { (table : Table) (rows : List Row) (part : List ℕ) (files : Files) (status : Status)
        → AreStorable table rows → free_target part files ≡ Ok tt
        → (let folder = written_folder table (sorted_rows table.sort rows) in within_limit folder ≡ Ok folder
        → part_steps table part (gained_files part (map pair_of folder) files) (Err status) → ⊥) }
{
    published_parts_are_accepted();
}

/// What is published leaves each file as it was that isn't at or below the target, and every other part, where neither
/// path is at or below the other: its folder and its listing, and so what its steps make of it.
pub fn other_parts_stay()
    ensures file { (target path : List ℕ) (draft : Draft) (files : Files)
        → is_at_or_below target path ≡ false → get (gained_files target draft files) path ≡ get files path }
    ensures folder { (target other : List ℕ) (draft : Draft) (files : Files)
        → is_at_or_below target other ≡ false → is_at_or_below other target ≡ false
        → folder_at other (gained_files target draft files) ≡ folder_at other files }
    ensures listing { (target other : List ℕ) (draft : Draft) (files : Files)
        → is_at_or_below target other ≡ false → is_at_or_below other target ≡ false
        → entries_below other (gained_files target draft files) ≡ entries_below other files }
    ensures steps { (table : Table) (target other : List ℕ) (draft : Draft) (files : Files)
        (outcome : Result Accepted Status)
        → is_at_or_below target other ≡ false → is_at_or_below other target ≡ false
        → part_steps table other (gained_files target draft files) outcome ↔ part_steps table other files outcome }
{}

/// The steps of a part have one outcome: what it stands for in one cut into granules, or one refusal.
pub fn parts_have_one_outcome()
    ensures { (table : Table) (part : List ℕ) (files : Files) (one other : Result Accepted Status)
        → part_steps table part files one → part_steps table part files other → one ≡ other }
{}
