//! Folders that stand for no rows: the worked example with one thing wrong.

ghost use Rattle.std.specs.Prelude.{ℕ, List};
ghost use Rattle.mt_defs.specs.Folder.{folder_of};
ghost use Rattle.mt_defs.specs.Part.{StandsFor};
ghost use Rattle.mt_defs.specs.Rows.{Row};
ghost use Rattle.mt_defs.specs.WorkedExample.{table};
ghost use Rattle.mt_worked.specs.WrongFolders.{with_stray_file, with_short_index};
ghost use Rattle.mt_worked.specs.WrongFolders.{with_sizes_that_disagree, with_rows_out_of_order};
ghost use Rattle.mt_worked.specs.WrongFolders.{with_mark_off_by_one};

/// A folder with a file that isn't a part's stands for no rows.
pub fn stray_file_stands_for_no_rows()
    ensures { (bytes : List ℕ) (rows : List Row)
        → StandsFor table (folder_of (with_stray_file bytes)) rows → ⊥ }
{}

/// A folder whose primary index lacks the last row's key stands for no rows.
pub fn short_index_stands_for_no_rows()
    ensures { (rows : List Row) → StandsFor table (folder_of with_short_index) rows → ⊥ }
{}

/// A folder with a frame whose two sizes disagree stands for no rows.
pub fn sizes_that_disagree_stand_for_no_rows()
    ensures { (rows : List Row) → StandsFor table (folder_of with_sizes_that_disagree) rows → ⊥ }
{}

/// A folder whose second row is below the first stands for no rows.
pub fn rows_out_of_order_stand_for_no_rows()
    ensures { (rows : List Row) → StandsFor table (folder_of with_rows_out_of_order) rows → ⊥ }
{}

/// A folder with a mark one byte too far stands for no rows.
pub fn mark_off_by_one_stands_for_no_rows()
    ensures { (rows : List Row) → StandsFor table (folder_of with_mark_off_by_one) rows → ⊥ }
{}
