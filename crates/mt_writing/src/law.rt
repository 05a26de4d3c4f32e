//! What `write` publishes stands for the rows of its input.

ghost use Rattle.std.specs.Prelude.{◌≡◌, ◌≢◌, ℕ, List, [], true, Ok};
ghost use Rattle.std.specs.List.{list_all};
ghost use Rattle.mt_types.specs.Bytes.{is_byte};
ghost use Rattle.mt_fault.specs.declared.file.FileBytes.{FileBytes};
ghost use Rattle.mt_table.specs.declared.definition.Table.{Table};
ghost use Rattle.mt_defs.specs.Folder as folders;
ghost use Rattle.mt_defs.specs.Part.{StandsFor};
ghost use Rattle.mt_defs.specs.Rows.{Row};
ghost use Rattle.mt_defs.specs.Sorting.{sorted_rows};
ghost use Rattle.mt_writing.specs.Write.{folder_of_text, rows_of_text};

/// A folder that `write` makes of an input of bytes stands for the rows of the input, in key order.
pub fn published_folders_stand()
    ensures { (table : Table) (text : List ℕ) (rows : List Row) (files : List FileBytes)
        → text ≢ [] → list_all is_byte text ≡ true → rows_of_text table text ≡ Ok rows
        → folder_of_text table text ≡ Ok files
        → StandsFor table (folders.folder_of files) (sorted_rows table.sort rows) }
{}
