//! The names of a folder's own files.

ghost use Rattle.std.specs.Prelude.{◌≡◌, ◌++◌, ◌∷◌, [], All, IfOk, IsTrue, OnOk};
ghost use Rattle.std.specs.List.{flat_map};
ghost use Rattle.mt_defs.specs.Part.{wide_names};
ghost use Rattle.mt_types.specs.Profile.{is_profile};
ghost use Rattle.mt_files.specs.OwnNames as defined;

use mt_names::{
    COLUMNS_FILE, COUNT_FILE, DATA_FILE, INDEX_FILE, MARKS_FILE, skip_data_name, skip_marks_name,
    stream_names, with_ending,
};
use mt_table::{Column, Table};
use mt_types::{List, NoMemory};
use std::alloc::Global;

/// The files of a folder with these columns, but for side files; `compact` is its layout.
pub fn own_names(
    alloc: Global,
    columns: &[Column],
    compact: bool,
) -> Result<Vec<List<u8>>, NoMemory>
    requires { All (λ column. IsTrue (is_profile column.ty)) columns.now }
    ensures { IfOk result (λ names. names.items ≡ defined.own_names columns.now compact) }
{
    let mut names = Vec::new(alloc);
    push_name(alloc, COLUMNS_FILE, &mut names)?;
    push_name(alloc, COUNT_FILE, &mut names)?;
    push_name(alloc, INDEX_FILE, &mut names)?;
    if compact {
        push_name(alloc, DATA_FILE, &mut names)?;
        push_name(alloc, MARKS_FILE, &mut names)?;
        return Ok(names);
    }
    push_wide_names(alloc, columns, &mut names)?;
    Ok(names)
}

/// Appends a name.
pub fn push_name(alloc: Global, name: &[u8], names: &mut Vec<List<u8>>) -> Result<(), NoMemory>
    ensures { OnOk result (names.new.items ≡ names.old.items ++ name.now ∷ []) }
{
    names.push(List::of_bytes(alloc, name)?)?;
    Ok(())
}

/// Appends the names of the data and marks files of a Wide part.
fn push_wide_names(
    alloc: Global,
    columns: &[Column],
    names: &mut Vec<List<u8>>,
) -> Result<(), NoMemory>
    requires { All (λ column. IsTrue (is_profile column.ty)) columns.now }
    ensures { OnOk result (names.new.items ≡ names.old.items ++ flat_map wide_names columns.now) }
{
    for column in columns {
        push_column_names(alloc, column, names)?;
    }
    Ok(())
}

/// Appends the names of the data and marks files of a column.
fn push_column_names(
    alloc: Global,
    column: &Column,
    names: &mut Vec<List<u8>>,
) -> Result<(), NoMemory>
    requires { IsTrue (is_profile column.now.ty) }
    ensures { OnOk result (names.new.items ≡ names.old.items ++ wide_names column.now) }
{
    let streams = stream_names(alloc, column)?;
    for stream in streams.as_slice() {
        names.push(with_ending(alloc, stream.as_slice(), b".bin")?)?;
        names.push(with_ending(alloc, stream.as_slice(), b".mrk2")?)?;
    }
    Ok(())
}

/// Appends the names of the files of the skip indexes, in a layout.
pub fn push_skip_names(
    alloc: Global,
    table: &Table,
    compact: bool,
    names: &mut Vec<List<u8>>,
) -> Result<(), NoMemory>
    ensures { OnOk result (names.new.items ≡ names.old.items
        ++ flat_map (defined.skip_names_in compact) table.now.skips) }
{
    for skip in table.skips.as_slice() {
        names.push(skip_data_name(alloc, skip)?)?;
        names.push(skip_marks_name(alloc, skip, compact)?)?;
    }
    Ok(())
}
