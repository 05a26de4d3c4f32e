//! The names of the files that planning reads.

ghost use Rattle.std.specs.Prelude.{◌≡◌, ◌==◌, ◌++◌, ◌<◌, length, map, All, IfOk, IsTrue, OnOk};
ghost use Rattle.std.specs.List.{flat_map, list_all, list_any};
ghost use Rattle.mt_defs.specs.Partition.{expression_column, minmax_name};
ghost use Rattle.mt_meta.specs.PartitionKeys.{ArePartitionKeys};
ghost use Rattle.mt_table.specs.Kept.{is_place};
ghost use Rattle.mt_types.specs.Profile.{is_profile};
ghost use Rattle.mt_files.specs.OwnNames.{last_use, partition_columns};
ghost use Rattle.mt_plan_files.specs.Planned as defined;

use crate::condition::names_column;
use mt_files::push_name;
use mt_names::{
    COUNT_FILE, INDEX_FILE, MARKS_FILE, minmax_name, skip_data_name, skip_marks_name, stream_names,
    with_ending,
};
use mt_query::{Cond, Query};
use mt_table::{Column, PartExpr, Skip, Table};
use mt_types::{List, NoMemory};
use std::alloc::Global;

/// The files that are read after columns.txt, which lists these columns; `compact` is the part's layout.
pub(crate) fn planned_names(
    alloc: Global,
    table: &Table,
    query: &Query,
    order: &[u32],
    compact: bool,
) -> Result<Vec<List<u8>>, NoMemory>
    requires { IsTrue (list_all (is_place table.now.columns) order.now) }
    ensures { IfOk result (λ names. names.items ≡ defined.planned_names table.now query.now order.now compact) }
{
    let mut names = Vec::new(alloc);
    push_name(alloc, COUNT_FILE, &mut names)?;
    push_name(alloc, INDEX_FILE, &mut names)?;
    names.push(granules_name(alloc, table.columns.as_slice(), order, compact)?)?;
    if let Some(cond) = &query.cond {
        push_bounds(alloc, table, &mut names)?;
        push_asked(alloc, table, cond, compact, &mut names)?;
    }
    Ok(names)
}

/// The marks file that tells the granules of a part that lists these columns: that of all columns in a
/// Compact part, or that of the first substream.
pub fn granules_name(
    alloc: Global,
    columns: &[Column],
    order: &[u32],
    compact: bool,
) -> Result<List<u8>, NoMemory>
    requires profile { All (λ column. IsTrue (is_profile column.ty)) columns.now }
    requires places { IsTrue (list_all (is_place columns.now) order.now) }
    ensures { IfOk result (λ name. name ≡ defined.granules_name columns.now order.now compact) }
{
    if compact {
        return List::of_bytes(alloc, MARKS_FILE);
    }
    let stream = first_stream(alloc, columns, order)?;
    with_ending(alloc, stream.as_slice(), b".mrk2")
}

/// The first substream of the first of the columns that are listed.
fn first_stream(alloc: Global, columns: &[Column], order: &[u32]) -> Result<List<u8>, NoMemory>
    requires profile { All (λ column. IsTrue (is_profile column.ty)) columns.now }
    requires places { IsTrue (list_all (is_place columns.now) order.now) }
    ensures { IfOk result (λ name. name ≡ defined.first_stream columns.now order.now) }
{
    let Some(place) = order.first() else {
        return Ok(List::new(alloc));
    };
    let streams = stream_names(alloc, &columns[*place as usize])?;
    match streams.as_slice().first() {
        Some(stream) => with_ending(alloc, stream.as_slice(), b""),
        None => Ok(List::new(alloc)),
    }
}

/// Appends the files of the bounds of the partition key's columns.
fn push_bounds(alloc: Global, table: &Table, names: &mut Vec<List<u8>>) -> Result<(), NoMemory>
    requires { ArePartitionKeys table.now.columns table.now.partition }
    ensures { OnOk result (names.new.items ≡ names.old.items
        ++ map (minmax_name table.now) (partition_columns table.now)) }
{
    for (index, expression) in table.partition.as_slice().iter().enumerate() {
        let (_, later) = table.partition.as_slice().split_at(index + 1);
        push_last_use(alloc, table, column_of(*expression), later, names)?;
    }
    Ok(())
}

/// Appends the file of a column, unless a later expression is over the column too.
fn push_last_use(
    alloc: Global,
    table: &Table,
    place: u32,
    later: &[PartExpr],
    names: &mut Vec<List<u8>>,
) -> Result<(), NoMemory>
    requires { place < length table.now.columns }
    ensures { OnOk result (names.new.items ≡ names.old.items
        ++ last_use table.now place (map expression_column later.now)) }
{
    if is_used(later, place) {
        return Ok(());
    }
    names.push(minmax_name(alloc, table, place)?)?;
    Ok(())
}

/// Whether an expression is over the column of this place.
fn is_used(partition: &[PartExpr], place: u32) -> bool
    ensures { result ≡ list_any (λ i. i == place) (map expression_column partition.now) }
{
    for expression in partition {
        if column_of(*expression) == place {
            return true;
        }
    }
    false
}

/// The column that an expression is over, by its place.
fn column_of(expression: PartExpr) -> u32
    ensures { result ≡ expression_column expression }
{
    match expression {
        PartExpr::Plain(place) | PartExpr::Month(place) => place,
    }
}

/// Appends the files of the indexes over columns that a condition names.
fn push_asked(
    alloc: Global,
    table: &Table,
    cond: &Cond,
    compact: bool,
    names: &mut Vec<List<u8>>,
) -> Result<(), NoMemory>
    ensures { OnOk result (names.new.items ≡ names.old.items
        ++ flat_map (defined.asked_names compact cond.now) table.now.skips) }
{
    for skip in table.skips.as_slice() {
        push_index(alloc, skip, cond, compact, names)?;
    }
    Ok(())
}

/// Appends the files of an index, if a condition names its column.
fn push_index(
    alloc: Global,
    skip: &Skip,
    cond: &Cond,
    compact: bool,
    names: &mut Vec<List<u8>>,
) -> Result<(), NoMemory>
    ensures { OnOk result (names.new.items ≡ names.old.items ++ defined.asked_names compact cond.now skip.now) }
{
    if !names_column(cond, skip.column) {
        return Ok(());
    }
    names.push(skip_data_name(alloc, skip)?)?;
    names.push(skip_marks_name(alloc, skip, compact)?)?;
    Ok(())
}
