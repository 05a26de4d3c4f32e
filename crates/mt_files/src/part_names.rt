//! The names of a part's own files that are read, each once.

ghost use Rattle.std.specs.Prelude.{◌≡◌, ◌==◌, ◌++◌, ◌<◌, length, map, IfOk, OnOk};
ghost use Rattle.std.specs.List.{list_any};
ghost use Rattle.mt_defs.specs.Partition.{expression_column, minmax_name};
ghost use Rattle.mt_meta.specs.PartitionKeys.{ArePartitionKeys};
ghost use Rattle.mt_files.specs.OwnNames as defined;

use crate::definition_names::{own_names, push_name, push_skip_names};
use mt_names::{PARTITION_FILE, minmax_name};
use mt_table::{PartExpr, Table};
use mt_types::{List, NoMemory};
use std::alloc::Global;

/// The files of a part that are read where they are there, but for those of projections; `compact` is its
/// layout.
pub fn base_names(alloc: Global, table: &Table, compact: bool) -> Result<Vec<List<u8>>, NoMemory>
    ensures { IfOk result (λ names. names.items ≡ defined.base_names table.now compact) }
{
    let mut names = own_names(alloc, table.columns.as_slice(), compact)?;
    push_partition(alloc, table, &mut names)?;
    push_skip_names(alloc, table, compact, &mut names)?;
    Ok(names)
}

/// Appends the names of the partition's files.
fn push_partition(alloc: Global, table: &Table, names: &mut Vec<List<u8>>) -> Result<(), NoMemory>
    requires { ArePartitionKeys table.now.columns table.now.partition }
    ensures { OnOk result (names.new.items ≡ names.old.items ++ defined.partition_file_names table.now) }
{
    if table.partition.is_empty() {
        return Ok(());
    }
    push_name(alloc, PARTITION_FILE, names)?;
    push_minmax(alloc, table, names)
}

/// Appends the names of the files of the partition key's columns.
fn push_minmax(alloc: Global, table: &Table, names: &mut Vec<List<u8>>) -> Result<(), NoMemory>
    requires { ArePartitionKeys table.now.columns table.now.partition }
    ensures { OnOk result (names.new.items ≡ names.old.items
        ++ map (minmax_name table.now) (defined.partition_columns table.now)) }
{
    for (index, expression) in table.partition.as_slice().iter().enumerate() {
        let (_, later) = table.partition.as_slice().split_at(index + 1);
        push_last_use(alloc, table, column_of(*expression), later, names)?;
    }
    Ok(())
}

/// Appends the name of the file of a column, unless a later expression is over the column too.
fn push_last_use(
    alloc: Global,
    table: &Table,
    place: u32,
    later: &[PartExpr],
    names: &mut Vec<List<u8>>,
) -> Result<(), NoMemory>
    requires { place < length table.now.columns }
    ensures { OnOk result (names.new.items ≡ names.old.items
        ++ defined.last_use table.now place (map expression_column later.now)) }
{
    if is_used(later, place) {
        return Ok(());
    }
    names.push(minmax_name(alloc, table, place)?)?;
    Ok(())
}

/// Whether an expression is over the column of this place.
fn is_used(partition: &[PartExpr], place: u32) -> bool
    ensures { result ≡ list_any (λ i. i == place) (map expression_column partition.now) }
{
    for expression in partition {
        if column_of(*expression) == place {
            return true;
        }
    }
    false
}

/// The column that an expression is over, by its place.
fn column_of(expression: PartExpr) -> u32
    ensures { result ≡ expression_column expression }
{
    match expression {
        PartExpr::Plain(place) | PartExpr::Month(place) => place,
    }
}
