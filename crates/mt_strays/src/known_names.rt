//! The names that may stand below a part.

ghost use Rattle.std.specs.Prelude.{◌≡◌, ◌<◌, ◌++◌, length, map, All, IfOk, IsTrue, OnOk};
ghost use Rattle.std.specs.List.{flat_map, list_all};
ghost use Rattle.mt_defs.specs.Part as defined;
ghost use Rattle.mt_defs.specs.Part.{partition_names};
ghost use Rattle.mt_defs.specs.Partition.{expression_column, minmax_name};
ghost use Rattle.mt_shelf.specs.Files.{IsListing};
ghost use Rattle.mt_types.specs.Profile.{is_profile};
ghost use Rattle.mt_table.specs.Kept.{is_place};
ghost use Rattle.mt_table.specs.Stored.{column_at, projection_at};
ghost use Rattle.mt_meta.specs.PartitionKeys.{ArePartitionKeys};
ghost use Rattle.mt_files.specs.Listings.{listed_folder};
ghost use Rattle.mt_files.specs.OwnNames as own;

use mt_files::{is_compact_below, listed_columns, own_names, push_name, push_skip_names};
use mt_names::{PARTITION_FILE, minmax_name, prefix_at, with_ending};
use mt_shelf::Entry;
use mt_table::{Column, PartExpr, Table};
use mt_types::{List, NoMemory};
use std::alloc::Global;

/// Files that ClickHouse may put beside a part's own, which are passed over.
const SIDE_FILES: [&str; 8] = [
    "checksums.txt",
    "default_compression_codec.txt",
    "metadata_version.txt",
    "serialization.json",
    "uuid.txt",
    "ttl.txt",
    "txn_version.txt",
    "columns_substreams.txt",
];

/// The names that may stand below a part that is listed so and has these columns, by their places.
pub(crate) fn known_names(
    alloc: Global,
    table: &Table,
    order: &[u32],
    listing: &[Entry],
) -> Result<Vec<List<u8>>, NoMemory>
    requires form { IsListing listing.now }
    requires there { IsTrue (list_all (is_place table.now.columns) order.now) }
    ensures { IfOk result (λ names. names.items ≡ defined.known_names table.now order.now (listed_folder listing.now)) }
{
    let compact = is_compact_below(alloc, listing, b"")?;
    let mut names = part_names(alloc, table, order, compact)?;
    push_partition_names(alloc, table, &mut names)?;
    push_skip_names(alloc, table, compact, &mut names)?;
    push_projections(alloc, table, listing, &mut names)?;
    Ok(names)
}

/// The names of the part's own files, side files among them.
fn part_names(
    alloc: Global,
    table: &Table,
    order: &[u32],
    compact: bool,
) -> Result<Vec<List<u8>>, NoMemory>
    requires { IsTrue (list_all (is_place table.now.columns) order.now) }
    ensures { IfOk result (λ names. names.items
        ≡ own.own_names (map (column_at table.now.columns) order.now) compact ++ defined.side_names) }
{
    let columns = listed_columns(alloc, table.columns.as_slice(), order)?;
    folder_names(alloc, columns.as_slice(), compact)
}

/// The names that may stand in a folder with these columns, side files among them.
fn folder_names(alloc: Global, columns: &[Column], compact: bool) -> Result<Vec<List<u8>>, NoMemory>
    requires { All (λ column. IsTrue (is_profile column.ty)) columns.now }
    ensures { IfOk result (λ names. names.items ≡ own.own_names columns.now compact ++ defined.side_names) }
{
    let mut names = own_names(alloc, columns, compact)?;
    push_side_names(alloc, &mut names)?;
    Ok(names)
}

/// Appends the names of side files.
fn push_side_names(alloc: Global, names: &mut Vec<List<u8>>) -> Result<(), NoMemory>
    ensures { OnOk result (names.new.items ≡ names.old.items ++ defined.side_names) }
{
    for name in SIDE_FILES {
        names.push(List::of_bytes(alloc, name.as_bytes())?)?;
    }
    Ok(())
}

/// Appends the names of the partition's files.
fn push_partition_names(
    alloc: Global,
    table: &Table,
    names: &mut Vec<List<u8>>,
) -> Result<(), NoMemory>
    requires { ArePartitionKeys table.now.columns table.now.partition }
    ensures { OnOk result (names.new.items ≡ names.old.items ++ partition_names table.now) }
{
    if table.partition.is_empty() {
        return Ok(());
    }
    push_name(alloc, PARTITION_FILE, names)?;
    push_minmax_names(alloc, table, names)
}

/// Appends the names of the files of the partition key's columns.
fn push_minmax_names(
    alloc: Global,
    table: &Table,
    names: &mut Vec<List<u8>>,
) -> Result<(), NoMemory>
    requires { ArePartitionKeys table.now.columns table.now.partition }
    ensures { OnOk result (names.new.items ≡ names.old.items
        ++ map (λ expression. minmax_name table.now (expression_column expression)) table.now.partition) }
{
    for expression in table.partition.as_slice() {
        let (PartExpr::Plain(place) | PartExpr::Month(place)) = *expression;
        names.push(minmax_name(alloc, table, place)?)?;
    }
    Ok(())
}

/// Appends the names of each projection.
fn push_projections(
    alloc: Global,
    table: &Table,
    listing: &[Entry],
    names: &mut Vec<List<u8>>,
) -> Result<(), NoMemory>
    requires { IsListing listing.now }
    ensures { OnOk result (names.new.items ≡ names.old.items
        ++ flat_map (defined.projection_names table.now (listed_folder listing.now)) table.now.projections) }
{
    for place in 0..table.projections.len() {
        push_projection(alloc, table, place, listing, names)?;
    }
    Ok(())
}

/// Appends the names of a projection.
fn push_projection(
    alloc: Global,
    table: &Table,
    place: usize,
    listing: &[Entry],
    names: &mut Vec<List<u8>>,
) -> Result<(), NoMemory>
    requires there { place < length table.now.projections }
    requires form { IsListing listing.now }
    ensures { OnOk result (names.new.items ≡ names.old.items
        ++ defined.projection_names table.now (listed_folder listing.now) (projection_at table.now place)) }
{
    let prefix = prefix_at(alloc, table, place)?;
    let compact = is_compact_below(alloc, listing, prefix.as_slice())?;
    let definition = table.inner(alloc, place)?;
    let own = folder_names(alloc, definition.columns.as_slice(), compact)?;
    push_below(alloc, prefix.as_slice(), own.as_slice(), names)
}

/// Appends names below a prefix.
fn push_below(
    alloc: Global,
    prefix: &[u8],
    own: &[List<u8>],
    names: &mut Vec<List<u8>>,
) -> Result<(), NoMemory>
    ensures { OnOk result (names.new.items ≡ names.old.items ++ map (λ name. prefix.now ++ name) own.now) }
{
    for name in own {
        names.push(with_ending(alloc, prefix, name.as_slice())?)?;
    }
    Ok(())
}
