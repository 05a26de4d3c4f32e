//! What a part's files tell besides its rows.

ghost use Rattle.std.specs.Prelude.{◌≡◌, ◌<◌, length, map, option_map, All, IfOk};
ghost use Rattle.mt_table.specs.Stored.{projection_at};
ghost use Rattle.mt_defs.specs.Folder.{folder_of};
ghost use Rattle.mt_defs.specs.Projections.{inner_of};
ghost use Rattle.mt_definition.specs.DefinitionReading.{definition_reading};
ghost use Rattle.mt_show.specs.Shape.{order_in, shape_in, size_of_projection, size_or_none, sizes_in, skips_in};

use mt_check::PartFiles;
use mt_definition::read_definition;
use mt_fault::{FileBytes, FileError};
use mt_files::{has_files, is_compact, read_order};
use mt_table::Table;
use mt_types::{List, NoMemory};
use std::alloc::Global;

/// The layout of an accepted part, and which columns, skip indexes and projections of its table it has.
#[derive(Drop)]
pub struct Shape {
    /// Whether it is Compact, else Wide.
    pub compact: bool,
    /// The columns that it has, in the order of its files, by their places in the table.
    pub order: List<u32>,
    /// Whether each skip index is there, in the table's order.
    pub skips: List<bool>,
    /// How much each projection stores that is there, in the table's order.
    pub projections: List<Option<Size>>,
}

/// How much a projection stores.
#[derive(Clone, Copy)]
pub struct Size {
    /// Its rows.
    pub rows: u64,
    /// Its granules.
    pub granules: u64,
}

/// The shape of a part by its files.
pub fn shape_of(alloc: Global, table: &Table, files: &PartFiles) -> Result<Shape, NoMemory>
    requires { length files.now.projections ≡ length table.now.projections }
    ensures same { IfOk result (λ shape. shape ≡ shape_in table.now (folder_of files.now.base) (map (option_map folder_of) files.now.projections)) }
    ensures order { IfOk result (λ shape. All (λ place. place < length table.now.columns) shape.order) }
    ensures skips { IfOk result (λ shape. length shape.skips ≡ length table.now.skips) }
    ensures sizes { IfOk result (λ shape. length shape.projections ≡ length table.now.projections) }
{
    let base = files.base.as_slice();
    Ok(Shape {
        compact: is_compact(base),
        order: column_order(alloc, table, base)?,
        skips: skips_there(alloc, table, base)?,
        projections: projection_sizes(alloc, table, files.projections.as_slice())?,
    })
}

/// The columns in the order of the part's files.
fn column_order(alloc: Global, table: &Table, files: &[FileBytes]) -> Result<List<u32>, NoMemory>
    ensures same { IfOk result (λ order. order ≡ order_in table.now (folder_of files.now)) }
    ensures known { IfOk result (λ order. All (λ place. place < length table.now.columns) order) }
{
    let definition = table.base(alloc)?;
    match read_order(alloc, &definition, files) {
        Ok(order) => Ok(order),
        Err(FileError::NoMemory) => Err(NoMemory),
        Err(_) => Ok(List::new(alloc)),
    }
}

/// Whether each skip index is there, by the part's files.
fn skips_there(alloc: Global, table: &Table, files: &[FileBytes]) -> Result<List<bool>, NoMemory>
    ensures same { IfOk result (λ there. there ≡ skips_in table.now (folder_of files.now)) }
    ensures long { IfOk result (λ there. length there ≡ length table.now.skips) }
{
    let compact = is_compact(files);
    let mut there = List::with_capacity(alloc, table.skips.len())?;
    for skip in table.skips.as_slice() {
        there.push(has_files(alloc, files, compact, skip)?)?;
    }
    Ok(there)
}

/// How much each projection stores that is there, by its files.
fn projection_sizes(
    alloc: Global,
    table: &Table,
    folders: &[Option<List<FileBytes>>],
) -> Result<List<Option<Size>>, NoMemory>
    requires { length folders.now ≡ length table.now.projections }
    ensures same { IfOk result (λ sizes. sizes ≡ sizes_in table.now table.now.projections (map (option_map folder_of) folders.now)) }
    ensures long { IfOk result (λ sizes. length sizes ≡ length table.now.projections) }
{
    let mut sizes = List::with_capacity(alloc, folders.len())?;
    for (place, files) in folders.iter().enumerate() {
        sizes.push(projection_size(alloc, table, place, files)?)?;
    }
    Ok(sizes)
}

/// How much a projection stores, by its files, if it is there.
fn projection_size(
    alloc: Global,
    table: &Table,
    place: usize,
    files: &Option<List<FileBytes>>,
) -> Result<Option<Size>, NoMemory>
    requires { place < length table.now.projections }
    ensures { IfOk result (λ size. size ≡ size_of_projection table.now (projection_at table.now place) (option_map folder_of files.now)) }
{
    match files {
        Some(files) => Ok(Some(stored_size(alloc, table, place, files.as_slice())?)),
        None => Ok(None),
    }
}

/// How much a projection stores, by its files.
fn stored_size(
    alloc: Global,
    table: &Table,
    place: usize,
    files: &[FileBytes],
) -> Result<Size, NoMemory>
    requires { place < length table.now.projections }
    ensures { IfOk result (λ size. size ≡ size_or_none
        (definition_reading (inner_of table.now (projection_at table.now place)) (folder_of files.now))) }
{
    let definition = table.inner(alloc, place)?;
    match read_definition(alloc, &definition, files) {
        Ok(stored) => Ok(Size {
            rows: stored.rows.len() as u64,
            granules: stored.granules.len() as u64,
        }),
        Err(FileError::NoMemory) => Err(NoMemory),
        Err(_) => Ok(Size {
            rows: 0,
            granules: 0,
        }),
    }
}
