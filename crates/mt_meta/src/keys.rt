//! primary.idx, read as keys.

ghost use Rattle.std.specs.Prelude.{◌≡◌, ◌≤◌, ◌+◌, IfOk, IsTrue, List as Seq, length};
ghost use Rattle.mt_defs.specs.Rows.{Row as Values};
ghost use Rattle.mt_meta.specs.Keys.{AreKeys, is_scalar};
ghost use Rattle.mt_meta.specs.KeyReading.{AreKeysOf, GivesAll, GivesKeys, IsFirstItem, IsFirstKey, ReturnsKeys, key_types, types_of_key};

use mt_fault::{FileError, Why, file_fault, granule_fault};
use mt_item::{ItemError, read_item};
use mt_names::INDEX_FILE;
use mt_table::{Column, PartDef};
use mt_types::{List, NoMemory, Row, Ty, Value};
use std::alloc::Global;

/// The primary keys of a primary.idx: that of each granule's first row, and that of the last row. `Key`,
/// at its granule, is where no key stands; `Over` is where bytes follow the last one.
pub fn read_keys(
    alloc: Global,
    def: &PartDef,
    granules: u64,
    bytes: &[u8],
) -> Result<List<Row>, FileError>
    requires keys { AreKeys def.now.columns def.now.sort }
    requires primary { def.now.primary ≤ length def.now.sort }
    ensures gives { GivesKeys (key_types def.now) (granules + 1) bytes.now result }
    ensures only { (keys : Seq Values) → AreKeysOf (key_types def.now) (granules + 1) bytes.now keys
        → ReturnsKeys keys result }
{
    let columns = def.columns.as_slice();
    let (key, _) = def.sort.as_slice().split_at(def.primary as usize);
    let mut keys = List::new(alloc);
    let mut rest = bytes;
    'granules: loop {
        let Ok(read) = read_key(alloc, columns, key, rest) else {
            return Err(FileError::NoMemory);
        };
        let granule = keys.len() as u64;
        let Some((row, after)) = read else {
            return Err(granule_fault(alloc, INDEX_FILE, granule, Why::Key));
        };
        let Ok(()) = keys.push(row) else {
            return Err(FileError::NoMemory);
        };
        if granule == granules {
            return all_read(alloc, keys, after);
        }
        rest = after;
    }
}

/// The keys, if nothing follows them.
fn all_read(alloc: Global, keys: List<Row>, rest: &[u8]) -> Result<List<Row>, FileError>
    ensures { GivesAll keys rest.now result }
{
    if !rest.is_empty() {
        return Err(file_fault(alloc, INDEX_FILE, Why::Over));
    }
    Ok(keys)
}

/// The key that some bytes begin with, and what follows it.
fn read_key<'a>(
    alloc: Global,
    columns: &[Column],
    keys: &[u32],
    bytes: &'a [u8],
) -> Result<Option<(Row, &'a [u8])>, NoMemory>
    requires { AreKeys columns.now keys.now }
    ensures { IfOk result (λ read. IsFirstKey (types_of_key columns.now keys.now) bytes.now read) }
{
    let mut key = List::with_capacity(alloc, keys.len())?;
    let mut rest = bytes;
    for column_index in keys {
        let ty = &columns[*column_index as usize].ty;
        let Some((value, after)) = first_item(alloc, ty, rest)? else {
            return Ok(None);
        };
        key.push(value)?;
        rest = after;
    }
    Ok(Some((key, rest)))
}

/// The value whose item some bytes begin with, and what follows it.
fn first_item<'a>(
    alloc: Global,
    ty: &Ty,
    bytes: &'a [u8],
) -> Result<Option<(Value, &'a [u8])>, NoMemory>
    requires { IsTrue (is_scalar ty.now) }
    ensures { IfOk result (λ read. IsFirstItem ty.now bytes.now read) }
{
    match read_item(alloc, ty, bytes) {
        Ok((value, rest)) => Ok(Some((value, rest))),
        Err(ItemError::Bad(_)) => Ok(None),
        Err(ItemError::NoMemory) => Err(NoMemory),
    }
}
