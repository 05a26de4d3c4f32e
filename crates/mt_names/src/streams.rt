//! The names of the files of a column's substreams.

ghost use Rattle.std.specs.Prelude.{◌≡◌, ◌+◌, ◌≤◌, ◌++◌, codes, decimal, IfOk, IsTrue, OnOk};
ghost use Rattle.mt_types.specs.declared.limits.TheConstants.{MAX_ARRAY_DEPTH};
ghost use Rattle.mt_types.specs.Profile.{is_profile};
ghost use Rattle.mt_defs.specs.FileNames.{array_levels};
ghost use Rattle.mt_defs.specs.FileNames as names;
ghost use Rattle.mt_names.specs.Suffixes.{names_with, suffixes_from};

use crate::escape::{file_name, with_ending};
use itoa::Buffer;
use mt_table::Column;
use mt_types::{List, NoMemory, Ty};
use std::alloc::Global;

/// The names of the files of a column's substreams, in their order, without `.bin` and `.mrk2`
/// (docs/FORMAT.md, "Substreams"; ClickHouse: `ISerialization::getFileNameForStream`).
pub fn stream_names(alloc: Global, column: &Column) -> Result<List<List<u8>>, NoMemory>
    requires { IsTrue (is_profile column.now.ty) }
    ensures { IfOk result (λ found. found ≡ names.stream_names column.now) }
{
    let name = file_name(alloc, b"", column.name.as_slice(), b"")?;
    let mut found = List::new(alloc);
    append_names(alloc, name.as_slice(), &column.ty, 0, &mut found)?;
    Ok(found)
}

/// The data file of a column without substreams but its items, in a Wide part.
pub fn data_name(alloc: Global, column: &Column) -> Result<List<u8>, NoMemory>
    ensures { IfOk result (λ name. name ≡ names.data_name (names.file_name column.now.name)) }
{
    file_name(alloc, b"", column.name.as_slice(), b".bin")
}

/// Appends the names of the substreams of a type inside so many arrays.
fn append_names(
    alloc: Global,
    name: &[u8],
    ty: &Ty,
    level: u32,
    found: &mut List<List<u8>>,
) -> Result<(), NoMemory>
    requires profile { IsTrue (is_profile ty.now) }
    requires depth { level + array_levels ty.now ≤ MAX_ARRAY_DEPTH }
    ensures { OnOk result (found.new ≡ found.old ++ names_with name.now (suffixes_from ty.now level)) }
{
    match ty {
        Ty::Nullable(inner) => {
            found.push(with_ending(alloc, name, b".null")?)?;
            append_names(alloc, name, inner.get(), level, found)
        }
        Ty::Array(inner) => {
            found.push(sizes_name(alloc, name, level)?)?;
            append_names(alloc, name, inner.get(), level + 1, found)
        }
        _ => found.push(with_ending(alloc, name, b"")?),
    }
}

/// The name of a substream of sizes.
fn sizes_name(alloc: Global, name: &[u8], level: u32) -> Result<List<u8>, NoMemory>
    ensures { IfOk result (λ file. file ≡ name.now ++ (codes ".size" ++ decimal level)) }
{
    let mut file = with_ending(alloc, name, b".size")?;
    file.append(Buffer::new().format(level).as_bytes())?;
    Ok(file)
}
