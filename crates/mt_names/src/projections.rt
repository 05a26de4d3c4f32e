//! The folders of projections below a part (docs/FORMAT.md, "Projections").

ghost use Rattle.std.specs.Prelude.{◌≡◌, ◌++◌, ◌<◌, length, IfOk};
ghost use Rattle.mt_defs.specs.Projections.{projection_prefix};
ghost use Rattle.mt_table.specs.Stored.{projection_at};
ghost use Rattle.mt_names.specs.ProjectionFolders.{projection_folder};

use mt_table::{Projection, Table};
use mt_types::{List, NoMemory};
use std::alloc::Global;

/// The name of a projection's folder, and an ending.
pub fn folder_name(
    alloc: Global,
    projection: &Projection,
    ending: &[u8],
) -> Result<List<u8>, NoMemory>
    ensures { IfOk result (λ name. name ≡ projection_folder projection.now ++ ending.now) }
{
    let name = match projection {
        Projection::Normal { name, .. } | Projection::Grouped { name, .. } => name,
    };
    let mut folder = List::of_bytes(alloc, name.as_slice())?;
    folder.append(b".proj")?;
    folder.append(ending)?;
    Ok(folder)
}

/// What the names in a projection's folder begin with.
pub fn prefix_of(alloc: Global, projection: &Projection) -> Result<List<u8>, NoMemory>
    ensures { IfOk result (λ prefix. prefix ≡ projection_prefix projection.now) }
{
    folder_name(alloc, projection, b"/")
}

/// What the names in a projection's folder begin with, by the projection's place.
pub fn prefix_at(alloc: Global, table: &Table, place: usize) -> Result<List<u8>, NoMemory>
    requires { place < length table.now.projections }
    ensures { IfOk result (λ prefix. prefix ≡ projection_prefix (projection_at table.now place)) }
{
    prefix_of(alloc, &table.projections.as_slice()[place])
}
