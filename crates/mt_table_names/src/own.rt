//! TwoNames: no two columns share a name, no two indexes and no two projections.

ghost use Rattle.std.specs.Prelude.{◌≡◌, ◌++◌, IfOk, MatchOption, false, true};
ghost use Rattle.mt_table.specs.Names as defined;
ghost use Rattle.mt_table_names.specs.NameSets.{AreListed, listed};
ghost use Rattle.mt_table_names.specs.OwnNames.{are_own};

use crate::names::{Names, differ, distinct};
use crate::sentence::ElementNames;
use mt_types::{List, NoMemory};
use std::alloc::Global;

/// What the files of an index are named after.
fn skip_stem(alloc: Global, name: &[u8]) -> Result<List<u8>, NoMemory>
    ensures { IfOk result (λ stem. stem ≡ defined.skip_stem name.now) }
{
    let mut stem = List::of_bytes(alloc, b"skp_idx_")?;
    stem.append(name)?;
    Ok(stem)
}

/// Whether no column is named as the files of an index.
fn are_apart(alloc: Global, columns: &Names, indexes: &[List<u8>]) -> Result<bool, NoMemory>
    ensures { IfOk result (λ they_are. they_are ≡ defined.are_apart (listed columns.now) indexes.now) }
{
    for name in indexes {
        let stem = skip_stem(alloc, name.as_slice())?;
        if columns.contains(stem.as_slice()) {
            return Ok(false);
        }
    }
    Ok(true)
}

/// The names of the columns, if all names are as they should be.
pub fn own_names<'a>(alloc: Global, names: &'a ElementNames) -> Result<Option<Names<'a>>, NoMemory>
    ensures { IfOk result (λ found. MatchOption found
        (are_own names.now.columns names.now.indexes names.now.projections ≡ false)
        (λ columns. (are_own names.now.columns names.now.indexes names.now.projections ≡ true)
        × AreListed columns names.now.columns)) }
{
    let Some(columns) = distinct(alloc, names.columns.as_slice())? else {
        return Ok(None);
    };
    if !differ(alloc, names.indexes.as_slice())? {
        return Ok(None);
    }
    if !differ(alloc, names.projections.as_slice())? {
        return Ok(None);
    }
    if !are_apart(alloc, &columns, names.indexes.as_slice())? {
        return Ok(None);
    }
    Ok(Some(columns))
}
