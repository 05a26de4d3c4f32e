//! The files of one definition: of a table's own part, or of a projection.

ghost use Rattle.std.specs.Prelude.{◌≡◌, [], ◌∷◌, ◌++◌, All, IfOk, OnOk, if◌then◌else◌};
ghost use Rattle.mt_defs.specs.Granules.{AreGranules};
ghost use Rattle.mt_defs.specs.Rows.{RowFits};
ghost use Rattle.mt_defs.specs.WrittenColumns.{compact_files, file, wide_files};
ghost use Rattle.mt_defs.specs.Writer as defined;
ghost use Rattle.mt_meta.specs.Definitions.{AreColumns, IsDefinition};
ghost use Rattle.mt_build.specs.Definitions.{text_files};

use mt_compact::write_compact;
use mt_fault::FileBytes;
use mt_layout::{Layout, layout_of};
use mt_meta::{columns_text, count_text, primary_bytes};
use mt_names::{COLUMNS_FILE, COUNT_FILE, INDEX_FILE};
use mt_table::{Column, PartDef, Settings};
use mt_types::{List, NoMemory, Row};
use mt_wide::write_wide;
use std::alloc::Global;

/// The files of a definition that aren't its columns': columns.txt, count.txt and primary.idx.
const TEXT_FILES: usize = 3;

/// The files of a definition's rows, in the writer's granules and layout (docs/FORMAT.md, "The writer's
/// folder").
pub(crate) fn definition_files(
    alloc: Global,
    settings: &Settings,
    definition: &PartDef,
    rows: &[Row],
) -> Result<Vec<FileBytes>, NoMemory>
    requires definition { IsDefinition definition.now }
    requires fit { All (RowFits definition.now.columns) rows.now }
    ensures { IfOk result (λ files.
        files.items ≡ defined.definition_files settings.now definition.now rows.now) }
{
    let layout = layout_of(alloc, settings, definition.columns.as_slice(), rows)?;
    files_with(alloc, definition, rows, &layout)
}

/// The files of a definition's rows, laid out like this.
fn files_with(
    alloc: Global,
    definition: &PartDef,
    rows: &[Row],
    layout: &Layout,
) -> Result<Vec<FileBytes>, NoMemory>
    requires definition { IsDefinition definition.now }
    requires fit { All (RowFits definition.now.columns) rows.now }
    requires cut { AreGranules layout.now.granules rows.now }
    ensures { IfOk result (λ files. files.items ≡
        defined.files_with definition.now rows.now layout.now.granules layout.now.compact) }
{
    let granules = layout.granules.as_slice();
    let mut files = text_files(alloc, definition, rows, granules)?;
    let columns = definition.columns.as_slice();
    let mut data = column_files(alloc, columns, rows, granules, layout.compact)?.into_vec();
    files.append(&mut data)?;
    Ok(files)
}

/// columns.txt, count.txt and primary.idx.
pub(crate) fn text_files(
    alloc: Global,
    definition: &PartDef,
    rows: &[Row],
    granules: &[u64],
) -> Result<Vec<FileBytes>, NoMemory>
    requires definition { IsDefinition definition.now }
    requires fit { All (RowFits definition.now.columns) rows.now }
    requires cut { AreGranules granules.now rows.now }
    ensures { IfOk result (λ files. files.items ≡ text_files definition.now rows.now granules.now) }
{
    let mut files = Vec::with_capacity(alloc, TEXT_FILES)?;
    let columns = columns_text(alloc, definition.columns.as_slice())?;
    append_file(alloc, COLUMNS_FILE, columns, &mut files)?;
    let count = count_text(alloc, rows.len())?;
    append_file(alloc, COUNT_FILE, count, &mut files)?;
    let index = primary_bytes(alloc, definition, rows, granules)?;
    append_file(alloc, INDEX_FILE, index, &mut files)?;
    Ok(files)
}

/// Appends a file of this name.
fn append_file(
    alloc: Global,
    name: &[u8],
    bytes: List<u8>,
    files: &mut Vec<FileBytes>,
) -> Result<(), NoMemory>
    ensures { OnOk result (files.new.items ≡ files.old.items ++ file name.now bytes ∷ []) }
{
    let name = List::of_bytes(alloc, name)?;
    files.push(FileBytes { name, bytes })?;
    Ok(())
}

/// The data and marks files of all columns, Compact or Wide.
fn column_files(
    alloc: Global,
    columns: &[Column],
    rows: &[Row],
    granules: &[u64],
    compact: bool,
) -> Result<List<FileBytes>, NoMemory>
    requires columns { AreColumns columns.now }
    requires fit { All (RowFits columns.now) rows.now }
    requires cut { AreGranules granules.now rows.now }
    ensures { IfOk result (λ files. files ≡
        (if compact then compact_files columns.now rows.now granules.now
        else wide_files columns.now rows.now granules.now)) }
{
    if compact {
        write_compact(alloc, columns, rows, granules)
    } else {
        write_wide(alloc, columns, rows, granules)
    }
}
