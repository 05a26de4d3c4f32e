//! columns.txt and count.txt.

ghost use Rattle.std.specs.Prelude.{◌≡◌, ◌++◌, decimal, [], ◌∷◌, IfOk, OnOk};
ghost use Rattle.mt_table.specs.Form.{uint64_column};
ghost use Rattle.mt_defs.specs.Metadata.{column_line};
ghost use Rattle.mt_defs.specs.Metadata as defined;

use mt_types::{List, NoMemory};
use std::alloc::Global;

/// The columns.txt of two `UInt64` columns (docs/FORMAT.md, "Metadata").
pub(crate) fn columns_text(alloc: Global, first: &[u8], second: &[u8]) -> Result<List<u8>, NoMemory>
    ensures { IfOk result (λ text. text ≡
        defined.columns_text (uint64_column first.now ∷ uint64_column second.now ∷ [])) }
{
    let mut text = List::of_bytes(alloc, b"columns format version: 1\n2 columns:\n")?;
    append_line(first, &mut text)?;
    append_line(second, &mut text)?;
    Ok(text)
}

/// Appends the line of a column.
fn append_line(name: &[u8], text: &mut List<u8>) -> Result<(), NoMemory>
    ensures { OnOk result (text.new ≡ text.old ++ column_line (uint64_column name.now)) }
{
    text.append(b"`")?;
    text.append(name)?;
    text.append(b"` UInt64\n")
}

/// The number of rows in decimal (docs/FORMAT.md, "Metadata").
pub(crate) fn count_text(alloc: Global, rows: usize) -> Result<List<u8>, NoMemory>
    ensures { IfOk result (λ text. text ≡ decimal rows) }
{
    let digits = rows.to_string(alloc)?;
    List::of_bytes(alloc, digits.as_bytes())
}
