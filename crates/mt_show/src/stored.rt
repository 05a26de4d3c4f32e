//! The lines of what is stored: columns, skip indexes and projections.

ghost use Rattle.std.specs.Prelude.{◌≡◌, ◌<◌, ◌++◌, decimal, length, All, OnOk};
ghost use Rattle.mt_show.specs.Text.{shown_column, shown_columns, kind_text, named_line, pair_lines, projection_line, size_text, skip_line};

use crate::shape::Size;
use itoa::Buffer;
use mt_table::{Column, Projection, Skip, SkipKind};
use mt_types::{List, NoMemory};
use std::alloc::Global;

/// Appends a number in decimal.
pub(crate) fn append_number(out: &mut List<u8>, number: u64) -> Result<(), NoMemory>
    ensures { OnOk result (out.new ≡ out.old ++ decimal number) }
{
    out.append(Buffer::new().format(number).as_bytes())
}

/// Appends the lines of the columns at some places.
pub(crate) fn append_columns(
    alloc: Global,
    columns: &[Column],
    order: &[u32],
    out: &mut List<u8>,
) -> Result<(), NoMemory>
    requires { All (λ place. place < length columns.now) order.now }
    ensures { OnOk result (out.new ≡ out.old ++ shown_columns columns.now order.now) }
{
    for place in order {
        append_column(alloc, &columns[*place as usize], out)?;
    }
    Ok(())
}

fn append_column(alloc: Global, column: &Column, out: &mut List<u8>) -> Result<(), NoMemory>
    ensures { OnOk result (out.new ≡ out.old ++ shown_column column.now) }
{
    out.append(b"column ")?;
    out.append(column.name.as_slice())?;
    out.append(b" ")?;
    out.append(column.ty.write_name(alloc)?.as_slice())?;
    out.append(b"\n")
}

/// Appends the lines of the skip indexes that are there.
pub(crate) fn append_skips(
    skips: &[Skip],
    there: &[bool],
    out: &mut List<u8>,
) -> Result<(), NoMemory>
    requires { length there.now ≡ length skips.now }
    ensures { OnOk result (out.new ≡ out.old ++ pair_lines skip_line skips.now there.now) }
{
    for (place, is_there) in there.iter().enumerate() {
        append_skip(&skips[place], *is_there, out)?;
    }
    Ok(())
}

/// Appends the line of an index that is there.
fn append_skip(skip: &Skip, is_there: bool, out: &mut List<u8>) -> Result<(), NoMemory>
    ensures { OnOk result (out.new ≡ out.old ++ skip_line skip.now is_there) }
{
    if !is_there {
        return Ok(());
    }
    out.append(b"index ")?;
    out.append(skip.name.as_slice())?;
    out.append(b" ")?;
    append_kind(skip.kind, out)?;
    append_number(out, skip.granularity)?;
    out.append(b"\n")
}

fn append_kind(kind: SkipKind, out: &mut List<u8>) -> Result<(), NoMemory>
    ensures { OnOk result (out.new ≡ out.old ++ kind_text kind) }
{
    match kind {
        SkipKind::Minmax => out.append(b"minmax "),
        SkipKind::Set(max_rows) => {
            out.append(b"set(")?;
            append_number(out, max_rows)?;
            out.append(b") ")
        }
    }
}

/// Appends the lines of the projections that are there, each with its size.
pub(crate) fn append_projections(
    projections: &[Projection],
    sizes: &[Option<Size>],
    out: &mut List<u8>,
) -> Result<(), NoMemory>
    requires { length sizes.now ≡ length projections.now }
    ensures { OnOk result (out.new ≡ out.old ++ pair_lines projection_line projections.now sizes.now) }
{
    for (place, size) in sizes.iter().enumerate() {
        append_projection(&projections[place], *size, out)?;
    }
    Ok(())
}

/// Appends the line of a projection that is there.
fn append_projection(
    projection: &Projection,
    size: Option<Size>,
    out: &mut List<u8>,
) -> Result<(), NoMemory>
    ensures { OnOk result (out.new ≡ out.old ++ projection_line projection.now size) }
{
    let Some(size) = size else {
        return Ok(());
    };
    match projection {
        Projection::Normal { name, .. } => append_named(name.as_slice(), size, out),
        Projection::Grouped { name, .. } => append_named(name.as_slice(), size, out),
    }
}

fn append_named(name: &[u8], size: Size, out: &mut List<u8>) -> Result<(), NoMemory>
    ensures { OnOk result (out.new ≡ out.old ++ named_line name.now size) }
{
    out.append(b"projection ")?;
    out.append(name)?;
    out.append(b" ")?;
    append_size(size, out)
}

fn append_size(size: Size, out: &mut List<u8>) -> Result<(), NoMemory>
    ensures { OnOk result (out.new ≡ out.old ++ size_text size) }
{
    append_number(out, size.rows)?;
    out.append(b" rows ")?;
    append_number(out, size.granules)?;
    out.append(b" granules\n")
}
