//! The text that `show` prints.

ghost use Rattle.std.specs.Prelude.{◌≡◌, ◌<◌, ◌++◌, length, All, IfOk, OnOk};
ghost use Rattle.mt_show.specs.Text as text;
ghost use Rattle.mt_show.specs.Text.{head_lines, row_lines, stored_lines};

use crate::granules::{append_granules, append_last};
use crate::key::{Key, primary_key};
use crate::shape::Shape;
use crate::stored::{append_columns, append_number, append_projections, append_skips};
use mt_definition::Accepted;
use mt_table::Table;
use mt_types::{List, NoMemory};
use std::alloc::Global;

/// The text that `show` prints of an accepted part of a shape (docs/CLI.md, "show").
#[tactic(auto, unfolding(crate::specs::Text::show_text))]
pub fn show_text(
    alloc: Global,
    table: &Table,
    shape: &Shape,
    accepted: &Accepted,
) -> Result<List<u8>, NoMemory>
    requires order { All (λ place. place < length table.now.columns) shape.now.order }
    requires skips { length shape.now.skips ≡ length table.now.skips }
    requires sizes { length shape.now.projections ≡ length table.now.projections }
    ensures { IfOk result (λ made. made ≡ text.show_text table.now shape.now accepted.now) }
{
    let key = primary_key(alloc, table)?;
    let mut out = List::new(alloc);
    append_head(shape.compact, accepted, &mut out)?;
    append_stored(alloc, table, shape, &mut out)?;
    append_rows(alloc, &key, accepted, &mut out)?;
    Ok(out)
}

/// Appends the layout, and how much there is.
fn append_head(compact: bool, accepted: &Accepted, out: &mut List<u8>) -> Result<(), NoMemory>
    ensures { OnOk result (out.new ≡ out.old ++ head_lines compact accepted.now) }
{
    append_layout(compact, out)?;
    append_count(b"rows ", accepted.rows.len() as u64, out)?;
    append_count(b"granules ", accepted.granules.len() as u64, out)
}

fn append_count(word: &[u8], count: u64, out: &mut List<u8>) -> Result<(), NoMemory>
    ensures { OnOk result (out.new ≡ out.old ++ text.shown_count word.now count) }
{
    out.append(word)?;
    append_number(out, count)?;
    out.append(b"\n")
}

fn append_layout(compact: bool, out: &mut List<u8>) -> Result<(), NoMemory>
    ensures { OnOk result (out.new ≡ out.old ++ text.kind_line compact) }
{
    if compact {
        out.append(b"kind Compact\n")
    } else {
        out.append(b"kind Wide\n")
    }
}

/// Appends what is stored.
fn append_stored(
    alloc: Global,
    table: &Table,
    shape: &Shape,
    out: &mut List<u8>,
) -> Result<(), NoMemory>
    requires order { All (λ place. place < length table.now.columns) shape.now.order }
    requires skips { length shape.now.skips ≡ length table.now.skips }
    requires sizes { length shape.now.projections ≡ length table.now.projections }
    ensures { OnOk result (out.new ≡ out.old ++ stored_lines table.now shape.now) }
{
    append_columns(alloc, table.columns.as_slice(), shape.order.as_slice(), out)?;
    append_skips(table.skips.as_slice(), shape.skips.as_slice(), out)?;
    append_projections(
        table.projections.as_slice(),
        shape.projections.as_slice(),
        out,
    )
}

/// Appends the granules, and the last row.
fn append_rows(
    alloc: Global,
    key: &Key,
    accepted: &Accepted,
    out: &mut List<u8>,
) -> Result<(), NoMemory>
    requires { length key.now.columns ≡ length key.now.places }
    ensures { OnOk result (out.new ≡ out.old ++ row_lines key.now accepted.now) }
{
    append_granules(
        alloc,
        key,
        accepted.granules.as_slice(),
        accepted.rows.as_slice(),
        out,
    )?;
    append_last(alloc, key, accepted.rows.as_slice(), out)
}
