//! The order in which columns.txt lists the columns.

ghost use Rattle.std.specs.Prelude.{◌≡◌, ◌==◌, ◌≤◌, ◌<◌, ◌^◌, ◌++◌, [], ◌∷◌, length, nat_lt, position, IfOk, IfSome, bytes_eq};
ghost use Rattle.std.specs.List.{list_all};
ghost use Rattle.mt_table.specs.declared.limits.TheConstants.{MAX_COLUMNS};
ghost use Rattle.mt_table.specs.Kept.{is_one_of};
ghost use Rattle.mt_table.specs.Names.{places_differ};
ghost use Rattle.mt_defs.specs.Metadata.{may_list};
ghost use Rattle.mt_meta.specs.ColumnsReading.{is_line};
ghost use Rattle.mt_meta.specs.Results.{GivesOrder};

use crate::ascii::LINE_END;
use crate::split::split_once;
use mt_table::Column;
use mt_types::{List, NoMemory};
use std::alloc::Global;

/// Which of some columns' lines each column line of a text is, if all of them are.
pub(crate) fn order_of(
    alloc: Global,
    columns: &[List<u8>],
    text: &[u8],
) -> Result<Option<List<u32>>, NoMemory>
    requires { length columns.now ≤ MAX_COLUMNS }
    ensures { IfOk result (λ found. GivesOrder columns.now text.now found) }
{
    let mut order = List::with_capacity(alloc, columns.len())?;
    let mut rest = text;
    'lines: loop {
        let Some((line, after)) = split_once(rest, LINE_END) else {
            return Ok(Some(order));
        };
        let Some(column_index) = index_of(columns, line) else {
            return Ok(None);
        };
        order.push(column_index as u32)?;
        rest = after;
    }
}

/// The first of some columns' lines that a line is.
fn index_of(columns: &[List<u8>], line: &[u8]) -> Option<usize>
    ensures found { result ≡ position (is_line line.now) columns.now }
    ensures bound { IfSome result (λ i. i < length columns.now) }
{
    columns
        .iter()
        .position(|column| is_line(line, column.as_slice()))
}

/// Whether a line, with its end, is this text.
fn is_line(line: &[u8], text: &[u8]) -> bool
    ensures { result ≡ is_line line.now text.now }
{
    match text.strip_prefix(line) {
        Some(rest) => rest == [LINE_END].as_slice(),
        None => false,
    }
}

/// Whether a folder may list these of the columns, by their places: no column twice, and each that it must list.
pub(crate) fn may_list(columns: &[Column], must: &[u32], order: &[u32]) -> bool
    ensures { result ≡ may_list columns.now must.now order.now }
{
    are_places(columns.len(), order) && places_differ(order) && has_all(order, must)
}

/// Whether each is below a number.
fn are_places(count: usize, order: &[u32]) -> bool
    ensures { result ≡ list_all (λ place. nat_lt place count) order.now }
{
    order.iter().all(|place| (*place as usize) < count)
}

/// Whether no place stands twice.
fn places_differ(order: &[u32]) -> bool
    ensures { result ≡ places_differ order.now }
{
    let mut rest = order;
    while let Some((place, later)) = rest.split_first() {
        if is_one_of(later, *place) {
            return false;
        }
        rest = later;
    }
    true
}

/// Whether each of some places is among others.
fn has_all(order: &[u32], must: &[u32]) -> bool
    ensures { result ≡ list_all (is_one_of order.now) must.now }
{
    must.iter().all(|place| is_one_of(order, *place))
}

/// Whether a place is one of these.
fn is_one_of(order: &[u32], place: u32) -> bool
    ensures { result ≡ is_one_of order.now place }
{
    order.iter().any(|other| place == *other)
}
