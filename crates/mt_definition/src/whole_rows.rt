//! Rows of all columns, of rows of those that a folder lists.

ghost use Rattle.std.specs.Prelude.{◌≡◌, ◌<◌, ◌==◌, length, map, All, IfOk, IfSome, IsTrue, OnOk};
ghost use Rattle.std.specs.List.{range_with_len};
ghost use Rattle.mt_definition.specs.ListedPlaces.{ArePlaces, IsRowBy, left_by, listed_place, value_by};
ghost use Rattle.mt_definition.specs.RowsReading.{whole_row};

use mt_table::Column;
use mt_types::{List, NoMemory, Row, Value};
use std::alloc::Global;
use std::mem;

/// Rows of all columns, of rows of the columns that a folder lists, by their places: each value at the place of
/// its column, and the default of its type in each other column. No value is copied, and rows that have all
/// columns at their places aren't touched.
pub(crate) fn whole_rows(
    alloc: Global,
    columns: &[Column],
    order: &[u32],
    rows: List<Row>,
) -> Result<List<Row>, NoMemory>
    requires { All (λ row. length row ≡ length order.now) rows }
    ensures { IfOk result (λ whole. whole ≡ map (whole_row columns.now order.now) rows) }
{
    if has_all_in_place(columns, order) {
        return Ok(rows);
    }
    let places = places_in(alloc, columns.len(), order)?;
    let count = rows.len();
    let mut whole = rows.into_vec();
    for index in 0..count {
        let row = mem::replace(&mut whole[index], List::new(alloc));
        whole[index] = whole_row(alloc, columns, places.as_slice(), row)?;
    }
    Ok(List::of(whole))
}

/// Whether all columns are listed, each at its place.
fn has_all_in_place(columns: &[Column], order: &[u32]) -> bool
    ensures { IsTrue result → order.now ≡ range_with_len 0 (length columns.now) }
{
    if order.len() != columns.len() {
        return false;
    }
    for (index, place) in order.iter().enumerate() {
        if *place as usize != index {
            return false;
        }
    }
    true
}

/// Where each of so many columns stands among those that are listed.
#[tactic(auto, using(crate::proofs::WholeLemmas::places_more))]
fn places_in(alloc: Global, count: usize, order: &[u32]) -> Result<Vec<Option<usize>>, NoMemory>
    ensures { IfOk result (λ places. places.items ≡ map (listed_place order.now) (range_with_len 0 count)) }
{
    let mut places = Vec::with_capacity(alloc, count)?;
    for column_index in 0..count {
        places.push(place_in(order, column_index))?;
    }
    Ok(places)
}

/// Where a column stands among those that are listed.
fn place_in(order: &[u32], column_index: usize) -> Option<usize>
    ensures { result ≡ listed_place order.now column_index }
{
    order
        .iter()
        .position(|place| is_column(*place, column_index))
}

/// Whether a place is that of a column.
fn is_column(place: u32, column_index: usize) -> bool
    ensures { result ≡ (place == column_index) }
{
    place as usize == column_index
}

/// A row of all columns; `places` says where the value of each stands in the row.
fn whole_row(
    alloc: Global,
    columns: &[Column],
    places: &[Option<usize>],
    row: Row,
) -> Result<Row, NoMemory>
    requires long { length places.now ≡ length columns.now }
    requires places { ArePlaces (length row) places.now }
    ensures { IfOk result (λ whole. IsRowBy columns.now places.now row whole) }
{
    let mut whole = List::with_capacity(alloc, columns.len())?;
    let mut values = row.into_vec();
    for (index, column) in columns.iter().enumerate() {
        whole.push(value_at(alloc, column, places[index], &mut values)?)?;
    }
    Ok(whole)
}

/// The value at a place, which is taken away, or else the default of the column's type.
fn value_at(
    alloc: Global,
    column: &Column,
    place: Option<usize>,
    values: &mut Vec<Value>,
) -> Result<Value, NoMemory>
    requires { IfSome place (λ k. k < length values.old.items) }
    ensures value { IfOk result (λ value. value ≡ value_by column.now values.old.items place) }
    ensures left { OnOk result (values.new.items ≡ left_by values.old.items place) }
{
    match place {
        Some(place) => Ok(mem::replace(&mut values[place], Value::Null)),
        None => column.ty.default_of(alloc),
    }
}
