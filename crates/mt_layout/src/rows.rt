//! The sizes of values and rows, over all substreams.

ghost use Rattle.std.specs.Prelude.{◌≡◌};
ghost use Rattle.std.specs.List.{sum_by};
ghost use Rattle.mt_types.specs.Defaults.{default_of};
ghost use Rattle.mt_types.specs.declared.value.Value.{out-Value};
ghost use Rattle.mt_defs.specs.Rows.{cell};
ghost use Rattle.mt_defs.specs.WrittenStreams.{elements_at, or_default};
ghost use Rattle.mt_layout.specs.Sizes as defined;
ghost use Rattle.mt_layout.specs.Sizes.{saturated};

use crate::item::item_size;
use mt_table::Column;
use mt_types::{AggState, Ty, Value};

/// A null map has a byte for each value.
const NULL_BYTES: u64 = 1;

/// The size of an array is a UInt64.
const SIZE_BYTES: u64 = 8;

/// The bytes of a row over all substreams of all columns; NULL stands where a value is missing.
pub(crate) fn row_size(columns: &[Column], row: &[Value]) -> u64
    ensures { result ≡ saturated (defined.row_size columns.now row.now) }
{
    let mut size = 0u64;
    for i in 0..columns.len() {
        size = size.saturating_add(cell_size(&columns[i].ty, row, i));
    }
    size
}

/// The bytes of a row's value of a column.
fn cell_size(ty: &Ty, row: &[Value], column_index: usize) -> u64
    ensures { result ≡ saturated (defined.value_size ty.now (cell row.now column_index)) }
{
    match row.get(column_index) {
        Some(value) => value_size(ty, value),
        None => value_size(ty, &Value::Null),
    }
}

/// The bytes of a value over all substreams of its type.
#[cycle(sizes)]
fn value_size(ty: &Ty, value: &Value) -> u64
    ensures { result ≡ saturated (defined.value_size ty.now value.now) }
{
    match ty {
        Ty::Nullable(inner) => filled_size(inner.get(), value).saturating_add(NULL_BYTES),
        Ty::Array(inner) => elements_size(inner.get(), value).saturating_add(SIZE_BYTES),
        _ => item_size(ty, value),
    }
}

/// The bytes of a value, or of the default in the place of NULL.
#[cycle(sizes)]
fn filled_size(ty: &Ty, value: &Value) -> u64
    ensures { result ≡ saturated (defined.value_size ty.now
        (or_default (default_of ty.now) value.now)) }
{
    match value {
        Value::Null => default_size(ty),
        _ => value_size(ty, value),
    }
}

/// The bytes of the elements of an array.
#[cycle(sizes)]
fn elements_size(ty: &Ty, array: &Value) -> u64
    ensures { result ≡ saturated (sum_by (defined.value_size ty.now)
        (elements_at (out-Value array.now))) }
{
    match array {
        Value::List(elements) => values_size(ty, elements.as_slice()),
        _ => 0,
    }
}

/// The bytes of values, added up.
#[cycle(sizes)]
fn values_size(ty: &Ty, values: &[Value]) -> u64
    ensures { result ≡ saturated (sum_by (defined.value_size ty.now) values.now) }
{
    let mut size = 0u64;
    for value in values {
        size = size.saturating_add(value_size(ty, value));
    }
    size
}

/// The bytes of a type's default, which stands in the place of NULL.
fn default_size(ty: &Ty) -> u64
    ensures { result ≡ saturated (defined.value_size ty.now (default_of ty.now)) }
{
    match ty {
        Ty::UInt(_) => item_size(ty, &Value::Num(0)),
        Ty::Int(_) => item_size(ty, &Value::Num(0)),
        Ty::Date => item_size(ty, &Value::Num(0)),
        Ty::Moment => item_size(ty, &Value::Num(0)),
        Ty::FixedString(size) => u64::from(*size),
        Ty::Str => 1,
        Ty::Nullable(inner) => default_size(inner.get()).saturating_add(NULL_BYTES),
        Ty::Array(_) => SIZE_BYTES,
        Ty::State(agg, _) => item_size(ty, &Value::State(agg.empty_state())),
        Ty::CountState => item_size(ty, &Value::State(AggState::Count(0))),
    }
}
