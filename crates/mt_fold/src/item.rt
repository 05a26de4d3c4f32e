//! The types and numbers of items.

ghost use Rattle.std.specs.Prelude.{◌≡◌, IfOk, unwrap_or};
ghost use Rattle.std.specs.Option.{option_copied};
ghost use Rattle.mt_types.specs.declared.ty.Ty.TheVariants.{Str};
ghost use Rattle.mt_fold.specs.Answer as answer;

use mt_agg::Folding;
use mt_query::Item;
use mt_table::{Aggregate, Column, Table};
use mt_types::{Agg, AggState, List, NoMemory, Ty, Value, Width};
use std::alloc::Global;

/// The type of a column, by its index, if the table has it.
fn column_type(table: &Table, column: u32) -> Option<&Ty>
    ensures { option_copied result ≡ answer.column_type table.now column }
{
    match table.columns.as_slice().get(column as usize) {
        Some(column) => Some(&column.ty),
        None => None,
    }
}

/// An equal type of a column, by its index; any type where the table doesn't have it.
fn copy_column_type(alloc: Global, table: &Table, column: u32) -> Result<Ty, NoMemory>
    ensures { IfOk result (λ ty. ty ≡ unwrap_or (answer.column_type table.now column) Str) }
{
    match column_type(table, column) {
        Some(ty) => ty.copy(alloc),
        None => Ok(Ty::Str),
    }
}

fn argument_type(table: &Table, aggregate: Aggregate) -> Option<&Ty>
    ensures { option_copied result ≡ answer.argument_type table.now aggregate }
{
    match aggregate {
        Aggregate::Count => None,
        Aggregate::Of(_, column) => column_type(table, column),
    }
}

/// The number of a state, as a value.
pub fn state_value(table: &Table, aggregate: Aggregate, state: AggState) -> Value
    ensures { result ≡ answer.state_value table.now aggregate state }
{
    Value::Num(state.finish(argument_type(table, aggregate)))
}

/// The type of a sum, a least or a greatest over an argument of a type.
fn result_type(agg: Agg, argument: Ty) -> Ty
    ensures { result ≡ answer.result_type agg argument }
{
    match agg {
        Agg::Sum => match argument {
            Ty::Int(_) => Ty::Int(Width::W64),
            _ => Ty::UInt(Width::W64),
        },
        Agg::Min => argument,
        Agg::Max => argument,
    }
}

fn item_type(alloc: Global, table: &Table, item: Item) -> Result<Ty, NoMemory>
    ensures { IfOk result (λ ty. ty ≡ answer.item_type table.now item) }
{
    match item {
        Item::Column(column) => copy_column_type(alloc, table, column),
        Item::Count => Ok(Ty::UInt(Width::W64)),
        Item::Of(agg, column) => Ok(result_type(agg, copy_column_type(alloc, table, column)?)),
    }
}

/// The columns of a query's answer. They have no names, since those aren't printed.
pub fn item_columns(alloc: Global, table: &Table, items: &[Item]) -> Result<Vec<Column>, NoMemory>
    ensures { IfOk result (λ made. made.items ≡ answer.item_columns table.now items.now) }
{
    let mut columns = Vec::with_capacity(alloc, items.len())?;
    for item in items {
        let ty = item_type(alloc, table, *item)?;
        columns.push(Column {
            name: List::new(alloc),
            ty,
        })?;
    }
    Ok(columns)
}
