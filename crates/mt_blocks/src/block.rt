//! Rows in memory, column by column.

ghost use Rattle.std.specs.Prelude.{◌≡◌, ◌<◌, [], length, All, IfOk, map, slice_index_or};
ghost use Rattle.mt_defs.specs.Sorting.{sorted_rows};
ghost use Rattle.mt_blocks.specs.Rows.{HaveRows, IsKeyOrder, columns_in, picked, rows_at, rows_in};

use crate::sort::{never_falls, sorted_order};
use mt_cells::Items;
use mt_columns::{Column, Leaf};
use mt_types::{List, NoMemory};
use std::alloc::Global;
use std::marker::Model;

/// Rows, column by column (ClickHouse: `Block`). Contracts see the list of the rows.
#[derive(Drop)]
pub struct Block {
    columns: Vec<Column>,
    count: usize,
}

impl Model for Block {
    ghost use Rattle.std.specs.Prelude.{List};
    ghost use Rattle.std.specs.Coded.{codes};
    ghost use Rattle.mt_types.specs.declared.value.Value.{Value as Cell};
    ghost use Rattle.mt_types.specs.contracts.value.Value as value;
    ghost use Rattle.mt_blocks.specs.Rows.{HaveRows, columns_in, rows_in};

    ghost Value = { List (List Cell) };

    ghost coded = { Prim.hlevel (codes, value.the_row.coded) };

    ghost view = { λ b. rows_in (columns_in b.columns.items) b.count };

    ghost invariant = { λ b. HaveRows b.count b.columns.items };
}

impl Block {
    /// The rows of some columns, which have so many values each.
    pub fn of(columns: Vec<Column>, count: usize) -> Block
        requires { HaveRows count columns.items }
        ensures { result ≡ rows_in (columns_in columns.items) count }
    {
        Block { columns, count }
    }

    /// How many rows there are.
    pub fn len(&self) -> usize
        ensures { result ≡ length self.now }
    {
        self.count
    }

    /// The columns of the rows.
    pub fn columns(&self) -> &[Column]
        ensures have { HaveRows (length self.now) result.now }
        ensures rows { rows_in (columns_in result.now) (length self.now) ≡ self.now }
    {
        self.columns.as_slice()
    }

    /// The rows of these indexes, in their order.
    pub fn gather(&self, alloc: Global, order: &[usize]) -> Result<Block, NoMemory>
        requires { All (λ index. index < length self.now) order.now }
        ensures { IfOk result (λ gathered. gathered ≡ rows_at order.now self.now) }
    {
        let columns = gather_columns(alloc, self.columns.as_slice(), self.count, order)?;
        Ok(Block {
            columns,
            count: order.len(),
        })
    }

    /// The rows in the order of a sort key, rows of equal key in the order that they had. Rows that are in
    /// order are given back. On `NoMemory` the rows are dropped.
    pub fn sorted(self, alloc: Global, sort: &[u32]) -> Result<Block, NoMemory>
        ensures { IfOk result (λ sorted. sorted ≡ sorted_rows sort.now self) }
    {
        match key_order(alloc, self.columns.as_slice(), self.count, sort)? {
            None => Ok(self),
            Some(order) => self.gather(alloc, order.as_slice()),
        }
    }
}

/// The order of rows by a sort key, or none where they are in order.
fn key_order(
    alloc: Global,
    columns: &[Column],
    count: usize,
    sort: &[u32],
) -> Result<Option<Vec<usize>>, NoMemory>
    requires { HaveRows count columns.now }
    ensures { IfOk result (λ order. IsKeyOrder sort.now (rows_in (columns_in columns.now) count) order) }
{
    let none = Column::empty(alloc, 0, Leaf::plain(Items::States(List::new(alloc))))?;
    let keys = key_columns(alloc, columns, &none, sort)?;
    if never_falls(keys.as_slice(), count) {
        return Ok(None);
    }
    Ok(Some(sorted_order(alloc, keys.as_slice(), count)?))
}

/// The columns of a key, or this one where there is none.
fn key_columns<'a>(
    alloc: Global,
    columns: &'a [Column],
    none: &'a Column,
    sort: &[u32],
) -> Result<Vec<&'a Column>, NoMemory>
    requires { none.now.values ≡ [] }
    ensures { IfOk result (λ keys. map (λ key. key.now.values) keys.items
        ≡ map (λ column. slice_index_or (columns_in columns.now) column []) sort.now) }
{
    let mut keys = Vec::with_capacity(alloc, sort.len())?;
    for column in sort {
        keys.push(column_or(columns, none, *column as usize))?;
    }
    Ok(keys)
}

fn column_or<'a>(columns: &'a [Column], none: &'a Column, index: usize) -> &'a Column
    requires { none.now.values ≡ [] }
    ensures { result.now.values ≡ slice_index_or (columns_in columns.now) index [] }
{
    if index < columns.len() {
        &columns[index]
    } else {
        none
    }
}

/// The columns at some indexes.
fn gather_columns(
    alloc: Global,
    columns: &[Column],
    count: usize,
    order: &[usize],
) -> Result<Vec<Column>, NoMemory>
    requires have { HaveRows count columns.now }
    requires there { All (λ index. index < count) order.now }
    ensures { IfOk result (λ gathered. columns_in gathered.items ≡ map (picked order.now) (columns_in columns.now)) }
{
    let mut gathered = Vec::with_capacity(alloc, columns.len())?;
    for column in columns {
        gathered.push(column.gather(alloc, order)?)?;
    }
    Ok(gathered)
}
