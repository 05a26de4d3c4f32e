//! What the folders of a table store: its base part, and each of its projections.

ghost use Rattle.std.specs.Prelude.{◌≡◌, ◌<◌, ◌≤◌, ◌==◌, ◌++◌, ℕ, List, codes, length, map, IfOk, IsTrue};
ghost use Rattle.std.specs.List.{list_all, list_any, range_with_len};
ghost use Rattle.mt_table.specs.declared.projection.Projection.TheVariants.{Normal, Grouped};
ghost use Rattle.mt_table.specs.declared.limits.TheConstants.{MAX_COLUMNS};
ghost use Rattle.mt_table.specs.Kept.{is_place, keeps_aggregate, keeps_normal, keeps_grouped};
ghost use Rattle.mt_table.specs.Stored.{base_of, column_at, columns_below, index_in, inner_of, key_columns, projection_at};
ghost use Rattle.mt_table.specs.Stored as defined;

use crate::column::Column;
use crate::definition::{PartDef, Table};
use crate::partition::PartExpr;
use crate::projection::{Aggregate, Projection};
use mt_types::{Agg, Boxed, List, NoMemory, Ty};
use std::alloc::Global;

impl Table {
    /// What the table's own part stores: its columns and keys.
    pub fn base(&self, alloc: Global) -> Result<PartDef, NoMemory>
        ensures { IfOk result (λ made. made ≡ base_of self.now) }
    {
        Ok(PartDef {
            columns: copy_all(alloc, self.columns.as_slice())?,
            must: self.key_columns(alloc)?,
            sort: copy_places(alloc, self.sort.as_slice())?,
            primary: self.primary,
        })
    }

    /// The columns that each part of the table has: those of its sort key, and those of its partition key.
    fn key_columns(&self, alloc: Global) -> Result<List<u32>, NoMemory>
        ensures { IfOk result (λ places. places ≡ key_columns self.now) }
    {
        let mut places = copy_places(alloc, self.sort.as_slice())?;
        for expression in self.partition.as_slice() {
            let (PartExpr::Plain(place) | PartExpr::Month(place)) = *expression;
            places.push(place)?;
        }
        Ok(places)
    }

    /// What a projection stores, by its place from 0 (docs/FORMAT.md, "Projections"): its columns in the
    /// table's order; or its keys, and then a column of states per aggregate. Its folder has all of them.
    /// Its sort key is its whole primary key.
    pub fn inner(&self, alloc: Global, projection: usize) -> Result<PartDef, NoMemory>
        requires there { projection < length self.now.projections }
        ensures { IfOk result (λ made. made ≡ inner_of self.now (projection_at self.now projection)) }
    {
        match &self.projections.as_slice()[projection] {
            Projection::Normal { columns, sort, .. } => {
                self.normal(alloc, columns.as_slice(), sort.as_slice())
            }
            Projection::Grouped { keys, aggs, .. } => {
                self.grouped(alloc, keys.as_slice(), aggs.as_slice())
            }
        }
    }

    /// What a projection of some columns stores.
    fn normal(&self, alloc: Global, chosen: &[u32], sort: &[u32]) -> Result<PartDef, NoMemory>
        requires kept { IsTrue (keeps_normal self.now.columns chosen.now sort.now) }
        ensures { (name : List ℕ) → IfOk result (λ made. made
            ≡ inner_of self.now (Normal name chosen.now sort.now)) }
    {
        let stored = places_below(alloc, self.columns.len() as u32, chosen)?;
        let places = stored.as_slice();
        let columns = copy_columns(alloc, self.columns.as_slice(), places)?;
        Ok(PartDef {
            must: first_places(alloc, columns.len() as u32)?,
            columns,
            sort: places_among(alloc, places, sort)?,
            primary: sort.len() as u32,
        })
    }

    /// What a projection of aggregates stores.
    fn grouped(
        &self,
        alloc: Global,
        keys: &[u32],
        aggregates: &[Aggregate],
    ) -> Result<PartDef, NoMemory>
        requires kept { IsTrue (keeps_grouped self.now.columns keys.now aggregates.now) }
        ensures { (name : List ℕ) → IfOk result (λ made. made
            ≡ inner_of self.now (Grouped name keys.now aggregates.now)) }
    {
        let mut columns = copy_columns(alloc, self.columns.as_slice(), keys)?;
        for aggregate in aggregates {
            columns.push(self.state_column(alloc, aggregate)?)?;
        }
        let count = keys.len() as u32;
        Ok(PartDef {
            must: first_places(alloc, columns.len() as u32)?,
            columns,
            sort: first_places(alloc, count)?,
            primary: count,
        })
    }

    /// The column of an aggregate's states, named as `count()` or `sum(v)`.
    fn state_column(&self, alloc: Global, aggregate: &Aggregate) -> Result<Column, NoMemory>
        requires kept { IsTrue (keeps_aggregate self.now.columns aggregate.now) }
        ensures { IfOk result (λ column. column ≡ defined.state_column self.now aggregate.now) }
    {
        match aggregate {
            Aggregate::Count => Ok(Column {
                name: List::of_bytes(alloc, b"count()")?,
                ty: Ty::CountState,
            }),
            Aggregate::Of(agg, place) => {
                let column = &self.columns.as_slice()[*place as usize];
                Ok(Column {
                    name: state_name(alloc, *agg, column.name.as_slice())?,
                    ty: Ty::State(*agg, Boxed::new(alloc, column.ty.copy(alloc)?)?),
                })
            }
        }
    }
}

/// The name of an aggregate function.
fn aggregate_word(agg: Agg) -> &'static [u8]
    ensures { result.now ≡ defined.aggregate_word agg }
{
    match agg {
        Agg::Sum => b"sum",
        Agg::Min => b"min",
        Agg::Max => b"max",
    }
}

/// The name of the states of an aggregate over a column.
fn state_name(alloc: Global, agg: Agg, column: &[u8]) -> Result<List<u8>, NoMemory>
    ensures { IfOk result (λ name. name
        ≡ defined.aggregate_word agg ++ codes "(" ++ column.now ++ codes ")") }
{
    let mut name = List::of_bytes(alloc, aggregate_word(agg))?;
    name.push(b'(')?;
    name.append(column)?;
    name.push(b')')?;
    Ok(name)
}

/// Copies of columns.
fn copy_all(alloc: Global, columns: &[Column]) -> Result<List<Column>, NoMemory>
    ensures { IfOk result (λ copied. copied ≡ columns.now) }
{
    let mut copied = List::with_capacity(alloc, columns.len())?;
    for column in columns {
        copied.push(column.copy(alloc)?)?;
    }
    Ok(copied)
}

/// Copies of the columns at some places.
fn copy_columns(alloc: Global, columns: &[Column], places: &[u32]) -> Result<List<Column>, NoMemory>
    requires there { IsTrue (list_all (is_place columns.now) places.now) }
    ensures { IfOk result (λ copied. copied ≡ map (column_at columns.now) places.now) }
{
    let mut copied = List::with_capacity(alloc, places.len())?;
    for place in places {
        copied.push(columns[*place as usize].copy(alloc)?)?;
    }
    Ok(copied)
}

/// The same places.
fn copy_places(alloc: Global, places: &[u32]) -> Result<List<u32>, NoMemory>
    ensures { IfOk result (λ copied. copied ≡ places.now) }
{
    let mut copied = List::with_capacity(alloc, places.len())?;
    for place in places {
        copied.push(*place)?;
    }
    Ok(copied)
}

/// The places from 0 on, of this number.
fn first_places(alloc: Global, count: u32) -> Result<List<u32>, NoMemory>
    ensures { IfOk result (λ places. places ≡ range_with_len 0 count) }
{
    let mut places = List::new(alloc);
    for place in 0..count {
        places.push(place)?;
    }
    Ok(places)
}

/// The places below a number that are among some columns.
fn places_below(alloc: Global, count: u32, chosen: &[u32]) -> Result<List<u32>, NoMemory>
    ensures { IfOk result (λ places. places ≡ columns_below count chosen.now) }
{
    let mut places = List::with_capacity(alloc, chosen.len())?;
    for place in 0..count {
        if is_among(chosen, place) {
            places.push(place)?;
        }
    }
    Ok(places)
}

fn is_among(chosen: &[u32], place: u32) -> bool
    ensures { result ≡ list_any (λ other. other == place) chosen.now }
{
    chosen.iter().any(|other| *other == place)
}

/// Where each column stands among the stored ones.
fn places_among(alloc: Global, stored: &[u32], columns: &[u32]) -> Result<List<u32>, NoMemory>
    requires few { length stored.now ≤ MAX_COLUMNS }
    ensures { IfOk result (λ places. places ≡ map (index_in stored.now) columns.now) }
{
    let mut places = List::with_capacity(alloc, columns.len())?;
    for column in columns {
        places.push(index_in(stored, *column))?;
    }
    Ok(places)
}

/// Where a column stands among some columns; their number where it isn't among them.
fn index_in(columns: &[u32], column: u32) -> u32
    requires few { length columns.now ≤ MAX_COLUMNS }
    ensures { result ≡ defined.index_in columns.now column }
{
    for (place, other) in columns.iter().enumerate() {
        if *other == column {
            return place as u32;
        }
    }
    columns.len() as u32
}
