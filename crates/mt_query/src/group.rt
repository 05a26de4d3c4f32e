//! What a query with groups selects.

ghost use Rattle.std.specs.Prelude.{◌≡◌, ℕ, nat_eq, IfOk};
ghost use Rattle.std.specs.List.{list_all, list_any};
ghost use Rattle.mt_types.specs.Numbers as numbers;
ghost use Rattle.mt_table.specs.ColumnTypes as types;
ghost use Rattle.mt_table.specs.ColumnTypes.{place_has};
ghost use Rattle.mt_query.specs.Rules as rules;

use crate::columns::Columns;
use crate::query::Item;
use mt_table::{is_argument_type, is_integer_type};
use mt_types::{Agg, List, NoMemory};
use std::alloc::Global;

fn is_aggregate(item: &Item) -> bool
    ensures { result ≡ rules.is_aggregate item.now }
{
    !matches!(item, Item::Column(_))
}

/// Whether rows are grouped: by GROUP BY, or for an aggregate.
fn has_groups(items: &[Item], keys: &[u32]) -> bool
    ensures { result ≡ rules.has_groups items.now keys.now }
{
    !keys.is_empty() || has_aggregate(items)
}

/// Whether an item is an aggregate, or a column of GROUP BY.
fn is_of_group(keys: &[u32], item: &Item) -> bool
    ensures { result ≡ rules.is_of_group keys.now item.now }
{
    match item {
        Item::Column(place) => keys.contains(place),
        _ => true,
    }
}

/// Whether each plain item is in GROUP BY.
fn are_of_group(items: &[Item], keys: &[u32]) -> bool
    ensures { result ≡ list_all (rules.is_of_group keys.now) items.now }
{
    items.iter().all(|item| is_of_group(keys, item))
}

fn has_aggregate(items: &[Item]) -> bool
    ensures { result ≡ list_any rules.is_aggregate items.now }
{
    items.iter().any(|item| is_aggregate(item))
}

/// The places of GROUP BY, each once: at most as many as the table has columns, however long the text.
fn distinct(alloc: Global, keys: &[u32]) -> Result<List<u32>, NoMemory>
    ensures { IfOk result (λ found. (place : ℕ)
        → list_any (nat_eq place) found ≡ list_any (nat_eq place) keys.now) }
{
    let mut found = List::new(alloc);
    for key in keys {
        if !found.as_slice().contains(key) {
            found.push(*key)?;
        }
    }
    Ok(found)
}

/// Whether each plain item is in GROUP BY, where rows are grouped.
pub(crate) fn are_grouped(alloc: Global, items: &[Item], keys: &[u32]) -> Result<bool, NoMemory>
    ensures { IfOk result (λ they_are. they_are ≡ rules.are_grouped items.now keys.now) }
{
    if !has_groups(items, keys) {
        return Ok(true);
    }
    let keys = distinct(alloc, keys)?;
    Ok(are_of_group(items, keys.as_slice()))
}

impl<'c> Columns<'c> {
    /// Whether the column at a place has integers of at most 64 bits.
    fn has_integers(&self, place: u32) -> bool
        ensures { result ≡ place_has types.is_integer_type self.now.list.now place }
    {
        match self.list.get(place as usize) {
            Some(column) => is_integer_type(&column.ty),
            None => false,
        }
    }

    /// Whether the column at a place has integers of at most 64 bits or dates.
    fn has_numbers(&self, place: u32) -> bool
        ensures { result ≡ place_has numbers.is_argument_type self.now.list.now place }
    {
        match self.list.get(place as usize) {
            Some(column) => is_argument_type(&column.ty),
            None => false,
        }
    }

    /// Whether an aggregate is over a column that it may be over.
    fn is_over(&self, item: &Item) -> bool
        ensures { result ≡ rules.is_over self.now.list.now item.now }
    {
        match item {
            Item::Of(Agg::Sum, place) => self.has_integers(*place),
            Item::Of(Agg::Min, place) => self.has_numbers(*place),
            Item::Of(Agg::Max, place) => self.has_numbers(*place),
            _ => true,
        }
    }

    /// Whether all aggregates are.
    pub(crate) fn are_over(&self, items: &[Item]) -> bool
        ensures { result ≡ list_all (rules.is_over self.now.list.now) items.now }
    {
        items.iter().all(|item| self.is_over(item))
    }
}
