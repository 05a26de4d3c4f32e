//! BadKey: the sort key and the primary key.

ghost use Rattle.std.specs.Prelude.{◌≡◌, ◌+◌, ◌≤◌, IfOk, length, drop};
ghost use Rattle.std.specs.List.{list_all};
ghost use Rattle.mt_table.specs.ColumnTypes.{is_key_type, named_has};
ghost use Rattle.mt_table.specs.Names as lists;
ghost use Rattle.mt_table_rules.specs.Projections as projections;
ghost use Rattle.mt_table_rules.specs.Rules as defined;

use crate::columns::Columns;
use mt_syntax::TableText;
use mt_table_names::differ;
use mt_types::{List, NoMemory};
use std::alloc::Global;

impl<'n, 'c> Columns<'n, 'c> {
    /// Whether all are columns of types that a key may have.
    fn are_keys(&self, names: &[List<u8>]) -> bool
        ensures { result ≡ list_all (named_has is_key_type self.now.columns.now) names.now }
    {
        names.iter().all(|name| self.is_key(name.as_slice()))
    }

    /// Whether the names differ and are columns of types that a key may have.
    pub(crate) fn has_key(&self, alloc: Global, names: &[List<u8>]) -> Result<bool, NoMemory>
        ensures { IfOk result (λ it_has. it_has ≡ projections.is_key self.now.columns.now names.now) }
    {
        if !differ(alloc, names)? {
            return Ok(false);
        }
        Ok(self.are_keys(names))
    }

    /// Whether the sort key and the primary key are such keys.
    pub fn has_keys(&self, alloc: Global, text: &TableText) -> Result<bool, NoMemory>
        ensures { IfOk result (λ it_has. it_has ≡ defined.has_keys self.now.columns.now text.now) }
    {
        if !self.has_key(alloc, text.order.as_slice())? {
            return Ok(false);
        }
        Ok(begins(primary_names(text), text.order.as_slice()))
    }
}

/// The columns of the primary key: those of the sort key where it isn't given.
pub fn primary_names(text: &TableText) -> &[List<u8>]
    ensures { result.now ≡ defined.primary_names text.now }
{
    match &text.primary {
        Some(names) => names.as_slice(),
        None => text.order.as_slice(),
    }
}

/// Whether the one list begins the other.
fn begins(first: &[List<u8>], names: &[List<u8>]) -> bool
    ensures { result ≡ lists.begins first.now names.now }
{
    if first.len() > names.len() {
        return false;
    }
    for (place, name) in first.iter().enumerate() {
        if name.as_slice() != names[place].as_slice() {
            return false;
        }
    }
    true
}
