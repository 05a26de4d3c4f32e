//! The columns of a sentence, and their types by their names.

ghost use Rattle.std.specs.Prelude.{◌≡◌, IfOk, option_copied};
ghost use Rattle.mt_types.specs.Numbers as numbers;
ghost use Rattle.mt_table.specs.ColumnTypes as types;
ghost use Rattle.mt_table.specs.ColumnTypes.{column_named, named_has};
ghost use Rattle.mt_table.specs.Kept.{names_of};
ghost use Rattle.mt_table_names.specs.NameSets.{listed};
ghost use Rattle.mt_table_rules.specs.Columns.{columns_of};

use crate::type_text::column_type;
use mt_element_syntax::Element;
use mt_table::{Column, is_argument_type, is_date_type, is_integer_type, is_key_type};
use mt_table_names::Names;
use mt_types::{List, NoMemory};
use std::alloc::Global;

/// The columns of a table text, if each type is one of a column.
pub fn read_columns(alloc: Global, elements: &[Element]) -> Result<Option<List<Column>>, NoMemory>
    ensures { IfOk result (λ columns. columns ≡ columns_of elements.now) }
{
    let mut columns = List::new(alloc);
    for element in elements {
        if let Element::Column { name, ty, .. } = element {
            let Some(ty) = column_type(alloc, ty)? else {
                return Ok(None);
            };
            let name = List::of_bytes(alloc, name.as_slice())?;
            columns.push(Column { name, ty })?;
        }
    }
    Ok(Some(columns))
}

/// Columns of different names.
#[derive(Drop)]
pub struct Columns<'n, 'c> {
    /// Their names.
    pub names: Names<'n>,
    /// The columns, in the order of the names.
    pub columns: &'c [Column],
    pub ghost same: { listed names ≡ names_of columns.now },
}

impl<'n, 'c> Columns<'n, 'c> {
    /// The column of a name.
    fn named(&self, name: &[u8]) -> Option<&Column>
        ensures { option_copied result ≡ column_named self.now.columns.now name.now }
    {
        self.columns.get(self.names.place(name))
    }

    /// There is such a column, of a type that a key may have.
    pub(crate) fn is_key(&self, name: &[u8]) -> bool
        ensures { result ≡ named_has types.is_key_type self.now.columns.now name.now }
    {
        match self.named(name) {
            Some(column) => is_key_type(&column.ty),
            None => false,
        }
    }

    /// There is such a column, of integers of at most 64 bits.
    pub(crate) fn is_integer(&self, name: &[u8]) -> bool
        ensures { result ≡ named_has types.is_integer_type self.now.columns.now name.now }
    {
        match self.named(name) {
            Some(column) => is_integer_type(&column.ty),
            None => false,
        }
    }

    /// There is such a column, of dates.
    pub(crate) fn is_date(&self, name: &[u8]) -> bool
        ensures { result ≡ named_has types.is_date_type self.now.columns.now name.now }
    {
        match self.named(name) {
            Some(column) => is_date_type(&column.ty),
            None => false,
        }
    }

    /// There is such a column, of integers of at most 64 bits or dates.
    pub(crate) fn is_number(&self, name: &[u8]) -> bool
        ensures { result ≡ named_has numbers.is_argument_type self.now.columns.now name.now }
    {
        match self.named(name) {
            Some(column) => is_argument_type(&column.ty),
            None => false,
        }
    }
}
