//! BadSkip: the skip indexes.

ghost use Rattle.std.specs.Prelude.{◌≡◌};
ghost use Rattle.std.specs.List.{list_all};
ghost use Rattle.mt_table_rules.specs.Rules as defined;

use crate::columns::Columns;
use mt_element_syntax::{Element, IndexKind};
use mt_table::{MAX_GRANULARITY, MAX_SET_ROWS};

fn is_kind(kind: IndexKind) -> bool
    ensures { result ≡ defined.is_kind kind }
{
    match kind {
        IndexKind::Minmax => true,
        IndexKind::Set(rows) => rows <= MAX_SET_ROWS,
    }
}

impl<'n, 'c> Columns<'n, 'c> {
    /// Whether an element is as it should be, if it is an index.
    fn is_index(&self, element: &Element) -> bool
        ensures { result ≡ defined.is_index self.now.columns.now element.now }
    {
        match element {
            Element::Index {
                column,
                kind,
                granularity,
                ..
            } => {
                self.is_key(column.as_slice())
                    && 1 <= *granularity
                    && *granularity <= MAX_GRANULARITY
                    && is_kind(*kind)
            }
            _ => true,
        }
    }

    /// Whether all indexes are as they should be.
    pub fn has_indexes(&self, elements: &[Element]) -> bool
        ensures { result ≡ list_all (defined.is_index self.now.columns.now) elements.now }
    {
        elements.iter().all(|element| self.is_index(element))
    }
}
