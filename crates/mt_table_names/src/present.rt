//! NoSuchColumn: every named column is there.

ghost use Rattle.std.specs.Prelude.{◌≡◌};
ghost use Rattle.std.specs.List.{list_all};
ghost use Rattle.mt_table_names.specs.NameSets.{listed};
ghost use Rattle.mt_table.specs.Names.{are_among};
ghost use Rattle.mt_table_names.specs.Present as defined;
ghost use Rattle.mt_table_names.specs.Sentence.{names_or_none};

use crate::names::Names;
use mt_element_syntax::Element;
use mt_phrases::{Selected, Selection};
use mt_syntax::{PartitionText, TableText};
use mt_types::List;

impl<'a> Names<'a> {
    /// Whether the names are all there, where they are given.
    fn contains_given(&self, names: &Option<List<List<u8>>>) -> bool
        ensures { result ≡ are_among (listed self.now) (names_or_none names.now) }
    {
        match names {
            Some(names) => self.contains_all(names.as_slice()),
            None => true,
        }
    }

    /// Whether an item's column is there.
    fn has_item(&self, item: &Selection) -> bool
        ensures { result ≡ defined.item_is_there (listed self.now) item.now }
    {
        match item {
            Selection::Column(name) => self.contains(name.as_slice()),
            Selection::Count => true,
            Selection::Of(_, name) => self.contains(name.as_slice()),
        }
    }

    /// Whether the columns of all items are there.
    fn has_each(&self, items: &[Selection]) -> bool
        ensures { result ≡ list_all (defined.item_is_there (listed self.now)) items.now }
    {
        items.iter().all(|item| self.has_item(item))
    }

    /// Whether the columns of all items are there.
    fn has_items(&self, items: &Selected) -> bool
        ensures { result ≡ defined.items_are_there (listed self.now) items.now }
    {
        match items {
            Selected::All => true,
            Selected::Items(items) => self.has_each(items.as_slice()),
        }
    }

    /// Whether the columns of an index or a projection are there.
    fn has_element(&self, element: &Element) -> bool
        ensures { result ≡ defined.element_is_there (listed self.now) element.now }
    {
        match element {
            Element::Column { .. } => true,
            Element::Index { column, .. } => self.contains(column.as_slice()),
            Element::Projection {
                items,
                group,
                order,
                ..
            } => self.has_items(items) && self.contains_given(group) && self.contains_given(order),
        }
    }

    /// Whether the column of an expression is there.
    fn has_expression(&self, expression: &PartitionText) -> bool
        ensures { result ≡ defined.expression_is_there (listed self.now) expression.now }
    {
        match expression {
            PartitionText::Plain(name) => self.contains(name.as_slice()),
            PartitionText::Month(name) => self.contains(name.as_slice()),
        }
    }

    /// Whether the columns of all elements are there.
    fn has_elements(&self, elements: &[Element]) -> bool
        ensures { result ≡ list_all (defined.element_is_there (listed self.now)) elements.now }
    {
        elements.iter().all(|element| self.has_element(element))
    }

    /// Whether the columns of all expressions are there.
    fn has_expressions(&self, partition: &[PartitionText]) -> bool
        ensures { result ≡ list_all (defined.expression_is_there (listed self.now)) partition.now }
    {
        partition
            .iter()
            .all(|expression| self.has_expression(expression))
    }

    /// Whether every column that a table text names is there.
    pub fn has_all(&self, text: &TableText) -> bool
        ensures { result ≡ defined.all_are_there (listed self.now) text.now }
    {
        self.has_elements(text.elements.as_slice())
            && self.has_expressions(text.partition.as_slice())
            && self.contains_given(&text.primary)
            && self.contains_all(text.order.as_slice())
    }
}
