//! Places in a table: what a sentence names by its names.

ghost use Rattle.std.specs.Prelude.{◌≡◌, ◌≤◌, ◌++◌, length, map, IfOk, OnOk, IsTrue};
ghost use Rattle.std.specs.List.{filter_map, range_with_len};
ghost use Rattle.std.specs.Option.{option_to_list};
ghost use Rattle.mt_table_names.specs.NameSets.{listed};
ghost use Rattle.mt_table_names.specs.Places as defined;
ghost use Rattle.mt_table_names.specs.Sentence.{item_column, names_or_none, place_in, places_in};

use crate::names::Names;
use crate::sentence::item_names;
use mt_element_syntax::{Element, IndexKind};
use mt_phrases::{Selected, Selection};
use mt_syntax::PartitionText;
use mt_table::{Aggregate, MAX_COLUMNS, PartExpr, Projection, Skip, SkipKind};
use mt_types::{List, NoMemory};
use std::alloc::Global;

/// Appends an item, if there is one.
fn append_found<T: Drop>(list: &mut List<T>, found: Option<T>) -> Result<(), NoMemory>
    ensures { OnOk result (list.new ≡ list.old ++ option_to_list found) }
{
    match found {
        Some(item) => list.push(item),
        None => Ok(()),
    }
}

fn skip_kind(kind: IndexKind) -> SkipKind
    ensures { result ≡ defined.skip_kind_of kind }
{
    match kind {
        IndexKind::Minmax => SkipKind::Minmax,
        IndexKind::Set(rows) => SkipKind::Set(rows),
    }
}

impl<'a> Names<'a> {
    /// Where a name stands among names of which there are few.
    fn place_of(&self, name: &[u8]) -> u32
        requires { length (listed self.now) ≤ MAX_COLUMNS }
        ensures { result ≡ place_in (listed self.now) name.now }
    {
        self.place(name) as u32
    }

    /// Where names stand.
    pub fn places(&self, alloc: Global, names: &[List<u8>]) -> Result<List<u32>, NoMemory>
        requires { length (listed self.now) ≤ MAX_COLUMNS }
        ensures { IfOk result (λ places. places ≡ places_in (listed self.now) names.now) }
    {
        let mut places = List::with_capacity(alloc, names.len())?;
        for name in names {
            places.push(self.place_of(name.as_slice()))?;
        }
        Ok(places)
    }

    /// All places.
    fn all_places(&self, alloc: Global) -> Result<List<u32>, NoMemory>
        requires { length (listed self.now) ≤ MAX_COLUMNS }
        ensures { IfOk result (λ places. places ≡ range_with_len 0 (length (listed self.now))) }
    {
        let count = self.len() as u32;
        let mut places = List::with_capacity(alloc, self.len())?;
        for place in 0..count {
            places.push(place)?;
        }
        Ok(places)
    }

    fn expression(&self, expression: &PartitionText) -> PartExpr
        requires { length (listed self.now) ≤ MAX_COLUMNS }
        ensures { result ≡ defined.expression_of (listed self.now) expression.now }
    {
        match expression {
            PartitionText::Plain(name) => PartExpr::Plain(self.place_of(name.as_slice())),
            PartitionText::Month(name) => PartExpr::Month(self.place_of(name.as_slice())),
        }
    }

    /// The expressions of the partition key.
    pub fn expressions(
        &self,
        alloc: Global,
        partition: &[PartitionText],
    ) -> Result<List<PartExpr>, NoMemory>
        requires { length (listed self.now) ≤ MAX_COLUMNS }
        ensures { IfOk result (λ expressions. expressions ≡ map (defined.expression_of (listed self.now)) partition.now) }
    {
        let mut expressions = List::with_capacity(alloc, partition.len())?;
        for expression in partition {
            expressions.push(self.expression(expression))?;
        }
        Ok(expressions)
    }

    /// The index of an element, if it is one.
    fn skip(&self, alloc: Global, element: &Element) -> Result<Option<Skip>, NoMemory>
        requires { length (listed self.now) ≤ MAX_COLUMNS }
        ensures { IfOk result (λ found. found ≡ defined.skip_of (listed self.now) element.now) }
    {
        match element {
            Element::Index {
                name,
                column,
                kind,
                granularity,
            } => Ok(Some(Skip {
                name: List::of_bytes(alloc, name.as_slice())?,
                column: self.place_of(column.as_slice()),
                kind: skip_kind(*kind),
                granularity: *granularity,
            })),
            _ => Ok(None),
        }
    }

    /// The skip indexes of a table.
    pub fn skips(&self, alloc: Global, elements: &[Element]) -> Result<List<Skip>, NoMemory>
        requires { length (listed self.now) ≤ MAX_COLUMNS }
        ensures { IfOk result (λ skips. skips ≡ filter_map (defined.skip_of (listed self.now)) elements.now) }
    {
        let mut skips = List::new(alloc);
        for element in elements {
            let found = self.skip(alloc, element)?;
            append_found(&mut skips, found)?;
        }
        Ok(skips)
    }

    /// The aggregate of an item, if it is one.
    fn aggregate(&self, item: &Selection) -> Option<Aggregate>
        requires { length (listed self.now) ≤ MAX_COLUMNS }
        ensures { result ≡ defined.aggregate_of (listed self.now) item.now }
    {
        match item {
            Selection::Column(_) => None,
            Selection::Count => Some(Aggregate::Count),
            Selection::Of(agg, name) => {
                Some(Aggregate::Of(*agg, self.place_of(name.as_slice())))
            }
        }
    }

    /// The aggregates among items.
    fn aggregates(&self, alloc: Global, items: &[Selection]) -> Result<List<Aggregate>, NoMemory>
        requires { length (listed self.now) ≤ MAX_COLUMNS }
        ensures { IfOk result (λ aggregates. aggregates ≡ filter_map (defined.aggregate_of (listed self.now)) items.now) }
    {
        let mut aggregates = List::new(alloc);
        for item in items {
            append_found(&mut aggregates, self.aggregate(item))?;
        }
        Ok(aggregates)
    }

    /// The selected aggregates.
    fn selected_aggregates(
        &self,
        alloc: Global,
        items: &Selected,
    ) -> Result<List<Aggregate>, NoMemory>
        requires { length (listed self.now) ≤ MAX_COLUMNS }
        ensures { IfOk result (λ aggregates. aggregates ≡ defined.selected_aggregates (listed self.now) items.now) }
    {
        match items {
            Selected::All => Ok(List::new(alloc)),
            Selected::Items(items) => self.aggregates(alloc, items.as_slice()),
        }
    }

    /// The selected columns.
    fn selected_places(&self, alloc: Global, items: &Selected) -> Result<List<u32>, NoMemory>
        requires { length (listed self.now) ≤ MAX_COLUMNS }
        ensures { IfOk result (λ places. places ≡ defined.selected_places (listed self.now) items.now) }
    {
        match items {
            Selected::All => self.all_places(alloc),
            Selected::Items(items) => {
                let names = item_names(alloc, items.as_slice())?;
                self.places(alloc, names.plain.as_slice())
            }
        }
    }

    /// Where the names stand, if they are given.
    fn given_places(
        &self,
        alloc: Global,
        names: &Option<List<List<u8>>>,
    ) -> Result<List<u32>, NoMemory>
        requires { length (listed self.now) ≤ MAX_COLUMNS }
        ensures { IfOk result (λ places. places ≡ places_in (listed self.now) (names_or_none names.now)) }
    {
        match names {
            Some(names) => self.places(alloc, names.as_slice()),
            None => Ok(List::new(alloc)),
        }
    }

    /// A projection of its parts.
    fn projection_of(
        &self,
        alloc: Global,
        name: &[u8],
        items: &Selected,
        group: &Option<List<List<u8>>>,
        order: &Option<List<List<u8>>>,
    ) -> Result<Projection, NoMemory>
        requires { length (listed self.now) ≤ MAX_COLUMNS }
        ensures { IfOk result (λ projection. projection ≡ defined.projection_of (listed self.now) name.now items.now group.now order.now) }
    {
        let name = List::of_bytes(alloc, name)?;
        match group {
            Some(keys) => Ok(Projection::Grouped {
                name,
                keys: self.places(alloc, keys.as_slice())?,
                aggs: self.selected_aggregates(alloc, items)?,
            }),
            None => Ok(Projection::Normal {
                name,
                columns: self.selected_places(alloc, items)?,
                sort: self.given_places(alloc, order)?,
            }),
        }
    }

    /// The projection of an element, if it is one.
    fn projection(&self, alloc: Global, element: &Element) -> Result<Option<Projection>, NoMemory>
        requires { length (listed self.now) ≤ MAX_COLUMNS }
        ensures { IfOk result (λ found. found ≡ defined.projection_in (listed self.now) element.now) }
    {
        match element {
            Element::Projection {
                name,
                items,
                group,
                order,
            } => {
                let projection = self.projection_of(alloc, name.as_slice(), items, group, order)?;
                Ok(Some(projection))
            }
            _ => Ok(None),
        }
    }

    /// The projections of a table.
    pub fn projections(
        &self,
        alloc: Global,
        elements: &[Element],
    ) -> Result<List<Projection>, NoMemory>
        requires { length (listed self.now) ≤ MAX_COLUMNS }
        ensures { IfOk result (λ found. found ≡ filter_map (defined.projection_in (listed self.now)) elements.now) }
    {
        let mut projections = List::new(alloc);
        for element in elements {
            let found = self.projection(alloc, element)?;
            append_found(&mut projections, found)?;
        }
        Ok(projections)
    }
}
