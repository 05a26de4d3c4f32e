//! BadProjection: the two forms of a projection.

ghost use Rattle.std.specs.Prelude.{◌≡◌, IfOk};
ghost use Rattle.std.specs.List.{count_by, filter_map, list_all, list_any};
ghost use Rattle.mt_table_rules.specs.Projections as defined;
ghost use Rattle.mt_table_rules.specs.Rules.{has_form};
ghost use Rattle.mt_table_names.specs.Sentence as sentence;
ghost use Rattle.mt_table_names.specs.SentenceNames.{AreOfItems};

use crate::columns::Columns;
use mt_element_syntax::Element;
use mt_phrases::{Selected, Selection};
use mt_table_names::{ItemNames, differ, distinct, item_names};
use mt_types::{Agg, List, NoMemory};
use std::alloc::Global;

fn is_aggregate(item: &Selection) -> bool
    ensures { result ≡ sentence.is_aggregate_selection item.now }
{
    !matches!(item, Selection::Column(_))
}

fn is_count(item: &Selection) -> bool
    ensures { result ≡ sentence.is_count_selection item.now }
{
    matches!(item, Selection::Count)
}

fn has_aggregate(items: &[Selection]) -> bool
    ensures { result ≡ list_any sentence.is_aggregate_selection items.now }
{
    items.iter().any(is_aggregate)
}

fn count_of_counts(items: &[Selection]) -> usize
    ensures { result ≡ count_by sentence.is_count_selection items.now }
{
    items.iter().filter(|item| is_count(item)).count()
}

/// How many aggregates are selected.
pub(crate) fn count_of_aggregates(items: &[Selection]) -> usize
    ensures { result ≡ count_by sentence.is_aggregate_selection items.now }
{
    items.iter().filter(|item| is_aggregate(item)).count()
}

/// Whether plain columns are selected, each once, among them those of the sort key.
fn selects_key(alloc: Global, items: &[Selection], sort: &[List<u8>]) -> Result<bool, NoMemory>
    ensures { IfOk result (λ it_does. it_does ≡ defined.selects_key items.now sort.now) }
{
    if has_aggregate(items) {
        return Ok(false);
    }
    let names = item_names(alloc, items)?;
    match distinct(alloc, names.plain.as_slice())? {
        Some(plain) => Ok(plain.contains_all(sort)),
        None => Ok(false),
    }
}

/// Whether all columns are selected, or some with those of the sort key.
fn selects_for(alloc: Global, items: &Selected, sort: &[List<u8>]) -> Result<bool, NoMemory>
    ensures { IfOk result (λ it_does. it_does ≡ defined.selects_for items.now sort.now) }
{
    match items {
        Selected::All => Ok(true),
        Selected::Items(items) => selects_key(alloc, items.as_slice(), sort),
    }
}

/// Whether the two are the same names, each once, in any order.
fn are_same(alloc: Global, names: &[List<u8>], others: &[List<u8>]) -> Result<bool, NoMemory>
    ensures { IfOk result (λ they_are. they_are ≡ defined.are_same names.now others.now) }
{
    let Some(set) = distinct(alloc, names)? else {
        return Ok(false);
    };
    let Some(other_set) = distinct(alloc, others)? else {
        return Ok(false);
    };
    if !other_set.contains_all(names) {
        return Ok(false);
    }
    Ok(set.contains_all(others))
}

/// Whether each aggregate stands once.
fn aggregates_differ(
    alloc: Global,
    items: &[Selection],
    names: &ItemNames,
) -> Result<bool, NoMemory>
    requires { AreOfItems names.now items.now }
    ensures { IfOk result (λ they_do. they_do ≡ defined.selections_differ items.now) }
{
    if count_of_counts(items) > 1 {
        return Ok(false);
    }
    if !differ(alloc, names.sums.as_slice())? {
        return Ok(false);
    }
    if !differ(alloc, names.mins.as_slice())? {
        return Ok(false);
    }
    differ(alloc, names.maxs.as_slice())
}

impl<'n, 'c> Columns<'n, 'c> {
    /// Whether an aggregate may be over a column.
    fn takes(&self, agg: Agg, name: &[u8]) -> bool
        ensures { result ≡ defined.takes agg self.now.columns.now name.now }
    {
        match agg {
            Agg::Sum => self.is_integer(name),
            Agg::Min | Agg::Max => self.is_number(name),
        }
    }

    /// Whether an item is over a column that it may be over.
    fn is_over(&self, item: &Selection) -> bool
        ensures { result ≡ defined.is_selection_over self.now.columns.now item.now }
    {
        match item {
            Selection::Of(agg, name) => self.takes(*agg, name.as_slice()),
            _ => true,
        }
    }

    /// Whether all items are over such columns.
    fn are_over(&self, items: &[Selection]) -> bool
        ensures { result ≡ list_all (defined.is_selection_over self.now.columns.now) items.now }
    {
        items.iter().all(|item| self.is_over(item))
    }

    /// Whether a projection selects columns and has a sort key among them.
    fn has_normal(
        &self,
        alloc: Global,
        items: &Selected,
        sort: &[List<u8>],
    ) -> Result<bool, NoMemory>
        ensures { IfOk result (λ it_has. it_has ≡ defined.is_normal self.now.columns.now items.now sort.now) }
    {
        if !selects_for(alloc, items, sort)? {
            return Ok(false);
        }
        self.has_key(alloc, sort)
    }

    /// Whether a projection has keys, selects them, and selects aggregates beside them.
    fn has_grouped(
        &self,
        alloc: Global,
        items: &[Selection],
        keys: &[List<u8>],
    ) -> Result<bool, NoMemory>
        ensures { IfOk result (λ it_has. it_has ≡ defined.is_grouped_projection self.now.columns.now items.now keys.now) }
    {
        if !self.has_key(alloc, keys)? {
            return Ok(false);
        }
        let names = item_names(alloc, items)?;
        if !are_same(alloc, names.plain.as_slice(), keys)? {
            return Ok(false);
        }
        if !has_aggregate(items) {
            return Ok(false);
        }
        if !aggregates_differ(alloc, items, &names)? {
            return Ok(false);
        }
        Ok(self.are_over(items))
    }

    /// Whether a projection has one of the two forms.
    fn has_projection(
        &self,
        alloc: Global,
        items: &Selected,
        group: &Option<List<List<u8>>>,
        order: &Option<List<List<u8>>>,
    ) -> Result<bool, NoMemory>
        ensures { IfOk result (λ it_has. it_has ≡ defined.is_projection self.now.columns.now items.now group.now order.now) }
    {
        match (items, group, order) {
            (items, None, Some(sort)) => self.has_normal(alloc, items, sort.as_slice()),
            (Selected::Items(items), Some(keys), None) => {
                self.has_grouped(alloc, items.as_slice(), keys.as_slice())
            }
            _ => Ok(false),
        }
    }

    /// Whether an element has one of the two forms, if it is a projection.
    fn has_form(&self, alloc: Global, element: &Element) -> Result<bool, NoMemory>
        ensures { IfOk result (λ it_has. it_has ≡ has_form self.now.columns.now element.now) }
    {
        match element {
            Element::Projection {
                items,
                group,
                order,
                ..
            } => self.has_projection(alloc, items, group, order),
            _ => Ok(true),
        }
    }

    /// Whether all projections have one of the two forms.
    pub fn has_forms(&self, alloc: Global, elements: &[Element]) -> Result<bool, NoMemory>
        ensures { IfOk result (λ they_have. they_have ≡ list_all (has_form self.now.columns.now) elements.now) }
    {
        for element in elements {
            if !self.has_form(alloc, element)? {
                return Ok(false);
            }
        }
        Ok(true)
    }
}
