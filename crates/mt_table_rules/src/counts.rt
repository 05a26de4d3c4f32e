//! TooMany: how much a table may have.

ghost use Rattle.std.specs.Prelude.{◌≡◌};
ghost use Rattle.std.specs.List.{count_by, list_all};
ghost use Rattle.mt_table_rules.specs.Rules as defined;
ghost use Rattle.mt_table_names.specs.Sentence.{names_or_none};
ghost use Rattle.mt_table_names.specs.SentenceNames.{AreOfElements};

use crate::forms::count_of_aggregates;
use mt_element_syntax::Element;
use mt_phrases::Selected;
use mt_syntax::TableText;
use mt_table::{MAX_COLUMNS, MAX_KEY, MAX_PARTITION, MAX_PROJECTIONS, MAX_SKIPS};
use mt_table_names::ElementNames;
use mt_types::List;

/// Whether a key names few enough columns, where it is given.
fn is_short(names: &Option<List<List<u8>>>) -> bool
    ensures { result ≡ defined.is_short (names_or_none names.now) }
{
    match names {
        Some(names) => names.len() <= MAX_KEY,
        None => true,
    }
}

/// Whether a projection selects few enough aggregates.
fn has_few_aggregates(items: &Selected) -> bool
    ensures { result ≡ defined.has_few_aggregates items.now }
{
    match items {
        Selected::All => true,
        Selected::Items(items) => count_of_aggregates(items.as_slice()) <= MAX_KEY,
    }
}

/// Whether an element has short keys and few aggregates, if it is a projection.
fn is_small(element: &Element) -> bool
    ensures { result ≡ defined.is_small_projection element.now }
{
    match element {
        Element::Projection {
            items,
            group,
            order,
            ..
        } => has_few_aggregates(items) && is_short(group) && is_short(order),
        _ => true,
    }
}

/// Whether all projections have short keys and few aggregates.
fn are_small(elements: &[Element]) -> bool
    ensures { result ≡ list_all defined.is_small_projection elements.now }
{
    elements.iter().all(is_small)
}

/// Whether a table text has few enough of everything.
pub fn are_few(text: &TableText, names: &ElementNames) -> bool
    requires { AreOfElements names.now text.now.elements }
    ensures { result ≡ defined.are_few text.now }
{
    names.columns.len() <= MAX_COLUMNS
        && names.indexes.len() <= MAX_SKIPS
        && names.projections.len() <= MAX_PROJECTIONS
        && are_small(text.elements.as_slice())
        && text.order.len() <= MAX_KEY
        && text.partition.len() <= MAX_PARTITION
}
