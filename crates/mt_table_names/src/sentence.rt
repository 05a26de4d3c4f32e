//! The names in a sentence, sorted by what they name.

ghost use Rattle.std.specs.Prelude.{◌≡◌, List, [], ◌∷◌, ◌++◌, IfOk, OnOk};
ghost use Rattle.mt_phrases.specs.declared.selection.Selection.{Selection};
ghost use Rattle.mt_element_syntax.specs.declared.tree.Element.{Element};
ghost use Rattle.mt_syntax.specs.declared.tree.PartitionText.{PartitionText};
ghost use Rattle.mt_table_names.specs.SentenceNames.{AreOfElements, AreOfItems, AreOfPartition};

use mt_element_syntax::Element;
use mt_phrases::Selection;
use mt_syntax::PartitionText;
use mt_types::{Agg, List, NoMemory};
use std::alloc::Global;

/// The names of a table's elements, each kind in its order.
#[derive(Drop)]
pub struct ElementNames {
    /// The names of columns.
    pub columns: List<List<u8>>,
    /// The names of indexes.
    pub indexes: List<List<u8>>,
    /// The names of projections.
    pub projections: List<List<u8>>,
}

impl ElementNames {
    /// The name of one element more.
    fn push(&mut self, alloc: Global, element: &Element) -> Result<(), NoMemory>
        ensures { OnOk result ((before : List Element) → AreOfElements self.old before
            → AreOfElements self.new (before ++ element.now ∷ [])) }
    {
        match element {
            Element::Column { name, .. } => self
                .columns
                .push(List::of_bytes(alloc, name.as_slice())?)?,
            Element::Index { name, .. } => self
                .indexes
                .push(List::of_bytes(alloc, name.as_slice())?)?,
            Element::Projection { name, .. } => self
                .projections
                .push(List::of_bytes(alloc, name.as_slice())?)?,
        }
        Ok(())
    }
}

/// The names of a table's elements.
pub fn element_names(alloc: Global, elements: &[Element]) -> Result<ElementNames, NoMemory>
    ensures { IfOk result (λ names. AreOfElements names elements.now) }
{
    let mut names = ElementNames {
        columns: List::new(alloc),
        indexes: List::new(alloc),
        projections: List::new(alloc),
    };
    for element in elements {
        names.push(alloc, element)?;
    }
    Ok(names)
}

/// The columns of a partition key.
#[derive(Drop)]
pub struct PartitionNames {
    /// Columns that are an expression themselves.
    pub plain: List<List<u8>>,
    /// Columns of which an expression is the month.
    pub months: List<List<u8>>,
}

impl PartitionNames {
    /// The column of one expression more.
    fn push(&mut self, alloc: Global, expression: &PartitionText) -> Result<(), NoMemory>
        ensures { OnOk result ((before : List PartitionText) → AreOfPartition self.old before
            → AreOfPartition self.new (before ++ expression.now ∷ [])) }
    {
        match expression {
            PartitionText::Plain(name) => self.plain.push(List::of_bytes(alloc, name.as_slice())?)?,
            PartitionText::Month(name) => self
                .months
                .push(List::of_bytes(alloc, name.as_slice())?)?,
        }
        Ok(())
    }
}

/// The columns of a partition key.
pub fn partition_names(
    alloc: Global,
    partition: &[PartitionText],
) -> Result<PartitionNames, NoMemory>
    ensures { IfOk result (λ names. AreOfPartition names partition.now) }
{
    let mut names = PartitionNames {
        plain: List::new(alloc),
        months: List::new(alloc),
    };
    for expression in partition {
        names.push(alloc, expression)?;
    }
    Ok(names)
}

/// The columns that a projection selects, each kind in its order.
#[derive(Drop)]
pub struct ItemNames {
    /// Plain columns.
    pub plain: List<List<u8>>,
    /// Columns of which there is the sum.
    pub sums: List<List<u8>>,
    /// Columns of which there is the least value.
    pub mins: List<List<u8>>,
    /// Columns of which there is the greatest value.
    pub maxs: List<List<u8>>,
}

impl ItemNames {
    /// The column of one item more.
    fn push(&mut self, alloc: Global, item: &Selection) -> Result<(), NoMemory>
        ensures { OnOk result ((before : List Selection) → AreOfItems self.old before
            → AreOfItems self.new (before ++ item.now ∷ [])) }
    {
        match item {
            Selection::Column(name) => self.plain.push(List::of_bytes(alloc, name.as_slice())?)?,
            Selection::Count => {}
            Selection::Of(agg, name) => self.push_aggregate(alloc, *agg, name.as_slice())?,
        }
        Ok(())
    }

    /// The column of one aggregate more.
    fn push_aggregate(&mut self, alloc: Global, agg: Agg, name: &[u8]) -> Result<(), NoMemory>
        ensures { OnOk result ((before : List Selection) → AreOfItems self.old before
            → AreOfItems self.new (before ++ Selection.Of agg name.now ∷ [])) }
    {
        match agg {
            Agg::Sum => self.sums.push(List::of_bytes(alloc, name)?)?,
            Agg::Min => self.mins.push(List::of_bytes(alloc, name)?)?,
            Agg::Max => self.maxs.push(List::of_bytes(alloc, name)?)?,
        }
        Ok(())
    }
}

/// The columns that a projection selects.
pub fn item_names(alloc: Global, items: &[Selection]) -> Result<ItemNames, NoMemory>
    ensures { IfOk result (λ names. AreOfItems names items.now) }
{
    let mut names = ItemNames {
        plain: List::new(alloc),
        sums: List::new(alloc),
        mins: List::new(alloc),
        maxs: List::new(alloc),
    };
    for item in items {
        names.push(alloc, item)?;
    }
    Ok(names)
}
