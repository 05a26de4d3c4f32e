//! The items and keys of a sentence, by the columns of a table.

ghost use Rattle.std.specs.Prelude.{◌≡◌, length, map, IfOk};
ghost use Rattle.std.specs.List.{list_all, list_any, range_with_len};
ghost use Rattle.mt_query.specs.declared.query.Item.TheVariants as item;
ghost use Rattle.mt_query.specs.Columns.{place_of};
ghost use Rattle.mt_query.specs.Lists.{all_of};
ghost use Rattle.mt_query.specs.Rules as rules;

use crate::columns::Columns;
use crate::query::Item;
use mt_phrases::{Selected, Selection};
use mt_types::{List, NoMemory};
use std::alloc::Global;

impl<'c> Columns<'c> {
    /// An item, where its column is there.
    fn item(&self, selection: &Selection) -> Option<Item>
        ensures { result ≡ rules.item_of self.now.list.now selection.now }
    {
        match selection {
            Selection::Column(name) => {
                let place = self.place(name.as_slice())?;
                Some(Item::Column(place))
            }
            Selection::Count => Some(Item::Count),
            Selection::Of(agg, name) => {
                let place = self.place(name.as_slice())?;
                Some(Item::Of(*agg, place))
            }
        }
    }

    /// All columns.
    fn all_items(&self, alloc: Global) -> Result<List<Item>, NoMemory>
        ensures { IfOk result (λ items. items
            ≡ map item.Column (range_with_len 0 (length self.now.list.now))) }
    {
        let count = self.list.len() as u32;
        let mut items = List::with_capacity(alloc, self.list.len())?;
        for place in 0..count {
            items.push(Item::Column(place))?;
        }
        Ok(items)
    }

    /// The items, where each one's column is there.
    fn some_items(
        &self,
        alloc: Global,
        selections: &[Selection],
    ) -> Result<Option<List<Item>>, NoMemory>
        ensures { IfOk result (λ items. items ≡ all_of (rules.item_of self.now.list.now) selections.now) }
    {
        let mut items = List::with_capacity(alloc, selections.len())?;
        for selection in selections {
            let Some(item) = self.item(selection) else {
                return Ok(None);
            };
            items.push(item)?;
        }
        Ok(Some(items))
    }

    /// All columns for `*`, else the items, where each one's column is there.
    pub(crate) fn items(
        &self,
        alloc: Global,
        selected: &Selected,
    ) -> Result<Option<List<Item>>, NoMemory>
        ensures { IfOk result (λ items. items ≡ rules.items_of self.now.list.now selected.now) }
    {
        match selected {
            Selected::All => Ok(Some(self.all_items(alloc)?)),
            Selected::Items(selections) => self.some_items(alloc, selections.as_slice()),
        }
    }

    /// The places of names, where each one's column is there.
    pub(crate) fn places(
        &self,
        alloc: Global,
        names: &[List<u8>],
    ) -> Result<Option<List<u32>>, NoMemory>
        ensures { IfOk result (λ places. places ≡ all_of (place_of self.now.list.now) names.now) }
    {
        let mut places = List::with_capacity(alloc, names.len())?;
        for name in names {
            let Some(place) = self.place(name.as_slice()) else {
                return Ok(None);
            };
            places.push(place)?;
        }
        Ok(Some(places))
    }
}
