//! Writing one substream: items, or sizes of arrays.

ghost use Rattle.std.specs.Prelude.{◌≡◌, ◌-◌, ◌≤◌, IfOk, IsTrue, length, map, take, drop};
ghost use Rattle.std.specs.List.{flat_map, list_all};
ghost use Rattle.std.specs.Int.{w64, to_le_bytes};
ghost use Rattle.mt_types.specs.declared.value.Value.TheVariants.{State};
ghost use Rattle.mt_types.specs.Fits.{fits_of};
ghost use Rattle.mt_types.specs.Items.{item_bytes};
ghost use Rattle.mt_item.specs.ItemTypes.{has_items};
ghost use Rattle.mt_columns.specs.Shapes.{shape_of};
ghost use Rattle.mt_cells.specs.Items.{items_in, kind_in};
ghost use Rattle.mt_cells.specs.Pieces.{text_item};

use mt_cells::{Items, Sizes, Texts};
use mt_item::put_item;
use mt_types::{AggState, List, NoMemory, Ty, Value};
use std::alloc::Global;

/// The bytes of items, those from an index on and before another. Items of a fixed width are one slice.
pub(crate) fn items_of(
    alloc: Global,
    ty: &Ty,
    items: &Items,
    from: usize,
    to: usize,
) -> Result<List<u8>, NoMemory>
    requires items { IsTrue (has_items ty.now) }
    requires kind { kind_in items.now ≡ (shape_of ty.now).kind }
    requires fit { IsTrue (list_all (fits_of ty.now) (items_in items.now)) }
    requires order { from ≤ to }
    requires within { to ≤ length (items_in items.now) }
    ensures { IfOk result (λ bytes. bytes
        ≡ flat_map (item_bytes ty.now) (take (to - from) (drop from (items_in items.now)))) }
{
    match items {
        Items::Cells(cells) => List::of_bytes(alloc, cells.items(from, to)),
        Items::Texts(texts) => texts_of(alloc, texts, from, to),
        Items::States(states) => states_of(alloc, ty, states.as_slice(), from, to),
    }
}

/// The items of texts, those from an index on and before another.
fn texts_of(alloc: Global, texts: &Texts, from: usize, to: usize) -> Result<List<u8>, NoMemory>
    requires order { from ≤ to }
    requires within { to ≤ length texts.now }
    ensures { IfOk result (λ bytes. bytes ≡ flat_map text_item (take (to - from) (drop from texts.now))) }
{
    let mut bytes = List::new(alloc);
    texts.put_items(from, to, &mut bytes)?;
    Ok(bytes)
}

/// The items of states, those from an index on and before another.
fn states_of(
    alloc: Global,
    ty: &Ty,
    states: &[AggState],
    from: usize,
    to: usize,
) -> Result<List<u8>, NoMemory>
    requires items { IsTrue (has_items ty.now) }
    requires fit { IsTrue (list_all (fits_of ty.now) (map (λ state. State state) states.now)) }
    requires order { from ≤ to }
    requires within { to ≤ length states.now }
    ensures { IfOk result (λ bytes. bytes ≡ flat_map (item_bytes ty.now)
        (take (to - from) (drop from (map (λ state. State state) states.now)))) }
{
    let mut bytes = List::new(alloc);
    for index in from..to {
        put_item(ty, &Value::State(states[index]), &mut bytes)?;
    }
    Ok(bytes)
}

/// Sizes of arrays, those from an index on and before another: 8 bytes each.
pub(crate) fn sizes_of(
    alloc: Global,
    sizes: &Sizes,
    from: usize,
    to: usize,
) -> Result<List<u8>, NoMemory>
    requires order { from ≤ to }
    requires within { to ≤ length sizes.now }
    ensures { IfOk result (λ bytes. bytes
        ≡ flat_map (to_le_bytes w64) (take (to - from) (drop from sizes.now))) }
{
    let mut bytes = List::new(alloc);
    for index in from..to {
        bytes.append(&sizes.get(index).to_le_bytes())?;
    }
    Ok(bytes)
}
