//! Null maps: a byte for each item, 1 beside NULL.

ghost use Rattle.std.specs.Prelude.{◌≡◌, ◌++◌, ◌∷◌, [], ◌-◌, ◌≤◌, length, map, take, drop};
ghost use Rattle.std.specs.Prelude.{slice_index_or, ◌<◌, ◌==◌, if◌then◌else◌, IfOk, IfSome, IsTrue, OnOk, OnErr};
ghost use Rattle.mt_types.specs.declared.value.Value.TheVariants.{Null};
ghost use Rattle.mt_cells.specs.Items.{default_item, fits_items, items_in, kind_in};
ghost use Rattle.mt_cells.specs.Seen.{value_seen};
ghost use Rattle.mt_columns.specs.Leaves.{AreGathered, AreMore, is_nullable, null_in, under_nulls};

use mt_cells::{Items, Seen};
use mt_types::NoMemory;
use std::alloc::Global;

/// Whether there is a null map.
pub fn has_nulls(nulls: &Option<Vec<u8>>) -> bool
    ensures { result ≡ is_nullable nulls.now }
{
    match nulls {
        None => false,
        Some(_) => true,
    }
}

/// Whether the value of an index is NULL.
pub fn is_null_in(nulls: &Option<Vec<u8>>, index: usize) -> bool
    ensures { result ≡ null_in nulls.now index }
{
    match nulls {
        None => false,
        Some(nulls) => byte_at(nulls.as_slice(), index) == 1,
    }
}

/// The byte of an index, 0 after the last.
fn byte_at(bytes: &[u8], index: usize) -> u8
    ensures { result ≡ slice_index_or bytes.now index 0 }
{
    bytes.get(index).copied().unwrap_or(0)
}

/// A null map's bytes of these indexes, in their order.
pub fn gather_nulls(
    alloc: Global,
    nulls: &Option<Vec<u8>>,
    order: &[usize],
) -> Result<Option<Vec<u8>>, NoMemory>
    ensures { IfOk result (λ gathered. AreGathered order.now nulls.now gathered) }
{
    match nulls {
        None => Ok(None),
        Some(bytes) => Ok(Some(gather_bytes(alloc, bytes.as_slice(), order)?)),
    }
}

/// The bytes of these indexes, in their order.
fn gather_bytes(alloc: Global, bytes: &[u8], order: &[usize]) -> Result<Vec<u8>, NoMemory>
    ensures { IfOk result (λ gathered. gathered.items
        ≡ map (λ index. slice_index_or bytes.now index 0) order.now) }
{
    let mut gathered = Vec::with_capacity(alloc, order.len())?;
    for index in order {
        gathered.push(byte_at(bytes, *index))?;
    }
    Ok(gathered)
}

/// A null map with a range of another behind.
pub fn more_nulls(
    nulls: Option<Vec<u8>>,
    other: &Option<Vec<u8>>,
    from: usize,
    to: usize,
) -> Result<Option<Vec<u8>>, NoMemory>
    requires alike { is_nullable other.now ≡ is_nullable nulls }
    requires order { from ≤ to }
    requires within { IfSome other.now (λ bytes. to ≤ length bytes.items) }
    ensures { IfOk result (λ more. AreMore from to other.now nulls more) }
{
    match (nulls, other) {
        (None, _) => Ok(None),
        (Some(bytes), Some(more)) => Ok(Some(more_bytes(bytes, more.as_slice(), from, to)?)),
        (Some(_), None) => unreachable!(),
    }
}

/// Bytes with a range of others behind.
fn more_bytes(bytes: Vec<u8>, other: &[u8], from: usize, to: usize) -> Result<Vec<u8>, NoMemory>
    requires order { from ≤ to }
    requires within { to ≤ length other.now }
    ensures { IfOk result (λ more. more.items ≡ bytes.items ++ take (to - from) (drop from other.now)) }
{
    let mut bytes = bytes;
    bytes.extend_from_slice(&other[from..to])?;
    Ok(bytes)
}

/// Appends NULL: a 1 to the null map, and the default to the items.
pub fn push_null(nulls: &mut Vec<u8>, items: &mut Items) -> Result<(), NoMemory>
    ensures kind { kind_in items.new ≡ kind_in items.old }
    ensures ok { OnOk result ((nulls.new.items ≡ nulls.old.items ++ 1 ∷ [])
        × (items_in items.new ≡ items_in items.old ++ default_item (kind_in items.old) ∷ [])) }
    ensures err { OnErr result ((nulls.new.items ≡ nulls.old.items)
        × (items_in items.new ≡ items_in items.old)) }
{
    nulls.push(1)?;
    match items.push_default() {
        Ok(()) => Ok(()),
        Err(error) => {
            nulls.pop();
            Err(error)
        }
    }
}

/// Appends a value: a 0 to the null map, and the value to the items.
pub fn push_item(nulls: &mut Vec<u8>, items: &mut Items, value: Seen<'_>) -> Result<(), NoMemory>
    requires { IsTrue (fits_items (kind_in items.old) (value_seen value)) }
    ensures kind { kind_in items.new ≡ kind_in items.old }
    ensures ok { OnOk result ((nulls.new.items ≡ nulls.old.items ++ 0 ∷ [])
        × (items_in items.new ≡ items_in items.old ++ value_seen value.entry ∷ [])) }
    ensures err { OnErr result ((nulls.new.items ≡ nulls.old.items)
        × (items_in items.new ≡ items_in items.old)) }
{
    nulls.push(0)?;
    match items.push(value) {
        Ok(()) => Ok(()),
        Err(error) => {
            nulls.pop();
            Err(error)
        }
    }
}

/// The items with the default where the null map has a 1.
pub fn default_under(alloc: Global, nulls: &[u8], items: Items) -> Result<Items, NoMemory>
    requires { length nulls.now ≡ length (items_in items) }
    ensures kind { IfOk result (λ made. kind_in made ≡ kind_in items) }
    ensures values { IfOk result (λ made. items_in made
        ≡ under_nulls (default_item (kind_in items)) nulls.now (items_in items)) }
{
    if has_default_under(nulls, &items) {
        return Ok(items);
    }
    replace_under(alloc, nulls, &items)
}

/// Whether the default stands wherever the null map has a 1.
fn has_default_under(nulls: &[u8], items: &Items) -> bool
    requires { length nulls.now ≡ length (items_in items.now) }
    ensures { IsTrue result → items_in items.now
        ≡ under_nulls (default_item (kind_in items.now)) nulls.now (items_in items.now) }
{
    for (index, byte) in nulls.iter().enumerate() {
        if !may_stand(*byte, items, index) {
            return false;
        }
    }
    true
}

/// Whether the item of an index may stand beside a byte of the null map.
fn may_stand(byte: u8, items: &Items, index: usize) -> bool
    requires { index < length (items_in items.now) }
    ensures { IsTrue result → byte ≡ 1
        → slice_index_or (items_in items.now) index Null ≡ default_item (kind_in items.now) }
{
    if byte == 1 {
        items.is_default(index)
    } else {
        true
    }
}

/// Other items, with the default where the null map has a 1.
fn replace_under(alloc: Global, nulls: &[u8], items: &Items) -> Result<Items, NoMemory>
    requires { length nulls.now ≡ length (items_in items.now) }
    ensures kind { IfOk result (λ made. kind_in made ≡ kind_in items.now) }
    ensures values { IfOk result (λ made. items_in made
        ≡ under_nulls (default_item (kind_in items.now)) nulls.now (items_in items.now)) }
{
    let mut made = items.gather(alloc, &[])?;
    for (index, byte) in nulls.iter().enumerate() {
        made = with_item(made, *byte, items, index)?;
    }
    Ok(made)
}

/// With the item of an index behind, or the default where the byte is 1.
fn with_item(made: Items, byte: u8, items: &Items, index: usize) -> Result<Items, NoMemory>
    requires kind { kind_in items.now ≡ kind_in made }
    requires there { index < length (items_in items.now) }
    ensures kind { IfOk result (λ more. kind_in more ≡ kind_in made) }
    ensures values { IfOk result (λ more. items_in more ≡ items_in made
        ++ (if byte == 1 then default_item (kind_in made) else slice_index_or (items_in items.now) index Null) ∷ []) }
{
    let mut made = made;
    if byte == 1 {
        made.push_default()?;
        return Ok(made);
    }
    let Some(end) = index.checked_add(1) else {
        return Err(NoMemory);
    };
    made.append(items, index, end)
}
