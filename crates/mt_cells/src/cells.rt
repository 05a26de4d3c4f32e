//! Items of a fixed width, one after another.

ghost use Rattle.std.specs.Prelude.{◌≡◌, ◌++◌, ◌∷◌, [], ◌*◌, ◌+◌, ◌-◌, ◌<◌, ◌≤◌, ◌↔◌, length, map, replicate, take, drop};
ghost use Rattle.std.specs.Prelude.{ℕ, slice_index, slice_index_or, All, IfOk, IsTrue, OnOk, OnErr};
ghost use Rattle.std.specs.List.{flat_map, list_all};
ghost use Rattle.std.specs.Int.{w128, to_le_bytes};
ghost use Rattle.mt_types.specs.declared.value.Value.TheVariants.{Null, Num};
ghost use Rattle.mt_types.specs.Defaults.{default_of};
ghost use Rattle.mt_types.specs.Fits.{fits_of};
ghost use Rattle.mt_types.specs.Items.{item_bytes};
ghost use Rattle.mt_types.specs.Order.{value_cmp};
ghost use Rattle.mt_cells.specs.Kinds.{size_of, type_of, value_of, values_of};
ghost use Rattle.mt_cells.specs.Seen.{value_seen};

use crate::kind::{Kind, number_in, twos_complement};
use crate::seen::{Seen, compare_seen};
use mt_types::NoMemory;
use std::alloc::Global;
use std::cmp::Ordering;
use std::marker::Model;

/// Items of a fixed width, one after another, with their bytes as a file has them (ClickHouse:
/// `ColumnVector`, `ColumnFixedString`).
#[derive(Drop)]
pub struct Cells {
    kind: Kind,
    count: usize,
    bytes: Vec<u8>,
}

impl Model for Cells {
    ghost use Rattle.std.specs.Prelude.{◌≡◌, ◌*◌, length};
    ghost use Rattle.std.specs.Coded.{codes};
    ghost use Rattle.mt_types.specs.contracts.value.Value as value;
    ghost use Rattle.mt_cells.specs.Kinds.{Typed, size_of, values_of};

    ghost Value = { Typed };

    ghost coded = { Prim.hlevel (codes, value.the_row.coded) };

    ghost view = { λ c. record { kind = c.kind; values = values_of c.kind c.count c.bytes.items } };

    ghost invariant = { λ c. length c.bytes.items ≡ c.count * size_of c.kind };
}

impl Cells {
    /// No items. It takes no memory.
    pub fn new(alloc: Global, kind: Kind) -> Cells
        ensures kind { result.kind ≡ kind }
        ensures values { result.values ≡ [] }
    {
        Cells {
            kind,
            count: 0,
            bytes: Vec::new(alloc),
        }
    }

    /// What its items stand for.
    pub fn kind(&self) -> Kind
        ensures { result ≡ self.now.kind }
    {
        self.kind
    }

    /// How many items it has.
    pub fn len(&self) -> usize
        ensures { result ≡ length self.now.values }
    {
        self.count
    }

    /// Every value is one of the kind's. (A law: it does nothing.)
    pub fn values_fit(&self)
        ensures { IsTrue (list_all (fits_of (type_of self.now.kind)) self.now.values) }
    {
        know_fit(self.kind, self.count, self.bytes.as_slice());
    }

    /// Appends so many items, which these bytes are.
    pub fn append_items(&mut self, count: usize, bytes: &[u8]) -> Result<(), NoMemory>
        requires { length bytes.now ≡ count * size_of self.old.kind }
        ensures kind { self.new.kind ≡ self.old.kind }
        ensures ok { OnOk result (self.new.values ≡ self.old.values ++ values_of self.old.kind count bytes.now) }
        ensures err { OnErr result (self.new ≡ self.old) }
    {
        let Some(total) = self.count.checked_add(count) else {
            return Err(NoMemory);
        };
        self.bytes.extend_from_slice(bytes)?;
        self.count = total;
        Ok(())
    }

    /// Appends a value.
    pub fn push(&mut self, value: Seen<'_>) -> Result<(), NoMemory>
        requires { IsTrue (fits_of (type_of self.old.kind) (value_seen value)) }
        ensures kind { self.new.kind ≡ self.old.kind }
        ensures ok { OnOk result (self.new.values ≡ self.old.values ++ value_seen value.entry ∷ []) }
        ensures err { OnErr result (self.new ≡ self.old) }
    {
        match value {
            Seen::Num(number) => self.push_number(number),
            Seen::Huge(number) => self.push_bits(number),
            Seen::Text(text) => self.append_items(1, text),
            _ => unreachable!(),
        }
    }

    /// Appends a number up to 2^127 - 1.
    fn push_number(&mut self, number: i128) -> Result<(), NoMemory>
        requires { IsTrue (fits_of (type_of self.old.kind) (Num number)) }
        ensures kind { self.new.kind ≡ self.old.kind }
        ensures ok { OnOk result (self.new.values ≡ self.old.values ++ Num number ∷ []) }
        ensures err { OnErr result (self.new ≡ self.old) }
    {
        self.push_bits(number.cast_unsigned())
    }

    /// Appends the number whose 128 bits are given.
    fn push_bits(&mut self, bits: u128) -> Result<(), NoMemory>
        requires { size_of self.old.kind ≤ 16 }
        ensures kind { self.new.kind ≡ self.old.kind }
        ensures ok { OnOk result (self.new.values
            ≡ self.old.values ++ values_of self.old.kind 1 (take (size_of self.old.kind) (to_le_bytes w128 bits))) }
        ensures err { OnErr result (self.new ≡ self.old) }
    {
        let item = bits.to_le_bytes();
        let size = self.kind.size();
        self.append_items(1, &item[..size])
    }

    /// Appends the default of the kind's type: zero bytes.
    pub fn push_default(&mut self) -> Result<(), NoMemory>
        ensures kind { self.new.kind ≡ self.old.kind }
        ensures ok { OnOk result (self.new.values ≡ self.old.values ++ default_of (type_of self.old.kind) ∷ []) }
        ensures err { OnErr result (self.new ≡ self.old) }
    {
        let Some(total) = self.count.checked_add(1) else {
            return Err(NoMemory);
        };
        let Some(end) = self.bytes.len().checked_add(self.kind.size()) else {
            return Err(NoMemory);
        };
        self.bytes.resize(end, 0)?;
        self.count = total;
        Ok(())
    }

    /// Whether an item is the default of the kind's type.
    pub fn is_default(&self, index: usize) -> bool
        requires { index < length self.now.values }
        ensures { IsTrue result ↔ (slice_index_or self.now.values index Null ≡ default_of (type_of self.now.kind)) }
    {
        is_zero(item_at(self.bytes.as_slice(), self.kind.size(), index))
    }

    /// Appends items of another column of the kind, those from an index on and before another.
    pub fn append(&mut self, other: &Cells, from: usize, to: usize) -> Result<(), NoMemory>
        requires kind { other.now.kind ≡ self.old.kind }
        requires order { from ≤ to }
        requires within { to ≤ length other.now.values }
        ensures kind { self.new.kind ≡ self.old.kind }
        ensures ok { OnOk result (self.new.values
            ≡ self.old.values ++ take (to - from) (drop from other.now.values)) }
        ensures err { OnErr result (self.new ≡ self.old) }
    {
        self.append_items(to - from, other.items(from, to))
    }

    /// The bytes of the items from an index on and before another.
    pub fn items(&self, from: usize, to: usize) -> &[u8]
        requires order { from ≤ to }
        requires within { to ≤ length self.now.values }
        ensures size { length result.now ≡ (to - from) * size_of self.now.kind }
        ensures read { values_of self.now.kind (to - from) result.now
            ≡ take (to - from) (drop from self.now.values) }
        ensures written { result.now
            ≡ flat_map (item_bytes (type_of self.now.kind)) (take (to - from) (drop from self.now.values)) }
    {
        items_between(self.bytes.as_slice(), self.kind.size(), from, to)
    }

    /// How two items compare.
    pub fn compare(&self, a: usize, b: usize) -> Ordering
        requires a { a < length self.now.values }
        requires b { b < length self.now.values }
        ensures { result ≡ value_cmp (slice_index_or self.now.values a Null)
            (slice_index_or self.now.values b Null) }
    {
        compare_seen(self.seen(a), self.seen(b))
    }

    /// The items of these indexes, in their order.
    pub fn gather(&self, alloc: Global, order: &[usize]) -> Result<Cells, NoMemory>
        requires { All (λ index. index < length self.now.values) order.now }
        ensures { IfOk result (λ gathered. (gathered.kind ≡ self.now.kind)
            × (gathered.values ≡ map (λ index. slice_index_or self.now.values index Null) order.now)) }
    {
        let bytes = gather_items(alloc, self.bytes.as_slice(), self.kind.size(), order)?;
        Ok(Cells {
            kind: self.kind,
            count: order.len(),
            bytes,
        })
    }

    /// The value of an item. It takes no memory.
    pub fn seen(&self, index: usize) -> Seen<'_>
        requires { index < length self.now.values }
        ensures { value_seen result ≡ slice_index_or self.now.values index Null }
    {
        let item = item_at(self.bytes.as_slice(), self.kind.size(), index);
        value_of(self.kind, item)
    }
}

/// What items stand for are values of the kind.
fn know_fit(_kind: Kind, _count: usize, _bytes: &[u8])
    requires { length _bytes.now ≡ _count * size_of _kind }
    ensures { IsTrue (list_all (fits_of (type_of _kind)) (values_of _kind _count _bytes.now)) }
{}

/// Whether all bytes are 0.
fn is_zero(bytes: &[u8]) -> bool
    ensures { IsTrue result ↔ (bytes.now ≡ replicate (length bytes.now) 0) }
{
    for byte in bytes {
        if *byte != 0 {
            return false;
        }
    }
    true
}

/// The item of an index.
fn item_at(bytes: &[u8], size: usize, index: usize) -> &[u8]
    requires { index * size + size ≤ length bytes.now }
    ensures value { result.now ≡ take size (drop (index * size) bytes.now) }
    ensures bytes { (i : ℕ) → slice_index result.now i < 256 }
{
    let start = index * size;
    &bytes[start..start + size]
}

/// The items from an index on and before another.
fn items_between(bytes: &[u8], size: usize, from: usize, to: usize) -> &[u8]
    requires order { from ≤ to }
    requires within { to * size ≤ length bytes.now }
    ensures value { result.now ≡ take ((to - from) * size) (drop (from * size) bytes.now) }
    ensures bytes { (i : ℕ) → slice_index result.now i < 256 }
{
    let start = from * size;
    &bytes[start..to * size]
}

/// The items of these indexes, in their order.
fn gather_items(
    alloc: Global,
    bytes: &[u8],
    size: usize,
    order: &[usize],
) -> Result<Vec<u8>, NoMemory>
    requires { All (λ index. index * size + size ≤ length bytes.now) order.now }
    ensures { IfOk result (λ gathered. gathered.items
        ≡ flat_map (λ index. take size (drop (index * size) bytes.now)) order.now) }
{
    let Some(room) = size.checked_mul(order.len()) else {
        return Err(NoMemory);
    };
    let mut gathered = Vec::with_capacity(alloc, room)?;
    for index in order {
        gathered.extend_from_slice(item_at(bytes, size, *index))?;
    }
    Ok(gathered)
}

/// The value that an item stands for.
fn value_of(kind: Kind, item: &[u8]) -> Seen<'_>
    requires { length item.now ≡ size_of kind }
    ensures { value_seen result ≡ value_of kind item.now }
{
    match kind {
        Kind::Unsigned(width) => Seen::number(number_in(width, item)),
        Kind::Signed(width) => Seen::Num(twos_complement(width, number_in(width, item))),
        Kind::Text(_) => Seen::Text(item),
    }
}
