//! The innermost values of a column: items, of which some may be NULL.

ghost use Rattle.std.specs.Prelude.{◌≡◌, ◌++◌, ◌∷◌, [], ◌-◌, ◌<◌, ◌≤◌, ◌↔◌, length, map, take, drop, true, false};
ghost use Rattle.std.specs.Prelude.{slice_index_or, All, IfOk, IsTrue, OnOk, OnErr};
ghost use Rattle.mt_types.specs.declared.value.Value.TheVariants.{Null};
ghost use Rattle.mt_types.specs.Order.{value_cmp};
ghost use Rattle.mt_defs.specs.Encoding.{null_byte};
ghost use Rattle.mt_defs.specs.WrittenStreams.{or_default};
ghost use Rattle.mt_cells.specs.Items.{default_item, is_narrow_kind, items_in, kind_in};
ghost use Rattle.mt_cells.specs.Seen.{value_seen};
ghost use Rattle.mt_columns.specs.Leaves.{AreNotHuge, leaf_fits, nulled};

use crate::nulls::{
    default_under, gather_nulls, has_nulls, is_null_in, more_nulls, push_item, push_null,
};
use mt_cells::{Items, Seen, compare_seen};
use mt_types::NoMemory;
use std::alloc::Global;
use std::cmp::Ordering;
use std::marker::Model;

/// Items, of which some may be NULL. Under NULL stands the default (ClickHouse: `ColumnNullable`).
#[derive(Drop)]
pub struct Leaf {
    nulls: Option<Vec<u8>>,
    items: Items,
}

impl Model for Leaf {
    ghost use Rattle.std.specs.Coded.{codes};
    ghost use Rattle.mt_types.specs.contracts.value.Value as value;
    ghost use Rattle.mt_cells.specs.Items.{default_item, items_in, kind_in};
    ghost use Rattle.mt_columns.specs.Leaves.{HasNulls, Leaved, is_nullable, leaf_values};

    ghost Value = { Leaved };

    ghost coded = { Prim.hlevel (codes, value.the_row.coded) };

    ghost view = { λ l. record {
      nullable = is_nullable l.nulls;
      kind = kind_in l.items;
      values = leaf_values l.nulls (items_in l.items);
    } };

    ghost invariant = { λ l. HasNulls (default_item (kind_in l.items)) l.nulls (items_in l.items) };
}

impl Leaf {
    /// Items none of which is NULL.
    pub fn plain(items: Items) -> Leaf
        ensures nullable { result.nullable ≡ false }
        ensures kind { result.kind ≡ kind_in items }
        ensures values { result.values ≡ items_in items }
    {
        Leaf { nulls: None, items }
    }

    /// No items yet; some may be NULL. It takes no memory.
    pub fn nullable(alloc: Global, items: Items) -> Leaf
        requires { items_in items ≡ [] }
        ensures nullable { result.nullable ≡ true }
        ensures kind { result.kind ≡ kind_in items }
        ensures values { result.values ≡ [] }
    {
        Leaf {
            nulls: Some(Vec::new(alloc)),
            items,
        }
    }

    /// Items under a null map, of which each is NULL where the map has a 1. The default is brought under
    /// NULL, which is no work where it stands there.
    pub fn with_nulls(alloc: Global, nulls: Vec<u8>, items: Items) -> Result<Leaf, NoMemory>
        requires many { length nulls.items ≡ length (items_in items) }
        requires bytes { All (λ byte. byte ≤ 1) nulls.items }
        ensures nullable { IfOk result (λ leaf. leaf.nullable ≡ true) }
        ensures kind { IfOk result (λ leaf. leaf.kind ≡ kind_in items) }
        ensures values { IfOk result (λ leaf. leaf.values ≡ nulled nulls.items (items_in items)) }
    {
        items.are_not_null();
        let items = default_under(alloc, nulls.as_slice(), items)?;
        Ok(Leaf {
            nulls: Some(nulls),
            items,
        })
    }

    /// The leaf without values, of items that may be NULL. It takes no memory.
    pub fn optional(self, alloc: Global) -> Leaf
        requires { self.values ≡ [] }
        ensures nullable { result.nullable ≡ true }
        ensures kind { result.kind ≡ self.kind }
        ensures values { result.values ≡ [] }
    {
        let Leaf { nulls, items } = self;
        match nulls {
            None => Leaf::nullable(alloc, items),
            Some(nulls) => Leaf {
                nulls: Some(nulls),
                items,
            },
        }
    }

    /// How many there are.
    pub fn len(&self) -> usize
        ensures { result ≡ length self.now.values }
    {
        self.items.len()
    }

    /// A value. It takes no memory.
    pub fn seen(&self, index: usize) -> Seen<'_>
        requires { index < length self.now.values }
        ensures { value_seen result ≡ slice_index_or self.now.values index Null }
    {
        if is_null_in(&self.nulls, index) {
            Seen::Null
        } else {
            self.items.seen(index)
        }
    }

    /// The items, with the default under NULL.
    pub fn items(&self) -> &Items
        ensures kind { kind_in result.now ≡ self.now.kind }
        ensures values { items_in result.now ≡ map (or_default (default_item self.now.kind)) self.now.values }
    {
        self.items.are_not_null();
        &self.items
    }

    /// The null map of the values from an index on and before another.
    pub fn null_map(&self, from: usize, to: usize) -> &[u8]
        requires nullable { self.now.nullable ≡ true }
        requires order { from ≤ to }
        requires within { to ≤ length self.now.values }
        ensures { result.now ≡ map null_byte (take (to - from) (drop from self.now.values)) }
    {
        match &self.nulls {
            Some(nulls) => bytes_between(nulls.as_slice(), from, to),
            None => unreachable!(),
        }
    }

    /// Whether both have items of one kind, and both may be NULL or neither.
    pub fn is_like(&self, other: &Leaf) -> bool
        ensures { IsTrue result ↔ ((self.now.nullable ≡ other.now.nullable) × (self.now.kind ≡ other.now.kind)) }
    {
        has_nulls(&self.nulls) == has_nulls(&other.nulls) && self.items.is_like(&other.items)
    }

    /// No number of at most 64 bits is a Huge. (A law: it does nothing.)
    pub fn are_narrow(&self)
        ensures { is_narrow_kind self.now.kind ≡ true → AreNotHuge self.now.values }
    {
        self.items.are_narrow();
    }

    /// Appends a value.
    pub fn push(&mut self, value: Seen<'_>) -> Result<(), NoMemory>
        requires { IsTrue (leaf_fits self.old.nullable self.old.kind (value_seen value)) }
        ensures kind { self.new.kind ≡ self.old.kind }
        ensures nullable { self.new.nullable ≡ self.old.nullable }
        ensures ok { OnOk result (self.new.values ≡ self.old.values ++ value_seen value.entry ∷ []) }
        ensures err { OnErr result (self.new.values ≡ self.old.values) }
    {
        match &mut self.nulls {
            None => self.items.push(value),
            Some(nulls) => push_both(nulls, &mut self.items, value),
        }
    }

    /// The values of these indexes, in their order.
    pub fn gather(&self, alloc: Global, order: &[usize]) -> Result<Leaf, NoMemory>
        requires { All (λ index. index < length self.now.values) order.now }
        ensures kind { IfOk result (λ gathered. gathered.kind ≡ self.now.kind) }
        ensures nullable { IfOk result (λ gathered. gathered.nullable ≡ self.now.nullable) }
        ensures values { IfOk result (λ gathered. gathered.values
            ≡ map (λ index. slice_index_or self.now.values index Null) order.now) }
    {
        let nulls = gather_nulls(alloc, &self.nulls, order)?;
        let items = self.items.gather(alloc, order)?;
        Ok(Leaf { nulls, items })
    }

    /// With values of another leaf like it behind, those from an index on and before another. On
    /// `NoMemory` the leaf is dropped.
    pub fn append(self, other: &Leaf, from: usize, to: usize) -> Result<Leaf, NoMemory>
        requires kind { other.now.kind ≡ self.kind }
        requires nullable { other.now.nullable ≡ self.nullable }
        requires order { from ≤ to }
        requires within { to ≤ length other.now.values }
        ensures kind { IfOk result (λ leaf. leaf.kind ≡ self.kind) }
        ensures nullable { IfOk result (λ leaf. leaf.nullable ≡ self.nullable) }
        ensures values { IfOk result (λ leaf. leaf.values
            ≡ self.values ++ take (to - from) (drop from other.now.values)) }
    {
        let Leaf { nulls, items } = self;
        let nulls = more_nulls(nulls, &other.nulls, from, to)?;
        let items = items.append(&other.items, from, to)?;
        Ok(Leaf { nulls, items })
    }

    /// How two values compare.
    pub fn compare(&self, a: usize, b: usize) -> Ordering
        requires a { a < length self.now.values }
        requires b { b < length self.now.values }
        ensures { result ≡ value_cmp (slice_index_or self.now.values a Null)
            (slice_index_or self.now.values b Null) }
    {
        compare_seen(self.seen(a), self.seen(b))
    }
}

/// Appends a byte to the null map, and an item.
fn push_both(nulls: &mut Vec<u8>, items: &mut Items, value: Seen<'_>) -> Result<(), NoMemory>
    requires { IsTrue (leaf_fits true (kind_in items.old) (value_seen value)) }
    ensures kind { kind_in items.new ≡ kind_in items.old }
    ensures ok { OnOk result ((nulls.new.items ≡ nulls.old.items ++ null_byte (value_seen value.entry) ∷ [])
        × (items_in items.new
        ≡ items_in items.old ++ or_default (default_item (kind_in items.old)) (value_seen value.entry) ∷ [])) }
    ensures err { OnErr result ((nulls.new.items ≡ nulls.old.items)
        × (items_in items.new ≡ items_in items.old)) }
{
    match value {
        Seen::Null => push_null(nulls, items),
        other => push_item(nulls, items, other),
    }
}

/// The bytes from an index on and before another.
fn bytes_between(bytes: &[u8], from: usize, to: usize) -> &[u8]
    requires order { from ≤ to }
    requires within { to ≤ length bytes.now }
    ensures { result.now ≡ take (to - from) (drop from bytes.now) }
{
    &bytes[from..to]
}
