//! The values of one column of any type.

ghost use Rattle.std.specs.Prelude.{All, map, true, ◌+◌, ◌≡◌, ◌++◌, ◌∷◌, [], ◌-◌, ◌<◌, ◌≤◌, length, take, drop, IfOk, IsTrue, OnOk, OnErr, ◌↔◌, ◌==◌, slice_index_or, replicate, sum};
ghost use Rattle.mt_types.specs.declared.value.Value.TheVariants.{Null, List as Items};
ghost use Rattle.mt_types.specs.Order.{value_cmp};
ghost use Rattle.mt_cells.specs.Items.{is_narrow_kind};
ghost use Rattle.mt_cells.specs.Pieces.{cut};
ghost use Rattle.mt_columns.specs.Leaves.{AreNotHuge};
ghost use Rattle.mt_columns.specs.Nesting.{AreAlike, AreNested, fits_column, nested_values};
ghost use Rattle.mt_columns.specs.Shapes.{IsOfType};
ghost use Rattle.mt_cells.specs.Seen.{value_seen};

use crate::append::append_range;
use crate::compare::{compare_nested, compare_null_nested};
use crate::leaf::Leaf;
use crate::nested::nested_len;
use crate::push::push_value;
use crate::shape::column_of;
use mt_cells::{Seen, Sizes};
use mt_types::{NoMemory, Ty, Value};
use std::alloc::Global;
use std::cmp::Ordering;
use std::marker::Model;

/// The values of one column: so many arrays inside each other, of items that may be NULL or not
/// (ClickHouse: `IColumn`).
#[derive(Drop)]
pub struct Column {
    levels: Vec<Sizes>,
    leaf: Leaf,
}

impl Model for Column {
    ghost use Rattle.std.specs.Prelude.{length};
    ghost use Rattle.std.specs.Coded.{codes};
    ghost use Rattle.mt_types.specs.contracts.value.Value as value;
    ghost use Rattle.mt_columns.specs.Nesting.{AreNested, Columned, nested_values};

    ghost Value = { Columned };

    ghost coded = { Prim.hlevel (codes, value.the_row.coded) };

    ghost view = { λ c. record {
      depth = length c.levels.items;
      nullable = c.leaf.nullable;
      kind = c.leaf.kind;
      values = nested_values c.levels.items c.leaf.values;
    } };

    ghost invariant = { λ c. AreNested c.levels.items c.leaf.values };
}

impl Column {
    /// No values, of so many arrays inside each other.
    pub fn empty(alloc: Global, depth: usize, leaf: Leaf) -> Result<Column, NoMemory>
        requires { leaf.values ≡ [] }
        ensures depth { IfOk result (λ column. column.depth ≡ depth) }
        ensures nullable { IfOk result (λ column. column.nullable ≡ leaf.nullable) }
        ensures kind { IfOk result (λ column. column.kind ≡ leaf.kind) }
        ensures values { IfOk result (λ column. column.values ≡ []) }
    {
        let levels = empty_levels(alloc, depth)?;
        Ok(Column { levels, leaf })
    }

    /// The values of a leaf, inside no array. It takes no memory.
    pub fn flat(alloc: Global, leaf: Leaf) -> Column
        ensures depth { result.depth ≡ 0 }
        ensures nullable { result.nullable ≡ leaf.nullable }
        ensures kind { result.kind ≡ leaf.kind }
        ensures values { result.values ≡ leaf.values }
    {
        Column {
            levels: Vec::new(alloc),
            leaf,
        }
    }

    /// The column without values, of items that may be NULL.
    pub fn optional(self, alloc: Global) -> Column
        requires { self.values ≡ [] }
        ensures depth { result.depth ≡ self.depth }
        ensures nullable { result.nullable ≡ true }
        ensures kind { result.kind ≡ self.kind }
        ensures values { result.values ≡ [] }
    {
        let Column { levels, leaf } = self;
        Column {
            levels,
            leaf: leaf.optional(alloc),
        }
    }

    /// The column without values, of arrays of its values.
    pub fn array(self, alloc: Global) -> Result<Column, NoMemory>
        requires { self.values ≡ [] }
        ensures depth { IfOk result (λ column. column.depth ≡ self.depth + 1) }
        ensures nullable { IfOk result (λ column. column.nullable ≡ self.nullable) }
        ensures kind { IfOk result (λ column. column.kind ≡ self.kind) }
        ensures values { IfOk result (λ column. column.values ≡ []) }
    {
        let Column { mut levels, leaf } = self;
        levels.insert(0, Sizes::new(alloc))?;
        Ok(Column { levels, leaf })
    }

    /// The arrays of these sizes, whose elements its values are one after another. On `NoMemory` it is
    /// dropped.
    pub fn arrays(self, sizes: Sizes) -> Result<Column, NoMemory>
        requires { length self.values ≡ sum sizes }
        ensures depth { IfOk result (λ column. column.depth ≡ self.depth + 1) }
        ensures nullable { IfOk result (λ column. column.nullable ≡ self.nullable) }
        ensures kind { IfOk result (λ column. column.kind ≡ self.kind) }
        ensures values { IfOk result (λ column. column.values ≡ map (λ items. Items items) (cut sizes self.values)) }
    {
        let Column { mut levels, leaf } = self;
        levels.insert(0, sizes)?;
        Ok(Column { levels, leaf })
    }

    /// The empty column of a type.
    pub fn of(alloc: Global, ty: &Ty) -> Result<Column, NoMemory>
        ensures shape { IfOk result (λ column. IsOfType ty.now column) }
        ensures values { IfOk result (λ column. column.values ≡ []) }
    {
        column_of(alloc, ty)
    }

    /// The sizes of its arrays, level by level, and what is inside them: `nested_len`, `nested_seen`,
    /// `elements` and `compare_nested` read the values of each level.
    pub fn parts(&self) -> (&[Sizes], &Leaf)
        ensures nested { AreNested result.0.now result.1.now.values }
        ensures depth { length result.0.now ≡ self.now.depth }
        ensures nullable { result.1.now.nullable ≡ self.now.nullable }
        ensures kind { result.1.now.kind ≡ self.now.kind }
        ensures values { nested_values result.0.now result.1.now.values ≡ self.now.values }
    {
        (self.levels.as_slice(), &self.leaf)
    }

    /// A value inside no array. It takes no memory.
    pub fn seen(&self, index: usize) -> Seen<'_>
        requires flat { self.now.depth ≡ 0 }
        requires there { index < length self.now.values }
        ensures { value_seen result ≡ slice_index_or self.now.values index Null }
    {
        self.leaf.seen(index)
    }

    /// No number of at most 64 bits that is in no array is a Huge. (A law: it does nothing.)
    pub fn are_narrow(&self)
        ensures { self.now.depth ≡ 0 → is_narrow_kind self.now.kind ≡ true → AreNotHuge self.now.values }
    {
        self.leaf.are_narrow();
    }

    /// Whether no value is inside an array.
    pub fn is_flat(&self) -> bool
        ensures { result ≡ (self.now.depth == 0) }
    {
        self.levels.is_empty()
    }

    /// A value inside no array, NULL where there is none. It takes no memory.
    pub fn seen_or_null(&self, index: usize) -> Seen<'_>
        requires { self.now.depth ≡ 0 }
        ensures { value_seen result ≡ slice_index_or self.now.values index Null }
    {
        if index < self.len() {
            self.seen(index)
        } else {
            Seen::Null
        }
    }

    /// How many values there are.
    pub fn len(&self) -> usize
        ensures { result ≡ length self.now.values }
    {
        nested_len(self.levels.as_slice(), &self.leaf)
    }

    /// Appends a value that is in no array. It takes no memory of its own.
    pub fn push_seen(&mut self, value: Seen<'_>) -> Result<(), NoMemory>
        requires flat { self.old.depth ≡ 0 }
        requires fits { IsTrue (fits_column self.old (value_seen value)) }
        ensures shape { AreAlike self.new self.old }
        ensures ok { OnOk result (self.new.values ≡ self.old.values ++ value_seen value.entry ∷ []) }
        ensures err { OnErr result (self.new.values ≡ self.old.values) }
    {
        self.leaf.push(value)
    }

    /// With one more value. On `NoMemory` the column is dropped.
    pub fn push(self, value: &Value) -> Result<Column, NoMemory>
        requires { IsTrue (fits_column self value.now) }
        ensures shape { IfOk result (λ column. AreAlike column self) }
        ensures values { IfOk result (λ column. column.values ≡ self.values ++ value.now ∷ []) }
    {
        let Column {
            mut levels,
            mut leaf,
        } = self;
        push_value(&mut levels, 0, &mut leaf, value)?;
        Ok(Column { levels, leaf })
    }

    /// With values of another column of its shape behind, those from an index on and before another. On
    /// `NoMemory` the column is dropped.
    pub fn append(self, other: &Column, from: usize, to: usize) -> Result<Column, NoMemory>
        requires shape { AreAlike other.now self }
        requires order { from ≤ to }
        requires within { to ≤ length other.now.values }
        ensures shape { IfOk result (λ column. AreAlike column self) }
        ensures values { IfOk result (λ column. column.values
            ≡ self.values ++ take (to - from) (drop from other.now.values)) }
    {
        let Column { mut levels, leaf } = self;
        let others = other.levels.as_slice();
        let leaf = append_range(&mut levels, 0, leaf, others, &other.leaf, from, to)?;
        Ok(Column { levels, leaf })
    }

    /// How two values compare. It takes no memory.
    pub fn compare(&self, a: usize, b: usize) -> Ordering
        requires a { a < length self.now.values }
        requires b { b < length self.now.values }
        ensures { result ≡ value_cmp (slice_index_or self.now.values a Null)
            (slice_index_or self.now.values b Null) }
    {
        compare_nested(self.levels.as_slice(), &self.leaf, a, b)
    }

    /// How two values compare, NULL standing where there is none. It takes no memory.
    pub fn compare_or_null(&self, a: usize, b: usize) -> Ordering
        ensures { result ≡ value_cmp (slice_index_or self.now.values a Null)
            (slice_index_or self.now.values b Null) }
    {
        let count = self.len();
        if a >= count {
            return self.compare_null_to(b);
        }
        if b >= count {
            return self.compare_null_to(a).reverse();
        }
        self.compare(a, b)
    }

    /// How NULL compares to a value, or to NULL where there is none.
    fn compare_null_to(&self, index: usize) -> Ordering
        ensures { result ≡ value_cmp Null (slice_index_or self.now.values index Null) }
    {
        if index < self.len() {
            compare_null_nested(self.levels.as_slice(), &self.leaf, index)
        } else {
            Ordering::Equal
        }
    }

    /// Whether the two have one shape.
    pub fn is_like(&self, other: &Column) -> bool
        ensures { IsTrue result ↔ AreAlike self.now other.now }
    {
        self.levels.len() == other.levels.len() && self.leaf.is_like(&other.leaf)
    }

    /// With one value of another column of its shape behind. On `NoMemory` the column is dropped.
    fn append_one(self, other: &Column, index: usize) -> Result<Column, NoMemory>
        requires shape { AreAlike other.now self }
        requires there { index < length other.now.values }
        ensures shape { IfOk result (λ column. AreAlike column self) }
        ensures values { IfOk result (λ column. column.values
            ≡ self.values ++ slice_index_or other.now.values index Null ∷ []) }
    {
        match index.checked_add(1) {
            Some(end) => self.append(other, index, end),
            None => Err(NoMemory),
        }
    }

    /// The column without values, of the same shape.
    pub fn like(&self, alloc: Global) -> Result<Column, NoMemory>
        ensures shape { IfOk result (λ column. AreAlike column self.now) }
        ensures values { IfOk result (λ column. column.values ≡ []) }
    {
        let leaf = self.leaf.gather(alloc, &[])?;
        Column::empty(alloc, self.levels.len(), leaf)
    }

    /// The values of these indexes, in their order.
    pub fn gather(&self, alloc: Global, order: &[usize]) -> Result<Column, NoMemory>
        requires { All (λ index. index < length self.now.values) order.now }
        ensures shape { IfOk result (λ column. AreAlike column self.now) }
        ensures values { IfOk result (λ column. column.values
            ≡ map (λ index. slice_index_or self.now.values index Null) order.now) }
    {
        if self.levels.is_empty() {
            self.gather_leaf(alloc, order)
        } else {
            self.gather_arrays(alloc, order)
        }
    }

    /// Where no value is inside an array: one gather of the items.
    fn gather_leaf(&self, alloc: Global, order: &[usize]) -> Result<Column, NoMemory>
        requires flat { self.now.depth ≡ 0 }
        requires there { All (λ index. index < length self.now.values) order.now }
        ensures shape { IfOk result (λ column. AreAlike column self.now) }
        ensures values { IfOk result (λ column. column.values
            ≡ map (λ index. slice_index_or self.now.values index Null) order.now) }
    {
        let levels = Vec::new(alloc);
        let leaf = self.leaf.gather(alloc, order)?;
        Ok(Column { levels, leaf })
    }

    /// Array by array: of each level a range.
    fn gather_arrays(&self, alloc: Global, order: &[usize]) -> Result<Column, NoMemory>
        requires { All (λ index. index < length self.now.values) order.now }
        ensures shape { IfOk result (λ column. AreAlike column self.now) }
        ensures values { IfOk result (λ column. column.values
            ≡ map (λ index. slice_index_or self.now.values index Null) order.now) }
    {
        let mut column = self.like(alloc)?;
        for index in order {
            column = column.append_one(self, *index)?;
        }
        Ok(column)
    }
}

/// So many levels without arrays.
fn empty_levels(alloc: Global, depth: usize) -> Result<Vec<Sizes>, NoMemory>
    ensures { IfOk result (λ levels. levels.items ≡ replicate depth []) }
{
    let mut levels = Vec::with_capacity(alloc, depth)?;
    for _ in 0..depth {
        levels.push(Sizes::new(alloc))?;
    }
    Ok(levels)
}
