//! The items of a substream: of a fixed width, texts, or states.

ghost use Rattle.std.specs.Prelude.{◌≡◌, ◌++◌, ◌∷◌, [], ◌-◌, ◌<◌, ◌≤◌, ◌↔◌, length, take, drop, slice_index_or, map};
ghost use Rattle.std.specs.List.{list_all};
ghost use Rattle.std.specs.Prelude.{true, All, IfOk, IsTrue, OnOk, OnErr};
ghost use Rattle.mt_types.specs.Order.{value_cmp};
ghost use Rattle.mt_types.specs.declared.value.Value.TheVariants.{Null, State, Text};
ghost use Rattle.mt_cells.specs.Items.{OfCells, OfStates, OfTexts, default_item, fits_items, is_item, is_narrow_kind};
ghost use Rattle.mt_cells.specs.Items.{is_no_huge, items_in, kind_in};
ghost use Rattle.mt_cells.specs.Seen.{value_seen};

use crate::cells::Cells;
use crate::seen::{Seen, compare_seen};
use crate::texts::Texts;
use mt_types::{AggState, List, NoMemory};
use std::alloc::Global;
use std::cmp::Ordering;

/// The items of a substream. Arrays and NULLs are told elsewhere.
#[derive(Drop)]
pub enum Items {
    /// Items of a fixed width.
    Cells(Cells),
    /// Texts.
    Texts(Texts),
    /// States of aggregates.
    States(List<AggState>),
}

impl Items {
    /// How many there are.
    pub fn len(&self) -> usize
        ensures { result ≡ length (items_in self.now) }
    {
        match self {
            Items::Cells(cells) => cells.len(),
            Items::Texts(texts) => texts.len(),
            Items::States(states) => states.len(),
        }
    }

    /// Whether both stand for the same.
    pub fn is_like(&self, other: &Items) -> bool
        ensures { IsTrue result ↔ (kind_in self.now ≡ kind_in other.now) }
    {
        match (self, other) {
            (Items::Cells(a), Items::Cells(b)) => a.kind() == b.kind(),
            (Items::Texts(_), Items::Texts(_)) => true,
            (Items::States(_), Items::States(_)) => true,
            _ => false,
        }
    }

    /// No item is NULL. (A law: it does nothing.)
    pub fn are_not_null(&self)
        ensures { IsTrue (list_all is_item (items_in self.now)) }
    {
        match self {
            Items::Cells(cells) => cells.values_fit(),
            Items::Texts(_) => {}
            Items::States(_) => {}
        }
    }

    /// No number of at most 64 bits is a Huge. (A law: it does nothing.)
    pub fn are_narrow(&self)
        ensures { is_narrow_kind (kind_in self.now) ≡ true → IsTrue (list_all is_no_huge (items_in self.now)) }
    {
        match self {
            Items::Cells(cells) => cells.values_fit(),
            Items::Texts(_) => {}
            Items::States(_) => {}
        }
    }

    /// The value of an item. It takes no memory.
    pub fn seen(&self, index: usize) -> Seen<'_>
        requires { index < length (items_in self.now) }
        ensures { value_seen result ≡ slice_index_or (items_in self.now) index Null }
    {
        match self {
            Items::Cells(cells) => cells.seen(index),
            Items::Texts(texts) => Seen::Text(texts.get(index)),
            Items::States(states) => Seen::State(states.as_slice()[index]),
        }
    }

    /// Whether an item is the default, which stands under NULL.
    pub fn is_default(&self, index: usize) -> bool
        requires { index < length (items_in self.now) }
        ensures { IsTrue result ↔ (slice_index_or (items_in self.now) index Null ≡ default_item (kind_in self.now)) }
    {
        match self {
            Items::Cells(cells) => cells.is_default(index),
            Items::Texts(texts) => texts.is_empty_at(index),
            Items::States(states) => states.as_slice()[index] == AggState::Count(0),
        }
    }

    /// Appends a value.
    pub fn push(&mut self, value: Seen<'_>) -> Result<(), NoMemory>
        requires { IsTrue (fits_items (kind_in self.old) (value_seen value)) }
        ensures kind { kind_in self.new ≡ kind_in self.old }
        ensures ok { OnOk result (items_in self.new ≡ items_in self.old ++ value_seen value.entry ∷ []) }
        ensures err { OnErr result (items_in self.new ≡ items_in self.old) }
    {
        match self {
            Items::Cells(cells) => cells.push(value),
            Items::Texts(texts) => push_text(texts, value),
            Items::States(states) => push_state(states, value),
        }
    }

    /// Appends the default.
    pub fn push_default(&mut self) -> Result<(), NoMemory>
        ensures kind { kind_in self.new ≡ kind_in self.old }
        ensures ok { OnOk result (items_in self.new ≡ items_in self.old ++ default_item (kind_in self.old) ∷ []) }
        ensures err { OnErr result (items_in self.new ≡ items_in self.old) }
    {
        match self {
            Items::Cells(cells) => cells.push_default(),
            Items::Texts(texts) => texts.push(&[]),
            Items::States(states) => states.push(AggState::Count(0)),
        }
    }

    /// The items of these indexes, in their order.
    pub fn gather(&self, alloc: Global, order: &[usize]) -> Result<Items, NoMemory>
        requires { All (λ index. index < length (items_in self.now)) order.now }
        ensures kind { IfOk result (λ gathered. kind_in gathered ≡ kind_in self.now) }
        ensures values { IfOk result (λ gathered. items_in gathered
            ≡ map (λ index. slice_index_or (items_in self.now) index Null) order.now) }
    {
        match self {
            Items::Cells(cells) => Ok(Items::Cells(cells.gather(alloc, order)?)),
            Items::Texts(texts) => Ok(Items::Texts(texts.gather(alloc, order)?)),
            Items::States(states) => Ok(Items::States(gather_states(
                alloc,
                states.as_slice(),
                order,
            )?)),
        }
    }

    /// With items of others of the kind behind, those from an index on and before another. On `NoMemory`
    /// they are dropped.
    pub fn append(self, other: &Items, from: usize, to: usize) -> Result<Items, NoMemory>
        requires kind { kind_in other.now ≡ kind_in self }
        requires order { from ≤ to }
        requires within { to ≤ length (items_in other.now) }
        ensures kind { IfOk result (λ items. kind_in items ≡ kind_in self) }
        ensures values { IfOk result (λ items. items_in items
            ≡ items_in self ++ take (to - from) (drop from (items_in other.now))) }
    {
        match self {
            Items::Cells(cells) => more_cells(cells, other, from, to),
            Items::Texts(texts) => more_texts(texts, other, from, to),
            Items::States(states) => more_states(states, other, from, to),
        }
    }

    /// How two items compare.
    pub fn compare(&self, a: usize, b: usize) -> Ordering
        requires a { a < length (items_in self.now) }
        requires b { b < length (items_in self.now) }
        ensures { result ≡ value_cmp (slice_index_or (items_in self.now) a Null)
            (slice_index_or (items_in self.now) b Null) }
    {
        compare_seen(self.seen(a), self.seen(b))
    }
}

fn more_cells(cells: Cells, other: &Items, from: usize, to: usize) -> Result<Items, NoMemory>
    requires kind { kind_in other.now ≡ OfCells cells.kind }
    requires order { from ≤ to }
    requires within { to ≤ length (items_in other.now) }
    ensures kind { IfOk result (λ items. kind_in items ≡ OfCells cells.kind) }
    ensures values { IfOk result (λ items. items_in items
        ≡ cells.values ++ take (to - from) (drop from (items_in other.now))) }
{
    let mut cells = cells;
    match other {
        Items::Cells(more) => cells.append(more, from, to)?,
        _ => unreachable!(),
    }
    Ok(Items::Cells(cells))
}

fn more_texts(texts: Texts, other: &Items, from: usize, to: usize) -> Result<Items, NoMemory>
    requires kind { kind_in other.now ≡ OfTexts }
    requires order { from ≤ to }
    requires within { to ≤ length (items_in other.now) }
    ensures kind { IfOk result (λ items. kind_in items ≡ OfTexts) }
    ensures values { IfOk result (λ items. items_in items
        ≡ map (λ text. Text text) texts ++ take (to - from) (drop from (items_in other.now))) }
{
    match other {
        Items::Texts(more) => Ok(Items::Texts(texts.append(more, from, to)?)),
        _ => unreachable!(),
    }
}

fn more_states(
    states: List<AggState>,
    other: &Items,
    from: usize,
    to: usize,
) -> Result<Items, NoMemory>
    requires kind { kind_in other.now ≡ OfStates }
    requires order { from ≤ to }
    requires within { to ≤ length (items_in other.now) }
    ensures kind { IfOk result (λ items. kind_in items ≡ OfStates) }
    ensures values { IfOk result (λ items. items_in items
        ≡ map (λ state. State state) states ++ take (to - from) (drop from (items_in other.now))) }
{
    match other {
        Items::States(more) => Ok(Items::States(states_behind(states, more.as_slice(), from, to)?)),
        _ => unreachable!(),
    }
}

/// States with others behind, those from an index on and before another.
fn states_behind(
    states: List<AggState>,
    more: &[AggState],
    from: usize,
    to: usize,
) -> Result<List<AggState>, NoMemory>
    requires order { from ≤ to }
    requires within { to ≤ length more.now }
    ensures { IfOk result (λ all. all ≡ states ++ take (to - from) (drop from more.now)) }
{
    let mut states = states;
    for index in from..to {
        states.push(more[index])?;
    }
    Ok(states)
}

/// The states of these indexes, in their order.
fn gather_states(
    alloc: Global,
    states: &[AggState],
    order: &[usize],
) -> Result<List<AggState>, NoMemory>
    requires { All (λ index. index < length states.now) order.now }
    ensures { IfOk result (λ gathered. map (λ state. State state) gathered
        ≡ map (λ index. slice_index_or (map (λ state. State state) states.now) index Null) order.now) }
{
    let mut gathered = List::with_capacity(alloc, order.len())?;
    for index in order {
        gathered.push(states[*index])?;
    }
    Ok(gathered)
}

fn push_text(texts: &mut Texts, value: Seen<'_>) -> Result<(), NoMemory>
    requires { IsTrue (fits_items OfTexts (value_seen value)) }
    ensures ok { OnOk result (map (λ text. Text text) texts.new
        ≡ map (λ text. Text text) texts.old ++ value_seen value.entry ∷ []) }
    ensures err { OnErr result (texts.new ≡ texts.old) }
{
    match value {
        Seen::Text(text) => texts.push(text),
        _ => unreachable!(),
    }
}

fn push_state(states: &mut List<AggState>, value: Seen<'_>) -> Result<(), NoMemory>
    requires { IsTrue (fits_items OfStates (value_seen value)) }
    ensures ok { OnOk result (map (λ state. State state) states.new
        ≡ map (λ state. State state) states.old ++ value_seen value.entry ∷ []) }
    ensures err { OnErr result (states.new ≡ states.old) }
{
    match value {
        Seen::State(state) => states.push(state),
        _ => unreachable!(),
    }
}
