//! What a condition can be on the rows of a box.

ghost use Rattle.std.specs.Prelude.{◌≡◌, List, IsTrue};
ghost use Rattle.std.specs.Option.{option_map};
ghost use Rattle.mt_table.specs.declared.column.Column.{Column};
ghost use Rattle.mt_defs.specs.Rows.{Row, RowFits};
ghost use Rattle.mt_query.specs.Truth.{truth_of};
ghost use Rattle.mt_query.specs.Suits.{cond_suits};
ghost use Rattle.mt_cond.specs.Intervals.{between_sides, interval_at, lies_in};
ghost use Rattle.mt_cond.specs.Masks.{allows, any_pair, cmp_mask, in_mask, mask_by, mask_of, sided, starts_mask};
ghost use Rattle.mt_cond.specs.Views.{box_of, interval_of};

use crate::bounds::{Bounds, between};
use crate::types::{MaskPair, Side};
use crate::walk::Walk;
use mt_query::{Cond, Op};
use mt_types::Value;

/// A box, wherever its values stand.
#[derive(Clone, Copy)]
pub enum Sides<'a> {
    /// These sides.
    Given(&'a [Side]),
    /// One side.
    One(u32, Bounds<'a>),
    /// A box of a cover.
    Covering(Walk<'a>),
}

/// The interval of a column, if the sides have one.
fn interval_at(sides: &[Side], column: u32) -> Option<Bounds<'_>>
    ensures { option_map interval_of result ≡ interval_at sides.now column }
{
    for side in sides {
        if side.column == column {
            return Some(side.interval.bounds());
        }
    }
    None
}

impl<'a> Sides<'a> {
    /// The interval of a column, if the box has one.
    fn at(self, column: u32) -> Option<Bounds<'a>>
        ensures { option_map interval_of result ≡ box_of self.entry column }
    {
        match self {
            Sides::Given(sides) => interval_at(sides, column),
            Sides::One(own, bounds) => { if own == column { Some(bounds) } else { None } }
            Sides::Covering(walk) => walk.side(column),
        }
    }

    /// The mask of a comparison with a column.
    #[inline(never)]
    fn cmp_mask(&self, column: u32, op: Op, literal: &Value) -> MaskPair
        ensures { result ≡ sided (λ i. cmp_mask op i literal.now) (box_of self.now column) }
    {
        match self.at(column) {
            Some(bounds) => bounds.cmp_mask(op, literal),
            None => any_pair(),
        }
    }

    /// The mask of IN of a column.
    #[inline(never)]
    fn in_mask(&self, column: u32, literals: &[Value]) -> MaskPair
        ensures { result ≡ sided (λ i. in_mask i literals.now) (box_of self.now column) }
    {
        match self.at(column) {
            Some(bounds) => bounds.in_mask(literals),
            None => any_pair(),
        }
    }

    /// The mask of startsWith of a column.
    #[inline(never)]
    fn starts_mask(&self, column: u32, prefix: &[u8]) -> MaskPair
        ensures { result ≡ sided (starts_mask prefix.now) (box_of self.now column) }
    {
        match self.at(column) {
            Some(bounds) => bounds.starts_mask(prefix),
            None => any_pair(),
        }
    }
}

fn any_pair() -> MaskPair
    ensures { result ≡ any_pair }
{
    MaskPair {
        may_true: true,
        may_false: true,
    }
}

/// What a condition can be on the rows of a box. A condition may be joined of some 9,000, so a call takes
/// little of the stack: the box is lent, and the masks of single conditions aren't inlined.
pub fn mask_by(cond: &Cond, sides: &Sides<'_>) -> MaskPair
    ensures { result ≡ mask_by cond.now (box_of sides.now) }
{
    match cond {
        Cond::Cmp {
            column,
            op,
            literal,
        } => sides.cmp_mask(*column, *op, literal),
        Cond::OneOf { column, literals } => sides.in_mask(*column, literals.as_slice()),
        Cond::Starts { column, prefix } => sides.starts_mask(*column, prefix.as_slice()),
        Cond::IsNull { .. } | Cond::Has { .. } => any_pair(),
        Cond::And(a, b) => {
            let a = mask_by(a.get(), sides);
            let b = mask_by(b.get(), sides);
            MaskPair {
                may_true: a.may_true && b.may_true,
                may_false: a.may_false || b.may_false,
            }
        }
        Cond::Or(a, b) => {
            let a = mask_by(a.get(), sides);
            let b = mask_by(b.get(), sides);
            MaskPair {
                may_true: a.may_true || b.may_true,
                may_false: a.may_false && b.may_false,
            }
        }
        Cond::Not(a) => {
            let a = mask_by(a.get(), sides);
            MaskPair {
                may_true: a.may_false,
                may_false: a.may_true,
            }
        }
    }
}

/// What a condition can be on the rows of a box (ClickHouse: `KeyCondition::checkInHyperrectangle`). It
/// takes no memory.
pub fn mask(cond: &Cond, sides: &[Side]) -> MaskPair
    ensures exact { result ≡ mask_of cond.now sides.now }

    // Whatever the condition is on a row of the box, the mask allows.
    ensures sound { (columns : List Column) (row : Row)
        → IsTrue (cond_suits columns cond.now) → RowFits columns row
        → IsTrue (lies_in sides.now row) → IsTrue (allows result (truth_of cond.now row)) }
{
    let sides = Sides::Given(sides);
    mask_by(cond, &sides)
}

/// The same of the box of one column, whose values are between two, both inside. It takes no memory.
pub fn mask_between(cond: &Cond, column: u32, low: &Value, high: &Value) -> MaskPair
    ensures exact { result ≡ mask_of cond.now (between_sides column low.now high.now) }
    ensures sound { (columns : List Column) (row : Row)
        → IsTrue (cond_suits columns cond.now) → RowFits columns row
        → IsTrue (lies_in (between_sides column low.now high.now) row)
        → IsTrue (allows result (truth_of cond.now row)) }
{
    let sides = Sides::One(column, between(low, high));
    mask_by(cond, &sides)
}
