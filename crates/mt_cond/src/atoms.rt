//! The masks of conditions on one column (docs/LANGUAGE.md, "Masks and covers").

ghost use Rattle.std.specs.Prelude.{◌≡◌};
ghost use Rattle.std.specs.List.{list_any};
ghost use Rattle.mt_cond.specs.Intervals.{is_in, is_point};
ghost use Rattle.mt_cond.specs.Masks.{cmp_mask, in_mask, starts_mask};
ghost use Rattle.mt_cond.specs.Views.{interval_of};

use crate::bounds::Bounds;
use crate::types::MaskPair;
use mt_query::Op;
use mt_types::Value;

impl Bounds<'_> {
    /// Whether the value is inside.
    fn has(self, value: &Value) -> bool
        ensures { result ≡ is_in (interval_of self.entry) value.now }
    {
        self.lo.is_under(value) && self.hi.is_over(value)
    }

    /// Whether nothing but the value is inside.
    fn is_point(self, value: &Value) -> bool
        ensures { result ≡ is_point (interval_of self.entry) value.now }
    {
        self.lo.is_at(value) && self.hi.is_at(value)
    }

    /// Whether one of the values is inside.
    fn has_any(self, values: &[Value]) -> bool
        ensures { result ≡ list_any (is_in (interval_of self.entry)) values.now }
    {
        for value in values {
            if self.has(value) {
                return true;
            }
        }
        false
    }

    /// Whether nothing but one of the values is inside.
    fn is_any_point(self, values: &[Value]) -> bool
        ensures { result ≡ list_any (is_point (interval_of self.entry)) values.now }
    {
        for value in values {
            if self.is_point(value) {
                return true;
            }
        }
        false
    }

    /// What a comparison can be on the values inside.
    pub fn cmp_mask(self, op: Op, literal: &Value) -> MaskPair
        ensures { result ≡ cmp_mask op (interval_of self.entry) literal.now }
    {
        match op {
            Op::Eq => MaskPair {
                may_true: self.has(literal),
                may_false: !self.is_point(literal),
            },
            Op::Ne => MaskPair {
                may_true: !self.is_point(literal),
                may_false: self.has(literal),
            },
            Op::Lt => MaskPair {
                may_true: self.lo.is_less(literal),
                may_false: self.has(literal) || self.hi.is_greater(literal),
            },
            Op::Le => MaskPair {
                may_true: self.has(literal) || self.lo.is_less(literal),
                may_false: self.hi.is_greater(literal),
            },
            Op::Gt => MaskPair {
                may_true: self.hi.is_greater(literal),
                may_false: self.has(literal) || self.lo.is_less(literal),
            },
            Op::Ge => MaskPair {
                may_true: self.has(literal) || self.hi.is_greater(literal),
                may_false: self.lo.is_less(literal),
            },
        }
    }

    /// What IN can be on the values inside.
    pub fn in_mask(self, literals: &[Value]) -> MaskPair
        ensures { result ≡ in_mask (interval_of self.entry) literals.now }
    {
        MaskPair {
            may_true: self.has_any(literals),
            may_false: !self.is_any_point(literals),
        }
    }

    /// What startsWith can be on the values inside.
    pub fn starts_mask(self, prefix: &[u8]) -> MaskPair
        ensures { result ≡ starts_mask prefix.now (interval_of self.entry) }
    {
        MaskPair {
            may_true: self.hi.reaches(prefix) && self.lo.starts_before(prefix),
            may_false: !(self.lo.begins(prefix) && self.hi.begins(prefix)),
        }
    }
}
