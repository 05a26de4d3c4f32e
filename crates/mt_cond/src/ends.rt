//! How an end of an interval stands to a value, a prefix, or the other end.

ghost use Rattle.std.specs.Prelude.{◌≡◌};
ghost use Rattle.mt_cond.specs.declared.types.End.TheVariants.{At, Past};
ghost use Rattle.mt_cond.specs.Intervals.{above_low, at_value, below_high, high_greater, is_empty_text, low_less};
ghost use Rattle.mt_cond.specs.Masks.{end_begins, reaches, starts_before};
ghost use Rattle.mt_cond.specs.Cover.{ends_empty, is_void};
ghost use Rattle.mt_cond.specs.Views.{end_of, interval_of};

use crate::bounds::{Bound, Bounds};
use crate::prefix::{compare_text, is_before_next, value_begins};
use mt_types::{Value, compare};
use std::cmp::Ordering;

fn is_empty(value: &Value) -> bool
    ensures { result ≡ is_empty_text value.now }
{
    match value {
        Value::Text(bytes) => bytes.len() == 0,
        _ => false,
    }
}

impl Bound<'_> {
    /// As a lower end: the value isn't below it.
    pub fn is_under(self, value: &Value) -> bool
        ensures { result ≡ above_low (end_of self.entry) value.now }
    {
        match self {
            Bound::Free => true,
            Bound::At(end) => compare(end, value) != Ordering::Greater,
            Bound::Number(n) => compare(&Value::Num(n), value) != Ordering::Greater,
            Bound::Huge(n) => compare(&Value::Huge(n), value) != Ordering::Greater,
            Bound::Past(end) => compare(end, value) == Ordering::Less,
        }
    }

    /// As an upper end: the value isn't above it.
    pub fn is_over(self, value: &Value) -> bool
        ensures { result ≡ below_high (end_of self.entry) value.now }
    {
        match self {
            Bound::Free => true,
            Bound::At(end) => compare(value, end) != Ordering::Greater,
            Bound::Number(n) => compare(value, &Value::Num(n)) != Ordering::Greater,
            Bound::Huge(n) => compare(value, &Value::Huge(n)) != Ordering::Greater,
            Bound::Past(end) => compare(value, end) == Ordering::Less,
        }
    }

    /// As a lower end: something below the value may be inside.
    pub fn is_less(self, value: &Value) -> bool
        ensures { result ≡ low_less (end_of self.entry) value.now }
    {
        match self {
            Bound::Free => !is_empty(value),
            Bound::At(end) | Bound::Past(end) => compare(end, value) == Ordering::Less,
            Bound::Number(n) => compare(&Value::Num(n), value) == Ordering::Less,
            Bound::Huge(n) => compare(&Value::Huge(n), value) == Ordering::Less,
        }
    }

    /// As an upper end: something above the value may be inside.
    pub fn is_greater(self, value: &Value) -> bool
        ensures { result ≡ high_greater (end_of self.entry) value.now }
    {
        match self {
            Bound::Free => true,
            Bound::At(end) | Bound::Past(end) => compare(end, value) == Ordering::Greater,
            Bound::Number(n) => compare(&Value::Num(n), value) == Ordering::Greater,
            Bound::Huge(n) => compare(&Value::Huge(n), value) == Ordering::Greater,
        }
    }

    /// The end is at the value, which is inside.
    pub fn is_at(self, value: &Value) -> bool
        ensures { result ≡ at_value (end_of self.entry) value.now }
    {
        match self {
            Bound::At(end) => compare(end, value) == Ordering::Equal,
            Bound::Number(n) => compare(&Value::Num(n), value) == Ordering::Equal,
            Bound::Huge(n) => compare(&Value::Huge(n), value) == Ordering::Equal,
            _ => false,
        }
    }

    /// As an upper end: a text that begins with the prefix may be inside.
    pub fn reaches(self, prefix: &[u8]) -> bool
        ensures { result ≡ reaches prefix.now (end_of self.entry) }
    {
        match self {
            Bound::Free => true,
            Bound::At(end) => compare_text(end, prefix) != Ordering::Less,
            Bound::Number(_) | Bound::Huge(_) => false,
            Bound::Past(end) => compare_text(end, prefix) == Ordering::Greater,
        }
    }

    /// As a lower end: a text that begins with the prefix may be inside.
    pub fn starts_before(self, prefix: &[u8]) -> bool
        ensures { result ≡ starts_before prefix.now (end_of self.entry) }
    {
        match self {
            Bound::Free => true,
            Bound::At(end) | Bound::Past(end) => is_before_next(prefix, end),
            Bound::Number(_) | Bound::Huge(_) => true,
        }
    }

    /// The end's value is a text that begins with the prefix.
    pub fn begins(self, prefix: &[u8]) -> bool
        ensures { result ≡ end_begins prefix.now (end_of self.entry) }
    {
        match self {
            Bound::Free => false,
            Bound::At(end) | Bound::Past(end) => value_begins(prefix, end),
            Bound::Number(_) | Bound::Huge(_) => false,
        }
    }

    /// As an upper end: nothing is inside from a value on.
    fn is_void_from(self, low: &Value) -> bool
        ensures { result ≡ ends_empty (At low.now) (end_of self.entry) }
    {
        match self {
            Bound::Free => false,
            Bound::At(end) => compare(low, end) == Ordering::Greater,
            Bound::Number(n) => compare(low, &Value::Num(n)) == Ordering::Greater,
            Bound::Huge(n) => compare(low, &Value::Huge(n)) == Ordering::Greater,
            Bound::Past(end) => compare(low, end) != Ordering::Less,
        }
    }

    /// As an upper end: nothing is inside past a value.
    fn is_void_past(self, low: &Value) -> bool
        ensures { result ≡ ends_empty (Past low.now) (end_of self.entry) }
    {
        match self {
            Bound::Free => false,
            Bound::At(end) | Bound::Past(end) => compare(low, end) != Ordering::Less,
            Bound::Number(n) => compare(low, &Value::Num(n)) != Ordering::Less,
            Bound::Huge(n) => compare(low, &Value::Huge(n)) != Ordering::Less,
        }
    }
}

impl Bounds<'_> {
    /// Whether the interval is empty.
    pub fn is_void(self) -> bool
        ensures { result ≡ is_void (interval_of self.entry) }
    {
        match self.lo {
            Bound::Free => false,
            Bound::At(low) => self.hi.is_void_from(low),
            Bound::Number(n) => self.hi.is_void_from(&Value::Num(n)),
            Bound::Huge(n) => self.hi.is_void_from(&Value::Huge(n)),
            Bound::Past(low) => self.hi.is_void_past(low),
        }
    }
}
