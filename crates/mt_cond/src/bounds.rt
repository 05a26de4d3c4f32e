//! Ends and intervals whose values stand elsewhere, so that none is copied.

ghost use Rattle.std.specs.Prelude.{◌≡◌};
ghost use Rattle.mt_cond.specs.Intervals.{closed};
ghost use Rattle.mt_cond.specs.Views.{end_of, interval_of};

use crate::types::{End, Interval};
use mt_types::Value;

/// An end.
#[derive(Clone, Copy)]
pub enum Bound<'a> {
    /// Nowhere.
    Free,
    /// At this value, which is inside.
    At(&'a Value),
    /// At this value, which is outside.
    Past(&'a Value),
    /// At this number, which is inside.
    Number(i128),
    /// At this number from 2^127 on, which is inside.
    Huge(u128),
}

/// An interval.
#[derive(Clone, Copy)]
pub struct Bounds<'a> {
    /// The lower end.
    pub lo: Bound<'a>,
    /// The upper end.
    pub hi: Bound<'a>,
}

impl End {
    fn bound(&self) -> Bound<'_>
        ensures { end_of result ≡ self.now }
    {
        match self {
            End::Free => Bound::Free,
            End::At(value) => Bound::At(value),
            End::Past(value) => Bound::Past(value),
        }
    }
}

impl Interval {
    /// The same interval.
    pub fn bounds(&self) -> Bounds<'_>
        ensures { interval_of result ≡ self.now }
    {
        Bounds {
            lo: self.lo.bound(),
            hi: self.hi.bound(),
        }
    }
}

/// The values between two, both inside.
pub fn between<'a>(low: &'a Value, high: &'a Value) -> Bounds<'a>
    ensures { interval_of result ≡ closed low.now high.now }
{
    Bounds {
        lo: Bound::At(low),
        hi: Bound::At(high),
    }
}
