//! The types of columns (docs/FORMAT.md, "Types and values").

ghost use Rattle.std.specs.Prelude.{◌≡◌, ◌↔◌, IfOk, IsTrue};
ghost use Rattle.mt_types.specs.Defaults.{default_of, empty_state};

mod error;
mod name;
mod number;
mod read_name;
mod scalar;

use crate::list::List;
use crate::memory::NoMemory;
use crate::value::{AggState, Value};
pub use error::TyError;
pub use number::number_size;
use sqlite_items::Boxed;
use std::alloc::Global;

/// The size of an integer in bits.
#[derive(Clone, Copy, PartialEq)]
pub enum Width {
    /// 8 bits, one byte in a file.
    W8,
    /// 16 bits, two bytes.
    W16,
    /// 32 bits, four bytes.
    W32,
    /// 64 bits, eight bytes.
    W64,
    /// 128 bits, sixteen bytes.
    W128,
}

/// An aggregate function that has an argument.
#[derive(Clone, Copy, Debug, PartialEq)]
pub enum Agg {
    /// The sum modulo 2^64.
    Sum,
    /// The least value.
    Min,
    /// The greatest value.
    Max,
}

impl Agg {
    /// The state over no row.
    pub fn empty_state(self) -> AggState
        ensures { result ≡ empty_state self }
    {
        match self {
            Agg::Sum => AggState::Sum(0),
            Agg::Min => AggState::Least(None),
            Agg::Max => AggState::Greatest(None),
        }
    }
}

/// The type of a column (ClickHouse: `IDataType`).
#[derive(Drop)]
pub enum Ty {
    /// `UInt8` to `UInt128`.
    UInt(Width),
    /// `Int8` to `Int128`.
    Int(Width),
    /// `FixedString(N)`: texts of exactly N bytes.
    FixedString(u32),
    /// `String`: texts of at most `MAX_TEXT` bytes.
    Str,
    /// `Date`: days from 1970-01-01 on, from 0 to 65535.
    Date,
    /// `DateTime('UTC')`: seconds from 1970-01-01 00:00:00 on, from 0 to 4294967295.
    Moment,
    /// `Nullable(T)`: the values of T, and NULL.
    Nullable(Boxed<Ty>),
    /// `Array(T)`: lists of at most `MAX_ELEMENTS` values of T.
    Array(Boxed<Ty>),
    /// `AggregateFunction(sum, T)`, `(min, T)` or `(max, T)`: states of an aggregate over T.
    State(Agg, Boxed<Ty>),
    /// `AggregateFunction(count)`: states of a count of rows.
    CountState,
}

impl Ty {
    /// Whether the two are one type.
    pub fn is_same(&self, other: &Ty) -> bool
        ensures { IsTrue result ↔ (self.now ≡ other.now) }
    {
        match (self, other) {
            (Ty::UInt(v), Ty::UInt(w)) => v == w,
            (Ty::Int(v), Ty::Int(w)) => v == w,
            (Ty::FixedString(m), Ty::FixedString(n)) => m == n,
            (Ty::Str, Ty::Str) => true,
            (Ty::Date, Ty::Date) => true,
            (Ty::Moment, Ty::Moment) => true,
            (Ty::Nullable(t), Ty::Nullable(u)) => t.get().is_same(u.get()),
            (Ty::Array(t), Ty::Array(u)) => t.get().is_same(u.get()),
            (Ty::State(a, t), Ty::State(b, u)) => a == b && t.get().is_same(u.get()),
            (Ty::CountState, Ty::CountState) => true,
            _ => false,
        }
    }

    /// The same type.
    pub fn copy(&self, alloc: Global) -> Result<Ty, NoMemory>
        ensures { IfOk result (λ copied. copied ≡ self.now) }
    {
        match self {
            Ty::UInt(width) => Ok(Ty::UInt(*width)),
            Ty::Int(width) => Ok(Ty::Int(*width)),
            Ty::FixedString(size) => Ok(Ty::FixedString(*size)),
            Ty::Str => Ok(Ty::Str),
            Ty::Date => Ok(Ty::Date),
            Ty::Moment => Ok(Ty::Moment),
            Ty::Nullable(inner) => Ok(Ty::Nullable(Boxed::new(alloc, inner.get().copy(alloc)?)?)),
            Ty::Array(inner) => Ok(Ty::Array(Boxed::new(alloc, inner.get().copy(alloc)?)?)),
            Ty::State(agg, inner) => {
                Ok(Ty::State(*agg, Boxed::new(alloc, inner.get().copy(alloc)?)?))
            }
            Ty::CountState => Ok(Ty::CountState),
        }
    }

    /// The value that stands where none is given, as under a NULL.
    pub fn default_of(&self, alloc: Global) -> Result<Value, NoMemory>
        ensures { IfOk result (λ value. value ≡ default_of self.now) }
    {
        match self {
            Ty::UInt(_) | Ty::Int(_) | Ty::Date | Ty::Moment => Ok(Value::Num(0)),
            Ty::FixedString(size) => {
                Ok(Value::Text(List::of(vec![in alloc; 0; *size as usize]?)))
            }
            Ty::Str => Ok(Value::Text(List::new(alloc))),
            Ty::Nullable(_) => Ok(Value::Null),
            Ty::Array(_) => Ok(Value::List(List::new(alloc))),
            Ty::State(agg, _) => Ok(Value::State(agg.empty_state())),
            Ty::CountState => Ok(Value::State(AggState::Count(0))),
        }
    }
}
