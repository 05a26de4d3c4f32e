//! The values of columns (docs/FORMAT.md, "Types and values").

ghost use Rattle.std.specs.Prelude.{◌≡◌, IfOk, pos};
ghost use Rattle.mt_types.specs.Fits.{number_value};

use crate::list::List;
use crate::memory::NoMemory;
use std::alloc::Global;

/// What an aggregate has gathered so far (ClickHouse: the state of an `IAggregateFunction`).
#[derive(Clone, Copy, PartialEq, Eq, PartialOrd, Ord)]
pub enum AggState {
    /// The number of rows, modulo 2^64.
    Count(u64),
    /// The sum modulo 2^64; over a signed type it is read in two's complement.
    Sum(u64),
    /// The least number, or none over no row.
    Least(Option<i128>),
    /// The greatest number, or none over no row.
    Greatest(Option<i128>),
}

/// One value of a column (ClickHouse: `Field`).
#[derive(Drop)]
pub enum Value {
    /// A whole number up to 2^127 - 1, or the days of a date or the seconds of a point in time since
    /// 1970-01-01.
    Num(i128),
    /// A whole number from 2^127 on.
    Huge(u128),
    /// The bytes of a `String` or a `FixedString`.
    Text(List<u8>),
    /// NULL.
    Null,
    /// The elements of an array.
    List(List<Value>),
    /// The state of an aggregate.
    State(AggState),
}

/// One value per column, in the columns' order.
pub type Row = List<Value>;

impl Value {
    /// The value of a number: each number is one value.
    pub fn number(number: u128) -> Value
        ensures { result ≡ number_value (pos number) }
    {
        if number < 0x8000_0000_0000_0000_0000_0000_0000_0000 {
            Value::Num(number.cast_signed())
        } else {
            Value::Huge(number)
        }
    }

    /// An equal value.
    #[cycle(copy)]
    pub fn copy(&self, alloc: Global) -> Result<Value, NoMemory>
        ensures { IfOk result (λ copied. copied ≡ self.now) }
    {
        match self {
            Value::Num(number) => Ok(Value::Num(*number)),
            Value::Huge(number) => Ok(Value::Huge(*number)),
            Value::Text(bytes) => Ok(Value::Text(List::of_bytes(alloc, bytes.as_slice())?)),
            Value::Null => Ok(Value::Null),
            Value::List(items) => Ok(Value::List(copy_items(alloc, items.as_slice())?)),
            Value::State(state) => Ok(Value::State(*state)),
        }
    }
}

/// An equal list of values, as of a row or of an array's elements.
#[cycle(copy)]
pub fn copy_items(alloc: Global, items: &[Value]) -> Result<List<Value>, NoMemory>
    ensures { IfOk result (λ copied. copied ≡ items.now) }
{
    let mut copied = List::with_capacity(alloc, items.len())?;
    for item in items {
        copied.push(item.copy(alloc)?)?;
    }
    Ok(copied)
}
