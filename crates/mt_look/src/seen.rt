//! One value, as it is shown.

ghost use Rattle.std.specs.Prelude.{◌≡◌, IfOk};
ghost use Rattle.mt_look.specs.Seen.{value_seen};

use mt_types::{List, NoMemory, Value};
use std::alloc::Global;

/// One value, as it is shown: a number, a text or NULL, or any value that lies in memory.
#[derive(Clone, Copy)]
pub enum Seen<'a> {
    /// A whole number up to 2^127 - 1, or the days of a date or the seconds of a moment since 1970-01-01.
    Num(i128),
    /// A whole number from 2^127 on.
    Huge(u128),
    /// The bytes of a text.
    Text(&'a [u8]),
    /// NULL.
    Null,
    /// A value that lies in memory.
    Held(&'a Value),
}

impl<'a> Seen<'a> {
    /// A value in memory, as it is shown.
    pub fn of(value: &'a Value) -> Seen<'a>
        ensures { value_seen result ≡ value.now }
    {
        match value {
            Value::Num(number) => Seen::Num(*number),
            Value::Huge(number) => Seen::Huge(*number),
            Value::Text(bytes) => Seen::Text(bytes.as_slice()),
            Value::Null => Seen::Null,
            other => Seen::Held(other),
        }
    }

    /// An equal value of one's own.
    pub fn copy(self, alloc: Global) -> Result<Value, NoMemory>
        ensures { IfOk result (λ value. value ≡ value_seen self.entry) }
    {
        match self {
            Seen::Num(number) => Ok(Value::Num(number)),
            Seen::Huge(number) => Ok(Value::Huge(number)),
            Seen::Text(bytes) => Ok(Value::Text(List::of_bytes(alloc, bytes)?)),
            Seen::Null => Ok(Value::Null),
            Seen::Held(value) => value.copy(alloc),
        }
    }
}
