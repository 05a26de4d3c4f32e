//! One value, as it is shown.

ghost use Rattle.std.specs.Prelude.{◌≡◌, IfOk, pos};
ghost use Rattle.std.specs.Ordering.{int_cmp, ordering_then};
ghost use Rattle.std.specs.declared.cmp.Ordering.TheVariants.{Less};
ghost use Rattle.mt_types.specs.Fits.{number_value};
ghost use Rattle.mt_types.specs.Order.{value_cmp};
ghost use Rattle.mt_cells.specs.Seen.{alike_cmp, kind_rank, value_seen};

use mt_types::{AggState, List, NoMemory, Value, compare_items, copy_items};
use std::alloc::Global;
use std::cmp::Ordering;

/// One value, as it is shown: what it is, without its own memory.
#[derive(Clone, Copy)]
pub enum Seen<'a> {
    /// A whole number up to 2^127 - 1, or the days of a date or the seconds of a point in time since
    /// 1970-01-01.
    Num(i128),
    /// A whole number from 2^127 on.
    Huge(u128),
    /// The bytes of a text.
    Text(&'a [u8]),
    /// NULL.
    Null,
    /// The elements of an array.
    List(&'a [Value]),
    /// The state of an aggregate.
    State(AggState),
}

impl<'a> Seen<'a> {
    /// A value in memory, as it is shown.
    pub fn of(value: &'a Value) -> Seen<'a>
        ensures { value_seen result ≡ value.now }
    {
        match value {
            Value::Num(number) => Seen::Num(*number),
            Value::Huge(number) => Seen::Huge(*number),
            Value::Text(bytes) => Seen::Text(bytes.as_slice()),
            Value::Null => Seen::Null,
            Value::List(items) => Seen::List(items.as_slice()),
            Value::State(state) => Seen::State(*state),
        }
    }

    /// The value of a number: each number is one value.
    pub fn number(number: u128) -> Seen<'a>
        ensures { value_seen result ≡ number_value (pos number) }
    {
        if number < 0x8000_0000_0000_0000_0000_0000_0000_0000 {
            Seen::Num(number.cast_signed())
        } else {
            Seen::Huge(number)
        }
    }

    /// An equal value of one's own.
    pub fn copy(self, alloc: Global) -> Result<Value, NoMemory>
        ensures { IfOk result (λ value. value ≡ value_seen self.entry) }
    {
        match self {
            Seen::Num(number) => Ok(Value::Num(number)),
            Seen::Huge(number) => Ok(Value::Huge(number)),
            Seen::Text(bytes) => Ok(Value::Text(List::of_bytes(alloc, bytes)?)),
            Seen::Null => Ok(Value::Null),
            Seen::List(items) => Ok(Value::List(copy_items(alloc, items)?)),
            Seen::State(state) => Ok(Value::State(state)),
        }
    }
}

/// How two values compare: by their kinds, and then within the kind. It takes no memory.
pub fn compare_seen(a: Seen<'_>, b: Seen<'_>) -> Ordering
    ensures { result ≡ value_cmp (value_seen a.entry) (value_seen b.entry) }
{
    match kind_rank(a).cmp(&kind_rank(b)) {
        Ordering::Equal => compare_alike(a, b),
        order => order,
    }
}

/// The rank of a value's kind.
fn kind_rank(seen: Seen<'_>) -> u8
    ensures { result ≡ kind_rank seen.entry }
{
    match seen {
        Seen::Num(_) | Seen::Huge(_) => 0,
        Seen::Text(_) => 1,
        Seen::List(_) => 2,
        Seen::State(_) => 3,
        Seen::Null => 4,
    }
}

/// How two values of one kind compare.
fn compare_alike(a: Seen<'_>, b: Seen<'_>) -> Ordering
    ensures { result ≡ alike_cmp a.entry b.entry }
{
    match (a, b) {
        (Seen::Num(m), Seen::Num(n)) => m.cmp(&n),
        (Seen::Num(m), Seen::Huge(n)) => compare_to_huge(m, n),
        (Seen::Huge(m), Seen::Num(n)) => compare_to_huge(n, m).reverse(),
        (Seen::Huge(m), Seen::Huge(n)) => m.cmp(&n),
        (Seen::Text(x), Seen::Text(y)) => x.cmp(y),
        (Seen::List(x), Seen::List(y)) => compare_items(x, y),
        (Seen::State(s), Seen::State(t)) => s.cmp(&t),
        _ => Ordering::Equal,
    }
}

/// A number up to 2^127 - 1 and one of any size, and the first before the second where they are equal.
fn compare_to_huge(number: i128, huge: u128) -> Ordering
    ensures { result ≡ ordering_then (int_cmp number (pos huge)) Less }
{
    if number < 0 || number.cast_unsigned() <= huge {
        Ordering::Less
    } else {
        Ordering::Greater
    }
}
