//! The order on values, and on rows.

ghost use Rattle.std.specs.Prelude.{◌≡◌, pos};
ghost use Rattle.std.specs.Ordering.{int_cmp, ordering_then};
ghost use Rattle.std.specs.declared.cmp.Ordering.TheVariants.{Less};
ghost use Rattle.mt_types.specs.Order.{value_cmp, values_cmp};

use crate::value::Value;
use std::cmp::Ordering;

/// Numbers, texts, lists, states, and NULL last. It takes no memory.
#[cycle(compare)]
pub fn compare(a: &Value, b: &Value) -> Ordering
    ensures { result ≡ value_cmp a.now b.now }
{
    match (a, b) {
        (Value::Num(m), Value::Num(n)) => m.cmp(n),
        (Value::Num(m), Value::Huge(n)) => compare_to_huge(*m, *n),
        (Value::Huge(m), Value::Num(n)) => compare_to_huge(*n, *m).reverse(),
        (Value::Huge(m), Value::Huge(n)) => m.cmp(n),
        (Value::Text(x), Value::Text(y)) => x.as_slice().cmp(y.as_slice()),
        (Value::List(x), Value::List(y)) => compare_items(x.as_slice(), y.as_slice()),
        (Value::State(s), Value::State(t)) => s.cmp(t),
        (Value::Null, Value::Null) => Ordering::Equal,
        (Value::Num(_) | Value::Huge(_), _) => Ordering::Less,
        (_, Value::Num(_) | Value::Huge(_)) => Ordering::Greater,
        (Value::Text(_), _) => Ordering::Less,
        (_, Value::Text(_)) => Ordering::Greater,
        (Value::List(_), _) => Ordering::Less,
        (_, Value::List(_)) => Ordering::Greater,
        (Value::State(_), _) => Ordering::Less,
        (_, Value::State(_)) => Ordering::Greater,
    }
}

/// A number up to 2^127 - 1 and one of any size, and the first before the second where they are equal.
fn compare_to_huge(number: i128, huge: u128) -> Ordering
    ensures { result ≡ ordering_then (int_cmp number (pos huge)) Less }
{
    if number < 0 || number.cast_unsigned() <= huge {
        Ordering::Less
    } else {
        Ordering::Greater
    }
}

/// Element by element, as rows and keys compare, a proper prefix first. It takes no memory.
#[cycle(compare)]
pub fn compare_items(a: &[Value], b: &[Value]) -> Ordering
    ensures { result ≡ values_cmp a.now b.now }
{
    for (i, x) in a.iter().enumerate() {
        if i >= b.len() {
            return Ordering::Greater;
        }
        match compare(x, &b[i]) {
            Ordering::Equal => {}
            other => return other,
        }
    }
    if a.len() < b.len() {
        Ordering::Less
    } else {
        Ordering::Equal
    }
}
