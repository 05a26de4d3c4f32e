//! Tests of one value. None takes memory.

ghost use Rattle.std.specs.Prelude.{◌≡◌, take, not, if◌then◌else◌};
ghost use Rattle.std.specs.List.{list_any};
ghost use Rattle.mt_types.specs.declared.value.Value.{out-Value};
ghost use Rattle.mt_types.specs.Fits.{null_at, text_at, list_at};
ghost use Rattle.mt_types.specs.Order.{value_cmp};
ghost use Rattle.mt_look.specs.Seen.{value_seen};
ghost use Rattle.mt_query.specs.Truth.{begins_with, holds, is_same, null_is, unless_null};

use mt_look::Seen;
use mt_query::Op;
use mt_types::{Value, compare};
use std::cmp::Ordering;

fn is_null(seen: Seen) -> bool
    ensures { result ≡ null_at (out-Value (value_seen seen.entry)) }
{
    match seen {
        Seen::Null => true,
        Seen::Held(value) => match value {
            Value::Null => true,
            _ => false,
        },
        _ => false,
    }
}

/// Whether the value is NULL, or is not where that is asked.
pub fn null_is(negated: bool, seen: Seen) -> bool
    ensures { result ≡ null_is negated (value_seen seen.entry) }
{
    if negated {
        !is_null(seen)
    } else {
        is_null(seen)
    }
}

/// How the value stands to a literal in the order on values.
fn compare_seen(seen: Seen, literal: &Value) -> Ordering
    ensures { result ≡ value_cmp (value_seen seen.entry) literal.now }
{
    match seen {
        Seen::Num(m) => match literal {
            Value::Num(n) => m.cmp(n),
            _ => compare(&Value::Num(m), literal),
        },
        Seen::Huge(m) => compare(&Value::Huge(m), literal),
        Seen::Text(a) => match literal {
            Value::Num(_) | Value::Huge(_) => Ordering::Greater,
            Value::Text(b) => a.cmp(b.as_slice()),
            _ => Ordering::Less,
        },
        Seen::Null => match literal {
            Value::Null => Ordering::Equal,
            _ => Ordering::Greater,
        },
        Seen::Held(value) => compare(value, literal),
    }
}

fn holds(op: Op, order: Ordering) -> bool
    ensures { result ≡ holds op order }
{
    match op {
        Op::Eq => order.is_eq(),
        Op::Ne => order.is_ne(),
        Op::Lt => order.is_lt(),
        Op::Le => order.is_le(),
        Op::Gt => order.is_gt(),
        Op::Ge => order.is_ge(),
    }
}

/// The value compared with a literal; None on NULL.
pub fn compared(seen: Seen, op: Op, literal: &Value) -> Option<bool>
    ensures { result ≡ unless_null (value_seen seen.entry)
        (holds op (value_cmp (value_seen seen.entry) literal.now)) }
{
    if is_null(seen) {
        None
    } else {
        Some(holds(op, compare_seen(seen, literal)))
    }
}

/// Whether the value is one of some literals; None on NULL.
pub fn one_of(seen: Seen, literals: &[Value]) -> Option<bool>
    ensures { result ≡ unless_null (value_seen seen.entry)
        (list_any (is_same (value_seen seen.entry)) literals.now) }
{
    if is_null(seen) {
        return None;
    }
    for literal in literals {
        if compare_seen(seen, literal).is_eq() {
            return Some(true);
        }
    }
    Some(false)
}

/// Whether the value is a text that begins with a prefix; None on NULL.
pub fn starts(seen: Seen, prefix: &[u8]) -> Option<bool>
    ensures { result ≡ unless_null (value_seen seen.entry)
        (text_at (begins_with prefix.now) (out-Value (value_seen seen.entry))) }
{
    match seen {
        Seen::Num(_) | Seen::Huge(_) => Some(false),
        Seen::Text(bytes) => Some(begins_with(prefix, bytes)),
        Seen::Null => None,
        Seen::Held(value) => match value {
            Value::Text(bytes) => Some(begins_with(prefix, bytes.as_slice())),
            Value::Null => None,
            _ => Some(false),
        },
    }
}

fn begins_with(prefix: &[u8], bytes: &[u8]) -> bool
    ensures { result ≡ begins_with prefix.now bytes.now }
{
    bytes.starts_with(prefix)
}

/// Whether the value is an array that has an element equal to the literal.
pub fn has(seen: Seen, literal: &Value) -> bool
    ensures { result ≡ list_at (list_any (λ item. is_same item literal.now))
        (out-Value (value_seen seen.entry)) }
{
    match seen {
        Seen::Held(value) => match value {
            Value::List(items) => any_same(items.as_slice(), literal),
            _ => false,
        },
        _ => false,
    }
}

fn any_same(items: &[Value], literal: &Value) -> bool
    ensures { result ≡ list_any (λ item. is_same item literal.now) items.now }
{
    for item in items {
        if compare(item, literal).is_eq() {
            return true;
        }
    }
    false
}
