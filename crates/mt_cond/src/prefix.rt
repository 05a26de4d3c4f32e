//! Texts that begin with a prefix, and what comes after all of them.

ghost use Rattle.std.specs.Prelude.{◌≡◌, ℕ, ◌<◌, slice_index};
ghost use Rattle.mt_types.specs.declared.value.Value.TheVariants.{Text};
ghost use Rattle.mt_types.specs.Order.{value_cmp};
ghost use Rattle.mt_query.specs.Truth.{begins_with};
ghost use Rattle.mt_cond.specs.Masks.{is_before, is_whole_ff, next, text_before, value_begins};

use mt_types::Value;
use std::cmp::Ordering;

/// How a value compares with a text.
pub fn compare_text(value: &Value, text: &[u8]) -> Ordering
    ensures { result ≡ value_cmp value.now (Text text.now) }
{
    match value {
        Value::Num(_) | Value::Huge(_) => Ordering::Less,
        Value::Text(bytes) => bytes.as_slice().cmp(text),
        _ => Ordering::Greater,
    }
}

/// Whether a text begins with a prefix.
fn begins_with(prefix: &[u8], text: &[u8]) -> bool
    ensures { result ≡ begins_with prefix.now text.now }
{
    text.starts_with(prefix)
}

/// Whether a value is a text that begins with a prefix.
pub fn value_begins(prefix: &[u8], value: &Value) -> bool
    ensures { result ≡ value_begins prefix.now value.now }
{
    match value {
        Value::Text(bytes) => begins_with(prefix, bytes.as_slice()),
        _ => false,
    }
}

/// Whether no text comes after all those that begin so.
fn has_no_next(prefix: &[u8]) -> bool
    ensures { result ≡ is_whole_ff prefix.now }
{
    prefix.iter().all(|b| *b == 255)
}

/// A text's bytes are below 256.
fn are_bytes(text: &[u8])
    ensures { (k : ℕ) → slice_index text.now k < 256 }
{
    let _length = text.len();
}

/// Whether a text comes before the first one after all those that begin so.
fn is_text_before_next(prefix: &[u8], text: &[u8]) -> bool
    ensures { result ≡ text_before text.now (next prefix.now) }
{
    are_bytes(text);
    text.cmp(prefix) == Ordering::Less || begins_with(prefix, text)
}

/// The same of a value; after all texts come lists, states and NULL.
#[tactic(auto, using(crate::proofs::PrefixLemmas::texts_before, crate::proofs::PrefixLemmas::numbers_before, crate::proofs::PrefixLemmas::huge_before, crate::proofs::PrefixLemmas::null_before, crate::proofs::PrefixLemmas::lists_before, crate::proofs::PrefixLemmas::states_before))]
pub fn is_before_next(prefix: &[u8], value: &Value) -> bool
    ensures { result ≡ is_before value.now (next prefix.now) }
{
    match value {
        Value::Num(_) => true,
        Value::Huge(_) => true,
        Value::Text(text) => is_text_before_next(prefix, text.as_slice()),
        Value::Null => has_no_next(prefix),
        Value::List(_) => has_no_next(prefix),
        Value::State(_) => has_no_next(prefix),
    }
}
