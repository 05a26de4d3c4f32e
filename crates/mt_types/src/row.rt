//! Rows and keys as keys of maps.

ghost use Rattle.std.specs.Prelude.{◌≡◌, refl, fold};
ghost use Rattle.std.specs.Ordering.{as_partial_cmp, eq_by_cmp};
ghost use Rattle.std.specs.Cmp.{partial_equiv_from_equiv, partial_order_from_agreeing_total};
ghost use Rattle.std.proofs.lemmas.Cmp.{eq_by_cmp_equiv};
ghost use Rattle.mt_types.specs.Hashed.{row_writes, row_writes_respects_eq};
ghost use Rattle.mt_types.specs.Hashed.{state_writes, value_writes};
ghost use Rattle.mt_types.specs.Order.{values_cmp};
ghost use Rattle.mt_types.specs.Ordered.{values_total};

use crate::list::List;
use crate::order::compare_items;
use crate::value::{AggState, Value};
use std::cmp::Ordering;
use std::hash::{Hash, Hasher};

impl PartialEq for List<Value> {
    ghost eq = { eq_by_cmp values_cmp };

    ghost laws = { partial_equiv_from_equiv (eq_by_cmp_equiv values_total) };

    fn eq(&self, other: &List<Value>) -> bool {
        compare_items(self.as_slice(), other.as_slice()).is_eq()
    }
}

impl Eq for List<Value> {
    ghost laws = { eq_by_cmp_equiv values_total };
}

impl PartialOrd for List<Value> {
    ghost partial_cmp = { as_partial_cmp values_cmp };

    ghost laws = { partial_order_from_agreeing_total values_cmp values_total
        (λ x y. refl) (λ x y. refl) };

    fn partial_cmp(&self, other: &List<Value>) -> Option<Ordering> {
        Some(compare_items(self.as_slice(), other.as_slice()))
    }
}

impl Ord for List<Value> {
    ghost cmp = { values_cmp };

    ghost total = { values_total };

    ghost matches_partial_cmp = { λ x y. refl };

    ghost matches_eq = { λ x y. refl };

    fn cmp(&self, other: &List<Value>) -> Ordering {
        compare_items(self.as_slice(), other.as_slice())
    }
}

impl Hash for List<Value> {
    ghost hash_input = { row_writes };

    ghost respects_eq = { row_writes_respects_eq };

    fn hash<H: Hasher>(&self, state: &mut H) {
        hash_items(self.as_slice(), state);
    }
}

#[cycle(hash)]
fn hash_items<H: Hasher>(items: &[Value], state: &mut H)
    ensures { state.new ≡ fold H.write state.old (row_writes items.now) }
{
    for item in items {
        hash_value(item, state);
    }
}

/// Feeds all of a value to a hash, so that values that differ are told apart.
#[cycle(hash)]
pub fn hash_value<H: Hasher>(value: &Value, state: &mut H)
    ensures { state.new ≡ fold H.write state.old (value_writes value.now) }
{
    match value {
        Value::Num(number) => {
            0_u8.hash(state);
            number.hash(state);
        }
        Value::Text(bytes) => {
            1_u8.hash(state);
            bytes.as_slice().hash(state);
        }
        Value::List(items) => {
            2_u8.hash(state);
            items.len().hash(state);
            hash_items(items.as_slice(), state);
        }
        Value::State(content) => {
            3_u8.hash(state);
            hash_state(*content, state);
        }
        Value::Null => 4_u8.hash(state),
        Value::Huge(number) => {
            5_u8.hash(state);
            number.hash(state);
        }
    }
}

fn hash_state<H: Hasher>(content: AggState, state: &mut H)
    ensures { state.new ≡ fold H.write state.old (state_writes content) }
{
    match content {
        AggState::Count(number) => {
            0_u8.hash(state);
            number.hash(state);
        }
        AggState::Sum(number) => {
            1_u8.hash(state);
            number.hash(state);
        }
        AggState::Least(number) => {
            2_u8.hash(state);
            number.hash(state);
        }
        AggState::Greatest(number) => {
            3_u8.hash(state);
            number.hash(state);
        }
    }
}
