//! The states of a part's aggregates.

use crate::folding::Folding;
use crate::join::{is_signed, joined, with};
use mt_table::Aggregate;
use mt_types::{Agg, AggState, Ty};

impl Folding for AggState {
    ghost state = { λ s. s };

    fn empty(a: &Aggregate) -> AggState {
        match a {
            Aggregate::Count => AggState::Count(0),
            Aggregate::Of(agg, _) => agg.empty_state(),
        }
    }

    fn add(&mut self, v: i128) {
        *self = with(*self, v);
    }

    fn merge(&mut self, other: &AggState) -> bool {
        match joined(*self, *other) {
            Some(state) => {
                *self = state;
                true
            }
            None => false,
        }
    }

    fn finish(&self, arg: Option<&Ty>) -> i128 {
        match *self {
            AggState::Count(rows) => i128::from(rows),
            AggState::Sum(sum) => {
                if is_signed(arg) {
                    i128::from(sum.cast_signed())
                } else {
                    i128::from(sum)
                }
            }
            AggState::Least(number) => number.unwrap_or(0),
            AggState::Greatest(number) => number.unwrap_or(0),
        }
    }
}
