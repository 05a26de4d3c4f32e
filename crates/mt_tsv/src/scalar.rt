//! Values that are no NULL and no array.

ghost use Rattle.std.specs.Prelude.{◌≡◌};
ghost use Rattle.mt_tsv.specs.Results.{GivesField};
ghost use Rattle.mt_tsv.specs.Scalars.{scalar_of};

use crate::fault::{FieldError, RowWhy};
use crate::number::{read_signed, read_unsigned};
use crate::text::{read_fixed, read_string};
use mt_calendar::{read_date, read_moment};
use mt_types::{Ty, Value};
use std::alloc::Global;

fn number(read: Result<Value, RowWhy>) -> Result<Value, FieldError>
    ensures { GivesField result read }
{
    match read {
        Ok(value) => Ok(value),
        Err(why) => Err(FieldError::Bad(why)),
    }
}

/// The value of a text, of a type that is no Nullable, array or state.
#[tactic(auto, unfolding(crate::specs::Scalars::scalar_of))]
pub fn read_scalar(alloc: Global, ty: &Ty, text: &[u8]) -> Result<Value, FieldError>
    ensures { GivesField result (scalar_of ty.now text.now) }
{
    match ty {
        Ty::UInt(width) => number(read_unsigned(*width, text)),
        Ty::Int(width) => number(read_signed(*width, text)),
        Ty::FixedString(size) => Ok(Value::Text(read_fixed(alloc, *size, text)?)),
        Ty::Str => Ok(Value::Text(read_string(alloc, text)?)),
        Ty::Date => match read_date(text) {
            Some(day) => Ok(Value::Num(i128::from(day))),
            None => Err(FieldError::Bad(RowWhy::Date)),
        },
        Ty::Moment => match read_moment(text) {
            Some(second) => Ok(Value::Num(i128::from(second))),
            None => Err(FieldError::Bad(RowWhy::Date)),
        },
        _ => Err(FieldError::Bad(RowWhy::List)),
    }
}
