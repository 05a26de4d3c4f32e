//! Arrays.

ghost use Rattle.std.specs.Prelude.{◌≡◌};
ghost use Rattle.mt_tsv.specs.Results.{GivesField};
ghost use Rattle.mt_tsv.specs.Arrays.{array_of, element_of};

use crate::fault::{FieldError, RowWhy};
use crate::level::{cut_element, middle, read_level};
use crate::quote::is_null_word;
use crate::scalar::read_scalar;
use mt_types::{List, MAX_ELEMENTS, Ty, Value};
use std::alloc::Global;

/// Whether elements of this type stand in quotes.
fn in_quotes(ty: &Ty) -> bool
    ensures { result ≡ (element_of ty.now).in_quotes }
{
    match ty {
        Ty::FixedString(_) | Ty::Str | Ty::Date | Ty::Moment => true,
        Ty::Nullable(inner) => in_quotes(inner.get()),
        _ => false,
    }
}

/// The value of an array's element.
#[cycle(array)]
#[tactic(auto, unfolding(crate::specs::Scalars::scalar_of))]
fn read_element(alloc: Global, ty: &Ty, text: &[u8]) -> Result<Value, FieldError>
    ensures { GivesField result ((element_of ty.now).read text.now) }
{
    let is_null = is_null_word(text);
    match ty {
        Ty::Nullable(inner) => {
            if is_null {
                return Ok(Value::Null);
            }
            read_element(alloc, inner.get(), text)
        }
        Ty::Array(inner) => {
            if is_null {
                return Err(FieldError::Bad(RowWhy::Null));
            }
            read_array(alloc, inner.get(), text)
        }
        Ty::FixedString(_) | Ty::Str | Ty::Date | Ty::Moment => {
            if is_null {
                return Err(FieldError::Bad(RowWhy::Null));
            }
            read_scalar(alloc, ty, middle(text))
        }
        _ => {
            if is_null {
                return Err(FieldError::Bad(RowWhy::Null));
            }
            read_scalar(alloc, ty, text)
        }
    }
}

/// The list of an array of elements of this type.
#[cycle(array)]
pub fn read_array(alloc: Global, inner: &Ty, text: &[u8]) -> Result<Value, FieldError>
    ensures { GivesField result (array_of (element_of inner.now) text.now) }
{
    let mut rest = read_level(in_quotes(inner), text)?;
    let mut items = List::new(alloc);
    'elements: while let Some(texts) = rest {
        let (element, after) = cut_element(texts);
        items.push(read_element(alloc, inner, element)?)?;
        rest = after;
    }
    if items.len() > MAX_ELEMENTS {
        return Err(FieldError::Bad(RowWhy::TooLong));
    }
    Ok(Value::List(items))
}
