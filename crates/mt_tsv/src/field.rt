//! Fields of a line.

ghost use Rattle.std.specs.Prelude.{◌≡◌};
ghost use Rattle.mt_tsv.specs.Results.{GivesField};
ghost use Rattle.mt_tsv.specs.Fields.{is_null_field, field_of};

use crate::array::read_array;
use crate::fault::{FieldError, RowWhy};
use crate::scalar::read_scalar;
use mt_types::{Ty, Value};
use std::alloc::Global;

fn is_null(field: &[u8]) -> bool
    ensures { result ≡ is_null_field field.now }
{
    matches!(field, [b'\\', b'N'])
}

/// The value of a field of a column of this type.
#[tactic(auto, unfolding(crate::specs::Fields::field_of, crate::specs::Scalars::scalar_of))]
pub fn read_field(alloc: Global, ty: &Ty, field: &[u8]) -> Result<Value, FieldError>
    ensures { GivesField result (field_of ty.now field.now) }
{
    match ty {
        Ty::Nullable(inner) => {
            if is_null(field) {
                return Ok(Value::Null);
            }
            read_scalar(alloc, inner.get(), field)
        }
        Ty::Array(inner) => read_array(alloc, inner.get(), field),
        _ => {
            if is_null(field) {
                return Err(FieldError::Bad(RowWhy::Null));
            }
            read_scalar(alloc, ty, field)
        }
    }
}
