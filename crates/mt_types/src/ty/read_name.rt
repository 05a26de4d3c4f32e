//! Types by their names, as columns.txt has them.

ghost use Rattle.std.specs.Prelude.{◌≡◌, ◌≢◌, ◌⊎◌, IfOk, option_map, true};
ghost use Rattle.mt_types.specs.declared.ty.Ty.TheVariants.{State};
ghost use Rattle.mt_types.specs.NameReading.{GivesType, nested_named, optional_named, type_named};

use crate::limits::MAX_ARRAY_DEPTH;
use crate::memory::NoMemory;
use crate::ty::scalar::{between, read_integer, read_number, read_scalar};
use crate::ty::{Agg, Ty, TyError};
use sqlite_items::Boxed;
use std::alloc::Global;

impl Ty {
    ghost use Rattle.mt_types.specs.declared.ty.Ty.{Ty};
    ghost use Rattle.mt_types.specs.Names.{type_name};
    ghost use Rattle.mt_types.specs.Profile.{is_profile};

    /// The type of the profile that has this name (ClickHouse: `DataTypeFactory`).
    pub fn read_name(alloc: Global, text: &[u8]) -> Result<Ty, TyError>
        ensures found { IfOk result (λ ty. (is_profile ty ≡ true) × (type_name ty ≡ text.now)) }
        ensures only { (ty : Ty) → is_profile ty ≡ true → type_name ty ≡ text.now
            → (result ≡ Ok ty) ⊎ (result ≡ Err TyError.NoMemory) }
        ensures cause { result ≡ Err TyError.NotAType
            → (ty : Ty) → is_profile ty ≡ true → type_name ty ≢ text.now }

        // The same by the function that reads names.
        ensures value { GivesType result (type_named text.now) }
    {
        read_type(alloc, text)
    }
}

/// The type that a text names.
fn read_type(alloc: Global, text: &[u8]) -> Result<Ty, TyError>
    ensures { GivesType result (type_named text.now) }
{
    if text == b"AggregateFunction(count)".as_slice() {
        return Ok(Ty::CountState);
    }
    if let Some(argument) = between(Agg::Sum.state_opening(), text) {
        return state_of(alloc, Agg::Sum, read_integer(argument));
    }
    if let Some(argument) = between(Agg::Min.state_opening(), text) {
        return state_of(alloc, Agg::Min, read_number(argument));
    }
    if let Some(argument) = between(Agg::Max.state_opening(), text) {
        return state_of(alloc, Agg::Max, read_number(argument));
    }
    read_nested(alloc, MAX_ARRAY_DEPTH, text)
}

/// The state of an aggregate over an argument, if there is one.
fn state_of(alloc: Global, agg: Agg, argument: Option<Ty>) -> Result<Ty, TyError>
    ensures { GivesType result (option_map (State agg) argument) }
{
    let argument = argument.ok_or(TyError::NotAType)?;
    Ok(Ty::State(agg, boxed(alloc, argument)?))
}

fn boxed(alloc: Global, ty: Ty) -> Result<Boxed<Ty>, NoMemory>
    ensures { IfOk result (λ inner. inner ≡ ty) }
{
    Ok(Boxed::new(alloc, ty)?)
}

/// A type inside at most so many arrays.
fn read_nested(alloc: Global, arrays: u32, text: &[u8]) -> Result<Ty, TyError>
    ensures { GivesType result (nested_named arrays text.now) }
{
    if arrays == 0 {
        return read_optional(alloc, text);
    }
    match between(b"Array(", text) {
        Some(inner) => {
            let element = read_nested(alloc, arrays - 1, inner)?;
            Ok(Ty::Array(boxed(alloc, element)?))
        }
        None => read_optional(alloc, text),
    }
}

/// A scalar type, or Nullable of one.
fn read_optional(alloc: Global, text: &[u8]) -> Result<Ty, TyError>
    ensures { GivesType result (optional_named text.now) }
{
    match between(b"Nullable(", text) {
        Some(inner) => {
            let inner = read_scalar(inner).ok_or(TyError::NotAType)?;
            Ok(Ty::Nullable(boxed(alloc, inner)?))
        }
        None => read_scalar(text).ok_or(TyError::NotAType),
    }
}
