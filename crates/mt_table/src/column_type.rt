//! The types that keys and aggregates take (docs/LANGUAGE.md, "Table text").

ghost use Rattle.std.specs.Prelude.{◌≡◌};
ghost use Rattle.mt_types.specs.Numbers as numbers;
ghost use Rattle.mt_table.specs.ColumnTypes as defined;

use mt_types::{Ty, Width};

fn is_narrow(width: Width) -> bool
    ensures { result ≡ numbers.is_narrow width }
{
    match width {
        Width::W128 => false,
        _ => true,
    }
}

/// Whether the type is one that a key, a partition key and a skip index may have: an integer, FixedString,
/// String, Date or DateTime('UTC').
pub fn is_key_type(ty: &Ty) -> bool
    ensures { result ≡ defined.is_key_type ty.now }
{
    matches!(
        ty,
        Ty::UInt(_) | Ty::Int(_) | Ty::FixedString(_) | Ty::Str | Ty::Date | Ty::Moment
    )
}

/// Whether the type is one that `sum` takes: an integer of at most 64 bits.
pub fn is_integer_type(ty: &Ty) -> bool
    ensures { result ≡ defined.is_integer_type ty.now }
{
    match ty {
        Ty::UInt(width) | Ty::Int(width) => is_narrow(*width),
        _ => false,
    }
}

/// Whether the type is Date, which `toYYYYMM` takes.
pub fn is_date_type(ty: &Ty) -> bool
    ensures { result ≡ defined.is_date_type ty.now }
{
    matches!(ty, Ty::Date)
}

/// Whether the type is one that `min` and `max` take: an integer of at most 64 bits, or Date.
pub fn is_argument_type(ty: &Ty) -> bool
    ensures { result ≡ numbers.is_argument_type ty.now }
{
    match ty {
        Ty::UInt(width) | Ty::Int(width) => is_narrow(*width),
        Ty::Date => true,
        _ => false,
    }
}
