//! The bytes of numbers.

ghost use Rattle.std.specs.Prelude.{◌≡◌, IsTrue};
ghost use Rattle.mt_types.specs.Numbers.{is_number_type, number_size, width_size};

use crate::ty::{Ty, Width};

/// The bytes of an item of integers, days or seconds (docs/FORMAT.md, "Types and values").
pub fn number_size(ty: &Ty) -> usize
    requires { IsTrue (is_number_type ty.now) }
    ensures { result ≡ number_size ty.now }
{
    match ty {
        Ty::UInt(width) => width_size(*width),
        Ty::Int(width) => width_size(*width),
        Ty::Date => 2,
        Ty::Moment => 4,
        _ => unreachable!(),
    }
}

fn width_size(width: Width) -> usize
    ensures { result ≡ width_size width }
{
    match width {
        Width::W8 => 1,
        Width::W16 => 2,
        Width::W32 => 4,
        Width::W64 => 8,
        Width::W128 => 16,
    }
}
