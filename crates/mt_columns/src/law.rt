//! Laws of columns, each the contract of a function that does nothing.

ghost use Rattle.std.specs.Prelude.{◌≡◌, true};
ghost use Rattle.mt_types.specs.declared.ty.Ty.{Ty};
ghost use Rattle.mt_types.specs.declared.value.Value.{Value};
ghost use Rattle.mt_types.specs.Fits.{fits_of};
ghost use Rattle.mt_types.specs.Profile.{is_profile};
ghost use Rattle.mt_columns.specs.Nesting.{Columned, fits_column};
ghost use Rattle.mt_columns.specs.Shapes.{IsOfType};

/// A value of a type of the profile may be pushed to a column of the type.
pub fn values_fit_their_columns()
    ensures { (ty : Ty) (column : Columned) (value : Value) → is_profile ty ≡ true → IsOfType ty column
        → fits_of ty value ≡ true → fits_column column value ≡ true }
{}
