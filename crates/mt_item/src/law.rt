//! Laws of items, each the contract of a function that does nothing.

ghost use Rattle.std.specs.Prelude.{◌≡◌, ◌++◌, ℕ, List, true, Ok};
ghost use Rattle.mt_types.specs.declared.ty.Ty.{Ty};
ghost use Rattle.mt_types.specs.declared.value.Value.{Value};
ghost use Rattle.mt_types.specs.Fits.{fits_of};
ghost use Rattle.mt_types.specs.Items.{item_bytes};
ghost use Rattle.mt_defs.specs.Lists.{AreBytes};
ghost use Rattle.mt_item.specs.ItemReading.{item_front};
ghost use Rattle.mt_item.specs.ItemTypes.{has_items};

/// The item of a value that fits is read as the value, whatever follows it.
pub fn written_items_are_read()
    ensures { (ty : Ty) (value : Value) (rest : List ℕ) → has_items ty ≡ true
        → fits_of ty value ≡ true → item_front ty (item_bytes ty value ++ rest) ≡ Ok (value, rest) }
{}

/// What is read is a value that fits, and its item stands before what is left.
pub fn only_items_are_read()
    ensures { (ty : Ty) (bytes : List ℕ) (value : Value) (rest : List ℕ) → has_items ty ≡ true
        → AreBytes bytes → item_front ty bytes ≡ Ok (value, rest)
        → (fits_of ty value ≡ true) × (bytes ≡ item_bytes ty value ++ rest) }
{}
