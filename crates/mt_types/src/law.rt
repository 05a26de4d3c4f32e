//! Laws of the order, numbers and names, each the contract of a function that does nothing.

ghost use Rattle.std.specs.Prelude.{◌≡◌, ◌++◌, ◌^◌, ◌<◌, ℕ, List, length, true, Some};
ghost use Rattle.std.specs.Cmp.{IsTotalOrder};
ghost use Rattle.std.specs.declared.cmp.Ordering.TheVariants.{Equal};
ghost use Rattle.mt_types.specs.declared.ty.Ty.{Ty};
ghost use Rattle.mt_types.specs.declared.value.Value.{Value};
ghost use Rattle.mt_types.specs.declared.varint.VarInt.{VarInt};
ghost use Rattle.mt_types.specs.declared.varint.VarInt.TheVariants.{Got};
ghost use Rattle.mt_types.specs.Defaults.{default_of};
ghost use Rattle.mt_types.specs.Fits.{fits_of};
ghost use Rattle.mt_types.specs.Leb128.{leb128, Reads};
ghost use Rattle.mt_types.specs.NameReading.{type_named};
ghost use Rattle.mt_types.specs.Names.{type_name};
ghost use Rattle.mt_types.specs.Order.{value_cmp, values_cmp};
ghost use Rattle.mt_types.specs.Profile.{is_profile};

/// The order on values is total: antisymmetric and transitive, and tied values compare alike.
pub fn values_are_totally_ordered()
    ensures { IsTotalOrder value_cmp }
{}

/// So is the order on rows and keys.
pub fn rows_are_totally_ordered()
    ensures { IsTotalOrder values_cmp }
{}

/// Values tie only where they are the same.
pub fn tied_values_are_the_same()
    ensures { (a b : Value) → value_cmp a b ≡ Equal → a ≡ b }
{}

/// So do rows and keys.
pub fn tied_rows_are_the_same()
    ensures { (a b : List Value) → values_cmp a b ≡ Equal → a ≡ b }
{}

/// A type's default is one of its values.
pub fn defaults_fit()
    ensures { (t : Ty) → fits_of t (default_of t) ≡ true }
{}

/// A number has one encoding, and none is a proper prefix of another's.
pub fn numbers_have_one_encoding()
    ensures { (m n : ℕ) (x y : List ℕ) → leb128 m ++ x ≡ leb128 n ++ y
        → (m ≡ n) × (x ≡ y) }
{}

/// What was written is read again with its length, whatever follows.
pub fn written_numbers_are_read()
    ensures { (outcome : VarInt) (n : ℕ) (rest : List ℕ) → n < 2 ^ 64
        → Reads outcome (leb128 n ++ rest) → outcome ≡ Got n (length (leb128 n)) }
{}

/// What a name is read as, where it names a type of the profile (`Ty::read_name`).
pub fn names_are_read()
    ensures { (t : Ty) → is_profile t ≡ true → type_named (type_name t) ≡ Some t }
{}

/// Only names are read, each as the type of the profile that has it.
pub fn only_names_are_read()
    ensures { (text : List ℕ) (t : Ty) → type_named text ≡ Some t
        → (is_profile t ≡ true) × (type_name t ≡ text) }
{}

/// So no two types of the profile have one name.
pub fn types_have_their_own_names()
    ensures { (s t : Ty) → is_profile s ≡ true → is_profile t ≡ true
        → type_name s ≡ type_name t → s ≡ t }
{}
