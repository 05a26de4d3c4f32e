//! Laws of items, each the contract of a function that does nothing.

ghost use Rattle.std.specs.Prelude.{◌≡◌, true, false};
ghost use Rattle.mt_types.specs.declared.value.Value.{Value};
ghost use Rattle.mt_defs.specs.Encoding.{is_null};
ghost use Rattle.mt_cells.specs.Items.{ItemKind, default_item, fits_items};

/// No item is NULL.
pub fn items_are_not_null()
    ensures { (kind : ItemKind) (value : Value) → fits_items kind value ≡ true → is_null value ≡ false }
{}

/// The default is one of the items that it stands among.
pub fn defaults_are_items()
    ensures { (kind : ItemKind) → fits_items kind (default_item kind) ≡ true }
{}
