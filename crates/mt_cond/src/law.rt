//! A law of covers: the contract of a function that does nothing.

ghost use Rattle.std.specs.Prelude.{◌≡◌, ◌&&◌, List, IsTrue};
ghost use Rattle.std.specs.List.{list_any};
ghost use Rattle.std.specs.Ordering.{is_le};
ghost use Rattle.mt_types.specs.declared.value.Value.{Value};
ghost use Rattle.mt_types.specs.Order.{values_cmp};
ghost use Rattle.mt_defs.specs.Rows.{Row};
ghost use Rattle.mt_cond.specs.declared.types.KeyColumn.{KeyColumn};
ghost use Rattle.mt_cond.specs.Intervals.{lies_in};
ghost use Rattle.mt_cond.specs.Cover.{cover_of};
ghost use Rattle.mt_cond.specs.Keys.{key_fits, key_values, types_of, AreKeys};

/// A row whose key fits lies in some box of the cover of two keys exactly where its key is between them.
pub fn covers_hold_the_keys_between()
    ensures { (key : List KeyColumn) (lo hi : List Value) (row : Row)
        → AreKeys key lo hi → IsTrue (key_fits (types_of key) (key_values key row))
        → list_any (λ sides. lies_in sides row) (cover_of key lo hi)
        ≡ (is_le (values_cmp lo (key_values key row)) && is_le (values_cmp (key_values key row) hi)) }
{}
