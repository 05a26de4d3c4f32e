//! The law of rows in key order, the contract of a function that does nothing.

ghost use Rattle.std.specs.Prelude.{◌≡◌, ℕ, List};
ghost use Rattle.mt_defs.specs.Rows.{Row, key_cmp};
ghost use Rattle.mt_defs.specs.Sorting.{IsStablySorted, sorted_rows};

/// Rows in key order are a reordering of the rows in which keys never fall and rows of equal key keep
/// their order, and there is no other.
pub fn there_is_one_stable_order()
    ensures found { (sort : List ℕ) (rows : List Row)
        → IsStablySorted (key_cmp sort) rows (sorted_rows sort rows) }
    ensures only { (sort : List ℕ) (rows others : List Row)
        → IsStablySorted (key_cmp sort) rows others → others ≡ sorted_rows sort rows }
{}
