//! Laws of blocks, each the contract of a function that does nothing.

ghost use Rattle.std.specs.Prelude.{◌≡◌, ℕ, List, [], length, map, slice_index_or};
ghost use Rattle.std.specs.Borrow.{Bor};
ghost use Rattle.mt_types.specs.declared.value.Value.{Value};
ghost use Rattle.mt_defs.specs.Sorting.{sorted_by, sorted_rows};
ghost use Rattle.mt_columns.specs.Nesting.{Columned};
ghost use Rattle.mt_blocks.specs.Rows.{indexes, picked, rows_in};
ghost use Rattle.mt_blocks.specs.Sorting.{index_cmp};

/// Where every column is gathered in the order that the sort key's columns give (`sorted_order`), the
/// rows are those in the order of the sort key, rows of equal key in their former order.
pub fn gathered_rows_are_sorted()
    ensures { (columns : List (List Value)) (count : ℕ) (sort : List ℕ) (keys : List (Bor Columned)) (order : List ℕ)
        → map (λ key. key.now.values) keys ≡ map (λ column. slice_index_or columns column []) sort
        → order ≡ sorted_by (index_cmp keys) (indexes count)
        → rows_in (map (picked order) columns) (length order) ≡ sorted_rows sort (rows_in columns count) }
{}
