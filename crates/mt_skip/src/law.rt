//! Laws of skip indexes, each the contract of a function that does nothing.

ghost use Rattle.std.specs.Prelude.{◌≡◌, ◌≢◌, ◌↔◌, ◌<◌, ◌≤◌, ◌^◌, ℕ, List, [], length, true, false, Contains};
ghost use Rattle.mt_types.specs.declared.ty.Ty.{Ty};
ghost use Rattle.mt_types.specs.declared.value.Value.{Value};
ghost use Rattle.mt_table.specs.declared.definition.Table.{Table};
ghost use Rattle.mt_table.specs.declared.skip.Skip.{Skip};
ghost use Rattle.mt_table.specs.declared.skip.SkipKind.{SkipKind};
ghost use Rattle.mt_table.specs.declared.skip.SkipKind.TheVariants.{Set};
ghost use Rattle.mt_defs.specs.Granules.{AreGranules};
ghost use Rattle.mt_defs.specs.Lists.{Pointwise};
ghost use Rattle.mt_defs.specs.Metadata.{column_at};
ghost use Rattle.mt_defs.specs.Rows.{Row, column_values};
ghost use Rattle.mt_defs.specs.SkipIndexes.{Summarizes, entry_rows, is_too_many, set_bytes, summarizes};
ghost use Rattle.mt_defs.specs.WrittenSkips.{written_entries, written_entry};
ghost use Rattle.mt_item.specs.ItemTypes.{has_items};
ghost use Rattle.mt_skip.specs.Items.{AllFit};

/// The test of entries is right: it says yes exactly where an entry is the one of some values.
pub fn summaries_are_tested()
    ensures { (kind : SkipKind) (ty : Ty) (values : List Value) (entry : List ℕ)
        → (summarizes kind ty values entry ≡ true) ↔ Summarizes kind ty values entry }
{}

/// The writer's entry of some values is the one of these values.
pub fn written_entry_agrees()
    ensures { (kind : SkipKind) (ty : Ty) (values : List Value) → values ≢ []
        → Summarizes kind ty values (written_entry kind ty values) }
{}

/// So each of the writer's entries of an index is the one of its granules.
pub fn written_entries_agree()
    ensures { (table : Table) (skip : Skip) (rows : List Row) (granules : List ℕ)
        → 1 ≤ skip.granularity → AreGranules granules rows
        → Pointwise (λ group entry. Summarizes skip.kind (column_at table.columns skip.column).ty
        (column_values skip.column group) entry)
        (entry_rows skip rows granules) (written_entries table skip rows granules) }
{}

/// A set entry that lacks one of the values isn't the one of these values.
pub fn entries_without_a_value_disagree()
    ensures { (ty : Ty) (max_rows : ℕ) (values listed : List Value) (lacking : Value)
        → has_items ty ≡ true → AllFit ty values → AllFit ty listed
        → length values < 2 ^ 64 → length listed < 2 ^ 64 → is_too_many max_rows values ≡ false
        → Contains values lacking → (Contains listed lacking → ⊥)
        → Summarizes (Set max_rows) ty values (set_bytes ty listed) → ⊥ }
{}
