//! Laws of projections, each the contract of a function that does nothing.

ghost use Rattle.std.specs.Prelude.{◌≡◌, ◌↔◌, List, true};
ghost use Rattle.mt_table.specs.declared.definition.Table.{Table};
ghost use Rattle.mt_table.specs.declared.projection.Projection.{Projection};
ghost use Rattle.mt_defs.specs.Projections.{IsProjectionOf, is_projection_of};
ghost use Rattle.mt_defs.specs.Rows.{Row};
ghost use Rattle.mt_defs.specs.Writer.{projection_rows};

/// The test of stored rows is right: it says yes exactly where they stand for some rows.
pub fn projections_are_tested()
    ensures { (table : Table) (projection : Projection) (rows stored : List Row)
        → (is_projection_of table projection rows stored ≡ true)
        ↔ IsProjectionOf table projection rows stored }
{}

/// What the writer stores of some rows in a projection stands for these rows.
pub fn written_rows_stand()
    ensures { (table : Table) (projection : Projection) (rows : List Row)
        → IsProjectionOf table projection rows (projection_rows table projection rows) }
{}
