//! The columns that a condition names.

ghost use Rattle.std.specs.Prelude.{◌≡◌, ◌==◌, not};
ghost use Rattle.mt_query.specs.Named.{cond_passes};
ghost use Rattle.mt_plan_files.specs.Planned as defined;

use mt_query::Cond;

/// Whether a condition names a column.
pub fn names_column(cond: &Cond, column: u32) -> bool
    ensures { result ≡ defined.names_column cond.now column }
{
    !avoids(cond, column)
}

/// Whether a condition names no such column.
fn avoids(cond: &Cond, column: u32) -> bool
    ensures { result ≡ cond_passes (λ i. not (i == column)) cond.now }
{
    match cond {
        Cond::Cmp { column: named, .. }
        | Cond::OneOf { column: named, .. }
        | Cond::IsNull { column: named, .. }
        | Cond::Starts { column: named, .. }
        | Cond::Has { column: named, .. } => *named != column,
        Cond::And(a, b) | Cond::Or(a, b) => avoids(a.get(), column) && avoids(b.get(), column),
        Cond::Not(a) => avoids(a.get(), column),
    }
}
