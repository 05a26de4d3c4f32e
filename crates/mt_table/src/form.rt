//! Tables of two UInt64 columns, the only ones whose parts are written today.

ghost use Rattle.std.specs.Prelude.{◌≡◌};
ghost use Rattle.mt_table.specs.Form as defined;

use crate::column::Column;
use crate::definition::Table;
use mt_types::{Ty, Width};

fn is_uint64(ty: &Ty) -> bool
    ensures { result ≡ defined.is_uint64 ty.now }
{
    match ty {
        Ty::UInt(width) => *width == Width::W64,
        _ => false,
    }
}

fn are_two_numbers(columns: &[Column]) -> bool
    ensures { result ≡ defined.are_two_numbers columns.now }
{
    match columns {
        [first, second] => is_uint64(&first.ty) && is_uint64(&second.ty),
        _ => false,
    }
}

impl Table {
    /// Whether the table has two UInt64 columns, one of them the key, nothing else, and parts that are always Wide.
    pub fn has_two_numbers(&self) -> bool
        ensures { result ≡ defined.is_numbers_table self.now }
    {
        are_two_numbers(self.columns.as_slice())
            && self.sort.len() == 1
            && self.partition.is_empty()
            && self.skips.is_empty()
            && self.projections.is_empty()
            && self.settings.wide_bytes == 0
            && self.settings.wide_rows == 0
    }
}
