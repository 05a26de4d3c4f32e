//! A line as a row.

ghost use Rattle.std.specs.Prelude.{◌≡◌, ◌==◌, length, if◌then◌else◌};
ghost use Rattle.mt_tsv.specs.declared.fault.RowWhy.TheVariants.{Columns};
ghost use Rattle.mt_tsv.specs.declared.fault.FieldError.TheVariants as field;
ghost use Rattle.mt_tsv.specs.Results.{GivesField};
ghost use Rattle.mt_tsv.specs.Reading.{line_fields, row_of};

use crate::ascii::TAB;
use crate::fault::{FieldError, RowWhy};
use crate::field::read_field;
use crate::split::{count_of, cut};
use mt_table::Column;
use mt_types::{List, Row};
use std::alloc::Global;

/// What is wrong with a line of which a field is bad: the number of its fields comes first.
fn first_error(columns: usize, line: &[u8], error: FieldError) -> FieldError
    ensures { result ≡ (if length (line_fields line.now) == columns then error else field.Bad Columns) }
{
    if count_of(line, TAB) + 1 == columns {
        error
    } else {
        FieldError::Bad(RowWhy::Columns)
    }
}

/// The row of a line, its line end taken off.
pub fn read_row(alloc: Global, columns: &[Column], line: &[u8]) -> Result<Row, FieldError>
    ensures { GivesField result (row_of columns.now line.now) }
{
    let mut row = List::with_capacity(alloc, columns.len())?;
    let mut rest = Some(line);
    for column in columns {
        let Some(fields) = rest else {
            return Err(FieldError::Bad(RowWhy::Columns));
        };
        let (field, after) = cut(fields, TAB);
        match read_field(alloc, &column.ty, field) {
            Ok(value) => row.push(value)?,
            Err(error) => return Err(first_error(columns.len(), line, error)),
        }
        rest = after;
    }
    match rest {
        None => Ok(row),
        Some(_) => Err(FieldError::Bad(RowWhy::Columns)),
    }
}
