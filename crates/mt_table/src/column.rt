//! Columns.

ghost use Rattle.std.specs.Prelude.{◌≡◌, IfOk};

use mt_types::{List, NoMemory, Ty};
use std::alloc::Global;

/// A column of a table or of a projection.
#[derive(Drop)]
pub struct Column {
    /// Its name: a letter or `_`, then letters, digits and `_`, from 1 to 64 bytes; in an aggregate
    /// projection also `count()` or `sum(v)`.
    pub name: List<u8>,
    /// The type of its values.
    pub ty: Ty,
}

impl Column {
    /// A column of the same name and type.
    pub fn copy(&self, alloc: Global) -> Result<Column, NoMemory>
        ensures { IfOk result (λ copied. copied ≡ self.now) }
    {
        Ok(Column {
            name: List::of_bytes(alloc, self.name.as_slice())?,
            ty: self.ty.copy(alloc)?,
        })
    }
}
