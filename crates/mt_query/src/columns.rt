//! The columns of a table, by their names.

ghost use Rattle.std.specs.Prelude.{◌≡◌, ◌<◌, ◌≤◌, length, IfSome, option_map, position};
ghost use Rattle.std.specs.Str.{bytes_eq};
ghost use Rattle.mt_table.specs.declared.limits.TheConstants.{MAX_COLUMNS};
ghost use Rattle.mt_query.specs.Columns.{column_of, is_there, place_of};

use mt_table::{Column, Table};
use mt_types::Ty;

/// The columns of a table. There are few, so that a name is looked for from the first on.
#[derive(Clone, Copy)]
pub(crate) struct Columns<'c> {
    /// The columns, in the table's order.
    pub(crate) list: &'c [Column],
    pub(crate) ghost few: { length list.now ≤ MAX_COLUMNS },
}

impl<'c> Columns<'c> {
    /// The columns of a table.
    pub(crate) fn of(table: &'c Table) -> Columns<'c>
        ensures { result.list.now ≡ table.now.columns }
    {
        Columns {
            list: table.columns.as_slice(),
        }
    }

    /// Where the column of a name stands, if there is one.
    fn position(&self, name: &[u8]) -> Option<usize>
        ensures place { result ≡ place_of self.now.list.now name.now }
        ensures within { IfSome result (λ place. place < length self.now.list.now) }
    {
        self.list
            .iter()
            .position(|column| column.name.as_slice() == name)
    }

    /// The place of the column of a name, if there is one.
    pub(crate) fn place(&self, name: &[u8]) -> Option<u32>
        ensures { result ≡ place_of self.now.list.now name.now }
    {
        let place = self.position(name)?;
        Some(place as u32)
    }

    /// The place and the type of the column of a name, if there is one.
    pub(crate) fn column(&self, name: &[u8]) -> Option<(u32, &'c Ty)>
        ensures { option_map (λ x. (x.0, x.1.now)) result ≡ column_of self.now.list.now name.now }
    {
        let place = self.position(name)?;
        Some((place as u32, &self.list[place].ty))
    }

    /// Whether there is a column of the name.
    pub(crate) fn has(&self, name: &[u8]) -> bool
        ensures { result ≡ is_there self.now.list.now name.now }
    {
        self.position(name).is_some()
    }
}
