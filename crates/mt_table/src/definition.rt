//! The definition of a table, and of one stored part of it.

ghost use Rattle.std.specs.Prelude.{IsTrue};
ghost use Rattle.mt_table.specs.Fields.{fields};
ghost use Rattle.mt_table.specs.Kept.{keeps_rules};

use crate::column::Column;
use crate::partition::PartExpr;
use crate::projection::Projection;
use crate::settings::Settings;
use crate::skip::Skip;
use mt_types::List;

/// A MergeTree table. A `u32` names a column by its place in `columns`, from 0.
#[derive(Drop)]
pub struct Table {
    /// The table's name, without its database.
    pub name: List<u8>,
    /// From 1 to 256 columns, of different names.
    pub columns: List<Column>,
    /// The partition key's expressions; none where there is no partition key.
    pub partition: List<PartExpr>,
    /// The sort key: from 1 to 16 columns.
    pub sort: List<u32>,
    /// How many columns of the sort key are the primary key.
    pub primary: u32,
    /// The skip indexes, at most 16.
    pub skips: List<Skip>,
    /// The projections, at most 8.
    pub projections: List<Projection>,
    /// What the layout depends on.
    pub settings: Settings,
    pub ghost rules: { IsTrue (keeps_rules (fields name columns partition sort primary skips projections settings)) },
}

/// What one folder stores: the base part of a table, or one of its projections.
#[derive(Drop)]
pub struct PartDef {
    /// The columns that the folder may store.
    pub columns: List<Column>,
    /// Those that each such folder has, by places in `columns`. The others may have been added to the table
    /// later.
    pub must: List<u32>,
    /// The sort key, by places in `columns`.
    pub sort: List<u32>,
    /// How many columns of the sort key are the primary key.
    pub primary: u32,
}
