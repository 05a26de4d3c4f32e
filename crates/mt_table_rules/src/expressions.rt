//! BadPartition: the expressions of the partition key.

ghost use Rattle.std.specs.Prelude.{◌≡◌, IfOk};
ghost use Rattle.std.specs.List.{list_all};
ghost use Rattle.mt_table_rules.specs.Rules as defined;

use crate::columns::Columns;
use mt_syntax::PartitionText;
use mt_table_names::{differ, partition_names};
use mt_types::NoMemory;
use std::alloc::Global;

impl<'n, 'c> Columns<'n, 'c> {
    /// Whether a column is of the types of a key, and toYYYYMM has a Date.
    fn is_expression(&self, expression: &PartitionText) -> bool
        ensures { result ≡ defined.is_expression self.now.columns.now expression.now }
    {
        match expression {
            PartitionText::Plain(name) => self.is_key(name.as_slice()),
            PartitionText::Month(name) => self.is_date(name.as_slice()),
        }
    }

    /// Whether all expressions are over such columns.
    fn are_expressions(&self, partition: &[PartitionText]) -> bool
        ensures { result ≡ list_all (defined.is_expression self.now.columns.now) partition.now }
    {
        partition
            .iter()
            .all(|expression| self.is_expression(expression))
    }

    /// Whether the expressions differ and are over such columns.
    pub fn has_partition(
        &self,
        alloc: Global,
        partition: &[PartitionText],
    ) -> Result<bool, NoMemory>
        ensures { IfOk result (λ it_has. it_has ≡ defined.is_partition self.now.columns.now partition.now) }
    {
        let names = partition_names(alloc, partition)?;
        if !differ(alloc, names.plain.as_slice())? {
            return Ok(false);
        }
        if !differ(alloc, names.months.as_slice())? {
            return Ok(false);
        }
        Ok(self.are_expressions(partition))
    }
}
