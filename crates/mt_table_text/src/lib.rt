//! Table texts: the table that a text defines, or the first rule that the text breaks.
#![tactic(auto)]

mod judge;
mod law;
mod reading;
mod why;

pub use law::{a_text_defines_one_table, judged_tables_keep_the_rules};
pub use reading::read_table;
pub use why::{TableError, TableWhy};
