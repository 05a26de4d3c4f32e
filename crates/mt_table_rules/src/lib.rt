//! The rules of a table text on its columns' types, keys, partition key, skip indexes, projections, codecs,
//! settings and counts, one each.
//!
//! `Columns` has the columns by their names; each rule is one call, whose answer is that of its definition.
#![tactic(auto)]

mod codecs;
mod columns;
mod counts;
mod expressions;
mod forms;
mod indexes;
mod keys;
mod setting_texts;
mod type_text;

pub use codecs::are_uncompressed;
pub use columns::{Columns, read_columns};
pub use counts::are_few;
pub use keys::primary_names;
pub use setting_texts::read_settings;
