//! The sentence of a table text: what is written in it, before any rule on its meaning.
//!
//! `read_table_text` gives the sentence that a text is by the grammar of docs/LANGUAGE.md, "Table text".
#![tactic(auto)]

mod body;
mod clause;
mod clauses;
mod law;
mod partition;
mod reading;
mod sentence;
mod setting;
mod tree;

pub use law::a_text_is_one_sentence;
pub use reading::read_table_text;
pub use tree::{PartitionText, SettingText, SettingValue, TableText};
