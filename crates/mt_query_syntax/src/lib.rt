//! The sentence of a query text: what is written in it, before any rule on its meaning.
//!
//! `read_query_text` gives the sentence that a text is by the grammar of docs/LANGUAGE.md, "Queries".
#![tactic(auto)]

mod clause;
mod law;
mod reading;
mod sentence;
mod tree;

pub use law::a_text_is_one_query;
pub use reading::read_query_text;
pub use tree::QueryText;
