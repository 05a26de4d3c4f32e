//! What stands between the parentheses of a table text: columns, skip indexes and projections, before any rule
//! on their meaning.
//!
//! `elements` takes them off the front of tokens, by the grammar of docs/LANGUAGE.md, "Table text".
#![tactic(auto)]

mod column;
mod element;
mod index;
mod limits;
mod names;
mod projection;
mod token;
mod tree;
mod types;

pub use column::skip_comment;
pub use element::elements;
pub use limits::MAX_TYPE_DEPTH;
pub use names::key;
pub use token::{any_text, word};
pub use tree::{CodecText, Element, IndexKind, TypeArg, TypeText};
