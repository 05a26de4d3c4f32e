//! Conditions on rows as they are written, before any rule on their meaning.
//!
//! `cond` takes the condition off the front of tokens, by the grammar of docs/LANGUAGE.md, "Queries".
#![tactic(auto)]

mod atom;
mod condition;
mod limits;
mod literal;
mod number;
mod op;
mod tree;

pub use condition::cond;
pub use limits::MAX_COND_DEPTH;
pub use op::Op;
pub use tree::{CondText, Literal};
