//! Queries: their conditions, items, grouping and limit.
//!
//! `Query::read` gives the query that a text is over a table, or the first rule that the text breaks.
#![tactic(auto)]

mod columns;
mod cond;
mod condition;
mod group;
mod item;
mod judge;
mod law;
mod limits;
mod literal;
mod query;
mod reading;
mod why;

pub use cond::Cond;
pub use law::a_text_asks_one_thing;
pub use limits::MAX_QUERY_TEXT;
pub use mt_cond_syntax::{MAX_COND_DEPTH, Op};
pub use query::{Item, Query};
pub use why::{QueryError, QueryWhy};
