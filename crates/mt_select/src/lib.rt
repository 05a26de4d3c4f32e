//! The command `select`: the answer of a query over the rows of a part.
//!
//! It prints exactly the lines of the answer, or refuses as the table, the query and the part have it, in this order.
#![tactic(auto)]

mod answer;
mod query;

pub use answer::select;
pub use query::read_query;
