//! The sentence of a query text as a tree. Names are without their backquotes, numbers are values, and
//! texts are without their escapes.

use mt_cond_syntax::CondText;
use mt_phrases::Selected;
use mt_types::List;

/// What a query text says (ClickHouse: `ASTSelectQuery`).
#[derive(Drop)]
pub struct QueryText {
    /// What it selects.
    pub items: Selected,
    /// The condition of WHERE, if it is given.
    pub cond: Option<CondText>,
    /// The names of GROUP BY; none where it isn't given.
    pub group: List<List<u8>>,
    /// The number of LIMIT, if it is given.
    pub limit: Option<u64>,
}
