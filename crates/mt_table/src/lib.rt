//! The table that a part belongs to: columns, keys, indexes, projections and settings, and what its
//! parts store. Each `Table` keeps the rules of tables (`specs/Kept.antt`).
#![tactic(auto)]

mod column;
mod column_type;
mod definition;
mod form;
mod limits;
mod partition;
mod projection;
mod settings;
mod skip;
mod stored;

pub use column::Column;
pub use column_type::{is_argument_type, is_date_type, is_integer_type, is_key_type};
pub use definition::{PartDef, Table};
pub use limits::{
    DEFAULT_GRANULE_BYTES, DEFAULT_GRANULE_ROWS, DEFAULT_WIDE_BYTES, DEFAULT_WIDE_ROWS, MAX_CELLS,
    MAX_COLUMNS, MAX_GRANULARITY, MAX_GRANULE_BYTES, MAX_GRANULE_ROWS, MAX_KEY, MAX_PARTITION,
    MAX_PROJECTIONS, MAX_ROWS, MAX_SET_ROWS, MAX_SKIPS,
};
pub use partition::PartExpr;
pub use projection::{Aggregate, Projection};
pub use settings::Settings;
pub use skip::{Skip, SkipKind};
