//! The command `show`: the layout of a part, its columns, indexes and projections, and the key of each granule.
//!
//! It prints exactly the text of an accepted part, or refuses as `check` does.
#![tactic(auto)]

mod granules;
mod key;
mod printing;
mod read;
mod shape;
mod stored;
mod text;

pub use printing::show;
pub use shape::{Shape, Size, shape_of};
pub use text::show_text;
