//! The outside: where bytes come from, where they go to, and where parts stand; and its forms in memory.
//!
//! Each object counts its faults, and a call fails exactly where it counts one: `Source`, `Sink`
//! and `Shelf` say so, and what stands after each answer.
#![tactic(auto)]

mod bytes;
mod causes;
mod entries;
mod error;
mod failures;
mod file;
mod file_set;
mod gate;
mod held;
mod mem_shelf;
mod paths;
mod reading;
mod shelf;
mod sink;
mod source;
mod stream;
mod sure_shelf;
mod writing;

pub use causes::{CallError, Failed};
pub use error::ReadError;
pub use file::Entry;
pub use file_set::{FileSet, PutError};
pub use gate::{Gate, NoGate};
pub use mem_shelf::MemShelf;
pub use paths::{is_file_name, is_path, is_relative};
pub use reading::{Input, read_all, read_file};
pub use shelf::Shelf;
pub use sink::{MemSink, SureSink};
pub use source::{MemSource, SureSource};
pub use stream::{Sink, Source};
pub use sure_shelf::SureShelf;
pub use writing::{have_names, store, write_all};
