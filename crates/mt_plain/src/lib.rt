//! The plain program: the writer's folder of tables of two UInt64 columns again, computed as slowly and
//! plainly as its definition is read.
//!
//! `plain_folder` gives exactly the files of the writer's folder of such a table. It shares no code with the
//! writer.
#![tactic(auto)]

mod columns;
mod folder;
mod frames;
mod granules;
mod index;
mod items;
mod order;
mod texts;

pub use folder::plain_folder;
