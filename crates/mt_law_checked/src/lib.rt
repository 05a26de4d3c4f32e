//! What the checks of a part's files say: a folder has no fault exactly where it stands for some rows.
//!
//! `definitions_are_read_exactly` says of each definition's folder, the part's own or a projection's, which rows it
//! holds, and `folders_are_checked_exactly` of the whole folder, for which rows it stands. Laws alone.
#![tactic(auto)]

mod law;

pub use law::{
    definitions_are_read_exactly, definitions_are_readable, folders_are_checked_exactly,
    folders_stand_for_one_list_of_rows, listed_files_make_a_folder,
};
