//! The worked example of docs/FORMAT.md: its folder stands for its rows, and folders that differ from it in one
//! thing stand for no rows.
//!
//! Laws alone: `worked_folder_stands`, and five more, one for each wrong folder.
#![tactic(auto)]

mod example;
mod no_rows;

pub use example::worked_folder_stands;
pub use no_rows::{
    mark_off_by_one_stands_for_no_rows, rows_out_of_order_stand_for_no_rows,
    short_index_stands_for_no_rows, sizes_that_disagree_stand_for_no_rows,
    stray_file_stands_for_no_rows,
};
