//! The worked example stands for its rows.

ghost use Rattle.mt_defs.specs.Folder.{folder_of};
ghost use Rattle.mt_defs.specs.Part.{StandsFor};
ghost use Rattle.mt_defs.specs.WorkedExample as example;

/// The seven files of the worked example stand for its three rows.
pub fn worked_folder_stands()
    ensures { StandsFor example.table (folder_of example.seven_files) example.rows }
{}
