//! What `merge` leaves, once it is Done.

ghost use Rattle.std.specs.Prelude.{◌≡◌, ◌⊎◌, ℕ, List, IsTrue, Some, Ok};
ghost use Rattle.mt_tsv.specs.Printing.{rows_text};
ghost use Rattle.mt_shelf.specs.Files.{Files};
ghost use Rattle.mt_defs.specs.Sorting.{merged_rows};
ghost use Rattle.mt_query.specs.declared.query.Query.{Query};
ghost use Rattle.mt_query.specs.Queries.{Asks};
ghost use Rattle.mt_fold.specs.Answer.{answer_text};
ghost use Rattle.mt_command.specs.Plans.{World};
ghost use Rattle.mt_command.specs.declared.status.Status.{Status};
ghost use Rattle.mt_command.specs.declared.status.Status.TheVariants.{Done};
ghost use Rattle.mt_run.specs.Commands.{Runs, Check, Merge, Rows, Select, Show};
ghost use Rattle.mt_reading.specs.Reading.{accepted_line};
ghost use Rattle.mt_run.specs.Words.{are_inputs};
ghost use Rattle.mt_law_run.specs.Endings.{FellShort, Printed};
ghost use Rattle.mt_law_run.specs.Parts.{shown_text};
ghost use Rattle.mt_law_run.specs.Published.{Merged, in_granules, with_written_part};

use crate::reading::good_parts_are_read;
use mt_headline::{parts_are_checked_exactly, storable_rows_are_accepted};
use mt_law_written::{written_folder_stands, written_names_differ};

/// What `merge` leaves at OUT, once it is Done, is the writer's folder of the rows of all its parts in key order, equal
/// keys by the earlier part: each part stood for its rows, and OUT stands for all of them in the writer's granules. No
/// other file changes.
pub fn merged_parts_stand()
    ensures { (path target : List ℕ) (parts : List (List ℕ)) (files : Files) (old new : World)
        → old.files ≡ Some files → IsTrue (are_inputs parts)
        → Runs (Some (Merge path target parts)) old new Done → Merged path target parts files new }
{
    parts_are_checked_exactly();
    storable_rows_are_accepted();
    written_folder_stands();
    written_names_differ();
}

/// And a part that `merge` made is one that the other commands read: `check` accepts it in the writer's granules, `rows`
/// prints the rows of all its inputs in key order, `show` how they are stored, and `select` answers over them.
pub fn merged_parts_are_read()
    ensures check { (path target : List ℕ) (parts : List (List ℕ)) (files : Files) (old between next new : World)
        (status : Status) → old.files ≡ Some files → IsTrue (are_inputs parts)
        → Runs (Some (Merge path target parts)) old between Done → next.files ≡ between.files
        → Runs (Some (Check path target)) next new status
        → (merged : Merged path target parts files between)
        × (let rows = merged_rows merged.table.sort merged.inputs in
        FellShort next new status
        ⊎ Printed next new status (accepted_line (in_granules merged.table rows))) }
    ensures rows { (path target : List ℕ) (parts : List (List ℕ)) (files : Files) (old between next new : World)
        (status : Status) → old.files ≡ Some files → IsTrue (are_inputs parts)
        → Runs (Some (Merge path target parts)) old between Done → next.files ≡ between.files
        → Runs (Some (Rows path target)) next new status
        → (merged : Merged path target parts files between)
        × (FellShort next new status
        ⊎ Printed next new status
        (rows_text merged.table.columns (merged_rows merged.table.sort merged.inputs))) }
    ensures show { (path target : List ℕ) (parts : List (List ℕ)) (files : Files) (old between next new : World)
        (status : Status) → old.files ≡ Some files → IsTrue (are_inputs parts)
        → Runs (Some (Merge path target parts)) old between Done → next.files ≡ between.files
        → Runs (Some (Show path target)) next new status
        → (merged : Merged path target parts files between)
        × (let rows = merged_rows merged.table.sort merged.inputs in
        let after = with_written_part merged.table target rows files in
        FellShort next new status
        ⊎ Printed next new status
        (shown_text merged.table target after (in_granules merged.table rows))) }
    ensures select { (path target text : List ℕ) (parts : List (List ℕ)) (files : Files)
        (old between next new : World) (status : Status) → old.files ≡ Some files → IsTrue (are_inputs parts)
        → Runs (Some (Merge path target parts)) old between Done → next.files ≡ between.files
        → Runs (Some (Select path target text)) next new status
        → (merged : Merged path target parts files between)
        × ((query : Query) → Asks text merged.table (Ok query)
        → FellShort next new status
        ⊎ Printed next new status
        (answer_text merged.table query (merged_rows merged.table.sort merged.inputs))) }
{
    merged_parts_stand();
    good_parts_are_read();
}
