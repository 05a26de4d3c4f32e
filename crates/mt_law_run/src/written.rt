//! What `write` leaves, once it is Done.

ghost use Rattle.std.specs.Prelude.{◌≡◌, ◌⊎◌, ℕ, List, Some, Ok};
ghost use Rattle.mt_tsv.specs.Printing.{rows_text};
ghost use Rattle.mt_shelf.specs.Files.{Files};
ghost use Rattle.mt_defs.specs.Sorting.{sorted_rows};
ghost use Rattle.mt_query.specs.declared.query.Query.{Query};
ghost use Rattle.mt_query.specs.Queries.{Asks};
ghost use Rattle.mt_fold.specs.Answer.{answer_text};
ghost use Rattle.mt_command.specs.Plans.{World};
ghost use Rattle.mt_command.specs.declared.status.Status.{Status};
ghost use Rattle.mt_command.specs.declared.status.Status.TheVariants.{Done};
ghost use Rattle.mt_run.specs.Commands.{Runs, Check, Rows, Select, Show, Write};
ghost use Rattle.mt_reading.specs.Reading.{accepted_line};
ghost use Rattle.mt_law_run.specs.Endings.{FellShort, Printed};
ghost use Rattle.mt_law_run.specs.Parts.{shown_text};
ghost use Rattle.mt_law_run.specs.Published.{Wrote, in_granules, with_written_part};

use crate::reading::good_parts_are_read;
use mt_headline::storable_rows_are_accepted;
use mt_law_written::{written_folder_stands, written_names_differ};
use mt_shelf::Source;

/// What `write` leaves at PART, once it is Done, is the writer's folder of the rows of the input in key order, which
/// stands for them in the writer's granules; no other file changes, and the input is read to its end.
pub fn written_parts_stand<S: Source>()
    ensures { (source : S) (path part input : List ℕ) (files : Files) (old new : World)
        → old.files ≡ Some files → old.left ≡ Some input → S.left source ≡ Some input
        → Runs (Some (Write path part)) old new Done → Wrote path part input files new }
{
    storable_rows_are_accepted();
    written_folder_stands();
    written_names_differ();
}

/// A part that `write` made is one that the other commands read, on any shelf that holds what `write` left: `check`
/// accepts it in the writer's granules, `rows` prints the rows of the input in key order, `show` how they are stored,
/// and `select` answers over them.
pub fn written_parts_are_read<S: Source>()
    ensures check { (source : S) (path part input : List ℕ) (files : Files) (old between next new : World)
        (status : Status) → old.files ≡ Some files → old.left ≡ Some input → S.left source ≡ Some input
        → Runs (Some (Write path part)) old between Done → next.files ≡ between.files
        → Runs (Some (Check path part)) next new status
        → (wrote : Wrote path part input files between)
        × (let rows = sorted_rows wrote.table.sort wrote.rows in
        FellShort next new status
        ⊎ Printed next new status (accepted_line (in_granules wrote.table rows))) }
    ensures rows { (source : S) (path part input : List ℕ) (files : Files) (old between next new : World)
        (status : Status) → old.files ≡ Some files → old.left ≡ Some input → S.left source ≡ Some input
        → Runs (Some (Write path part)) old between Done → next.files ≡ between.files
        → Runs (Some (Rows path part)) next new status
        → (wrote : Wrote path part input files between)
        × (FellShort next new status
        ⊎ Printed next new status (rows_text wrote.table.columns (sorted_rows wrote.table.sort wrote.rows))) }
    ensures show { (source : S) (path part input : List ℕ) (files : Files) (old between next new : World)
        (status : Status) → old.files ≡ Some files → old.left ≡ Some input → S.left source ≡ Some input
        → Runs (Some (Write path part)) old between Done → next.files ≡ between.files
        → Runs (Some (Show path part)) next new status
        → (wrote : Wrote path part input files between)
        × (let rows = sorted_rows wrote.table.sort wrote.rows in
        let after = with_written_part wrote.table part rows files in
        FellShort next new status
        ⊎ Printed next new status
        (shown_text wrote.table part after (in_granules wrote.table rows))) }
    ensures select { (source : S) (path part input text : List ℕ) (files : Files) (old between next new : World)
        (status : Status) → old.files ≡ Some files → old.left ≡ Some input → S.left source ≡ Some input
        → Runs (Some (Write path part)) old between Done → next.files ≡ between.files
        → Runs (Some (Select path part text)) next new status
        → (wrote : Wrote path part input files between)
        × ((query : Query) → Asks text wrote.table (Ok query)
        → FellShort next new status
        ⊎ Printed next new status
        (answer_text wrote.table query (sorted_rows wrote.table.sort wrote.rows))) }
{
    written_parts_stand::<S>();
    good_parts_are_read();
}
