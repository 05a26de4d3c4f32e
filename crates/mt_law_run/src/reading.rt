//! What `check`, `rows`, `show` and `select` say of a part.

ghost use Rattle.std.specs.Prelude.{◌≡◌, ◌⊎◌, ℕ, List, Some, Ok};
ghost use Rattle.mt_table.specs.declared.definition.Table.{Table};
ghost use Rattle.mt_tsv.specs.Printing.{rows_text};
ghost use Rattle.mt_fault.specs.declared.fault.Fault.{Fault};
ghost use Rattle.mt_shelf.specs.Files.{Files};
ghost use Rattle.mt_definition.specs.declared.accepted.Accepted.{Accepted};
ghost use Rattle.mt_query.specs.declared.query.Query.{Query};
ghost use Rattle.mt_query.specs.Queries.{Asks};
ghost use Rattle.mt_fold.specs.Answer.{answer_text};
ghost use Rattle.mt_command.specs.Plans.{World};
ghost use Rattle.mt_command.specs.declared.status.Status.{Status};
ghost use Rattle.mt_command.specs.declared.status.Status.TheVariants.{AtFault, Done};
ghost use Rattle.mt_run.specs.Commands.{Runs, Check, Rows, Select, Show};
ghost use Rattle.mt_reading.specs.Reading.{accepted_line};
ghost use Rattle.mt_law_run.specs.Endings.{FellShort, Printed};
ghost use Rattle.mt_law_run.specs.Parts.{FirstFault, HasFiles, HasPart, IsAtFault, Read, StandsForNone, shown_text};

use mt_headline::{parts_are_checked_exactly, parts_have_one_outcome};
use mt_query::a_text_asks_one_thing;

/// A part that stands for rows is accepted: `check` says how many they are and in how many granules, `rows` prints them,
/// `show` how they are stored, and `select` a query's answer over them.
pub fn good_parts_are_read()
    ensures check { (path part : List ℕ) (table : Table) (held : Accepted) (files : Files) (old new : World)
        (status : Status) → old.files ≡ Some files → HasPart files path part table held
        → Runs (Some (Check path part)) old new status
        → FellShort old new status ⊎ Printed old new status (accepted_line held) }
    ensures rows { (path part : List ℕ) (table : Table) (held : Accepted) (files : Files) (old new : World)
        (status : Status) → old.files ≡ Some files → HasPart files path part table held
        → Runs (Some (Rows path part)) old new status
        → FellShort old new status ⊎ Printed old new status (rows_text table.columns held.rows) }
    ensures show { (path part : List ℕ) (table : Table) (held : Accepted) (files : Files) (old new : World)
        (status : Status) → old.files ≡ Some files → HasPart files path part table held
        → Runs (Some (Show path part)) old new status
        → FellShort old new status
        ⊎ Printed old new status (shown_text table part files held) }
    ensures select { (path part text : List ℕ) (table : Table) (held : Accepted) (query : Query) (files : Files)
        (old new : World) (status : Status) → old.files ≡ Some files → HasPart files path part table held
        → Asks text table (Ok query) → Runs (Some (Select path part text)) old new status
        → FellShort old new status ⊎ Printed old new status (answer_text table query held.rows) }
{
    parts_are_checked_exactly();
    parts_have_one_outcome();
    a_text_asks_one_thing();
}

/// What is printed of a part is so: it stands for rows in granules, and the text is the text of these.
pub fn printed_texts_are_of_the_rows()
    ensures check { (path part : List ℕ) (files : Files) (old new : World) → old.files ≡ Some files
        → Runs (Some (Check path part)) old new Done
        → Read path part files old new (λ table held. accepted_line held) }
    ensures rows { (path part : List ℕ) (files : Files) (old new : World) → old.files ≡ Some files
        → Runs (Some (Rows path part)) old new Done
        → Read path part files old new (λ table held. rows_text table.columns held.rows) }
    ensures show { (path part : List ℕ) (files : Files) (old new : World) → old.files ≡ Some files
        → Runs (Some (Show path part)) old new Done
        → Read path part files old new (λ table held. shown_text table part files held) }
    ensures select { (path part text : List ℕ) (files : Files) (old new : World) → old.files ≡ Some files
        → Runs (Some (Select path part text)) old new Done
        → (query : Query)
        × (read : Read path part files old new (λ table held. answer_text table query held.rows))
        × Asks text read.table (Ok query) }
{
    parts_are_checked_exactly();
}

/// A part at fault stands for no rows: it is the part of the words, and the fault is its first.
pub fn parts_at_fault_stand_for_none()
    ensures check { (path part word : List ℕ) (fault : Fault) (files : Files) (old new : World)
        → old.files ≡ Some files → Runs (Some (Check path part)) old new (AtFault word fault)
        → IsAtFault path part files word fault }
    ensures rows { (path part word : List ℕ) (fault : Fault) (files : Files) (old new : World)
        → old.files ≡ Some files → Runs (Some (Rows path part)) old new (AtFault word fault)
        → IsAtFault path part files word fault }
    ensures show { (path part word : List ℕ) (fault : Fault) (files : Files) (old new : World)
        → old.files ≡ Some files → Runs (Some (Show path part)) old new (AtFault word fault)
        → IsAtFault path part files word fault }
    ensures select { (path part text word : List ℕ) (fault : Fault) (files : Files) (old new : World)
        → old.files ≡ Some files → Runs (Some (Select path part text)) old new (AtFault word fault)
        → IsAtFault path part files word fault }
{
    parts_are_checked_exactly();
}

/// A part that stands for no rows is refused, with its first fault.
pub fn bad_parts_are_refused()
    ensures check { (path part : List ℕ) (table : Table) (files : Files) (old new : World) (status : Status)
        → old.files ≡ Some files → HasFiles files path part table → StandsForNone table part files
        → Runs (Some (Check path part)) old new status
        → FellShort old new status ⊎ FirstFault table part files status }
    ensures rows { (path part : List ℕ) (table : Table) (files : Files) (old new : World) (status : Status)
        → old.files ≡ Some files → HasFiles files path part table → StandsForNone table part files
        → Runs (Some (Rows path part)) old new status
        → FellShort old new status ⊎ FirstFault table part files status }
    ensures show { (path part : List ℕ) (table : Table) (files : Files) (old new : World) (status : Status)
        → old.files ≡ Some files → HasFiles files path part table → StandsForNone table part files
        → Runs (Some (Show path part)) old new status
        → FellShort old new status ⊎ FirstFault table part files status }
    ensures select { (path part text : List ℕ) (table : Table) (query : Query) (files : Files) (old new : World)
        (status : Status) → old.files ≡ Some files → HasFiles files path part table
        → Asks text table (Ok query) → StandsForNone table part files
        → Runs (Some (Select path part text)) old new status
        → FellShort old new status ⊎ FirstFault table part files status }
{
    parts_are_checked_exactly();
    a_text_asks_one_thing();
}
