//! When a run is Done, and why else it ends.

ghost use Rattle.std.specs.Prelude.{◌≡◌, ◌⊎◌, ℕ, List, [], ◌∷◌, Some, None, IsSome, false};
ghost use Rattle.std.specs.Io.KnownBytes.{append_known};
ghost use Rattle.mt_table.specs.declared.definition.Table.{Table};
ghost use Rattle.mt_shelf.specs.Files.{Files};
ghost use Rattle.mt_defs.specs.Rows.{Row};
ghost use Rattle.mt_command.specs.Plans.{NoneRose, Unchanged, World};
ghost use Rattle.mt_command.specs.Status.{is_outside_fault};
ghost use Rattle.mt_command.specs.declared.status.Status.{Status};
ghost use Rattle.mt_command.specs.declared.status.Status.TheVariants.{BadWords, Done, NoMemory, ShelfFault, SinkFault, SourceFault};
ghost use Rattle.mt_run.specs.Commands.{Command, Runs, Merge, Trial, Write};
ghost use Rattle.mt_run.specs.Words.{check_command, merge_command, trial_command, workers_in, write_command};
ghost use Rattle.mt_trial.specs.Trial.{trial_text};
ghost use Rattle.mt_law_run.specs.Endings.{FellShort, NoneFailed, PrintsText, ReadsInput, UsesShelf};
ghost use Rattle.mt_law_run.specs.Published.{CanMerge, CanWrite};

use mt_headline::{parts_are_checked_exactly, parts_have_one_outcome};

/// Where no refusal applies, a command is Done, unless an object fails or memory runs out; and where no object failed,
/// only memory can run out. `trial` has no refusal, whatever the files and the input are.
pub fn nothing_else_stops_a_run()
    ensures write { (path part input : List ℕ) (table : Table) (rows : List Row) (files : Files) (old new : World)
        (status : Status) → old.files ≡ Some files → old.left ≡ Some input
        → CanWrite files path part input table rows → Runs (Some (Write path part)) old new status
        → FellShort old new status ⊎ (status ≡ Done) }
    ensures merge { (path target : List ℕ) (parts : List (List ℕ)) (table : Table) (inputs : List (List Row))
        (files : Files) (old new : World) (status : Status) → old.files ≡ Some files
        → CanMerge files path target parts table inputs
        → Runs (Some (Merge path target parts)) old new status → FellShort old new status ⊎ (status ≡ Done) }
    ensures trial { (number rows : ℕ) (old new : World) (status : Status)
        → Runs (Some (Trial number rows)) old new status
        → FellShort old new status
        ⊎ ((status ≡ Done) × (new.written ≡ append_known old.written (trial_text number rows))) }
    ensures memory { (old new : World) (status : Status)
        → FellShort old new status → NoneFailed old new → status ≡ NoMemory }
{
    parts_are_checked_exactly();
    parts_have_one_outcome();
}

/// A failure is reported where an object failed that the command uses, and nowhere else: for every command, also where
/// nothing of the files and the streams is known. Words that are no command are refused, and nothing is done.
pub fn failures_are_reported()
    ensures failures { (command : Command) (old new : World) (status : Status)
        → Runs (Some command) old new status
        → FellShort old new status ⊎ ((is_outside_fault status ≡ false) × NoneRose old new) }
    ensures words { (old new : World) (status : Status) → Runs None old new status
        → (new ≡ old) × ((status ≡ BadWords) ⊎ (status ≡ NoMemory)) }
    ensures source { (command : Command) (old new : World)
        → Runs (Some command) old new SourceFault → ReadsInput command }
    ensures sink { (command : Command) (old new : World)
        → Runs (Some command) old new SinkFault → PrintsText command }
    ensures shelf { (command : Command) (old new : World)
        → Runs (Some command) old new ShelfFault → UsesShelf command }
    ensures refusals { (command : Command) (old new : World) (status : Status)
        → Runs (Some command) old new status → is_outside_fault status ≡ false → ¬ (status ≡ Done)
        → Unchanged old new }
{}

/// The number of workers is no part of the command: words that differ in it alone are the same command.
pub fn workers_change_nothing()
    ensures write { (path part one other : List ℕ) → IsSome (workers_in one) → IsSome (workers_in other)
        → write_command (path ∷ part ∷ one ∷ []) ≡ write_command (path ∷ part ∷ other ∷ []) }
    ensures check { (path part one other : List ℕ) → IsSome (workers_in one) → IsSome (workers_in other)
        → check_command (path ∷ part ∷ one ∷ []) ≡ check_command (path ∷ part ∷ other ∷ []) }
    ensures merge { (path one other : List ℕ) (parts : List (List ℕ)) → IsSome (workers_in one)
        → IsSome (workers_in other) → merge_command (path ∷ one ∷ parts) ≡ merge_command (path ∷ other ∷ parts) }
    ensures trial { (number rows one other : List ℕ) → IsSome (workers_in one) → IsSome (workers_in other)
        → trial_command (number ∷ rows ∷ one ∷ []) ≡ trial_command (number ∷ rows ∷ other ∷ []) }
{}
