//! What a run leaves alone.

ghost use Rattle.std.specs.Prelude.{◌≡◌, ℕ, List, Some};
ghost use Rattle.mt_shelf.specs.Files.{Files};
ghost use Rattle.mt_command.specs.Plans.{World};
ghost use Rattle.mt_command.specs.declared.status.Status.{Status};
ghost use Rattle.mt_run.specs.Commands.{Runs, Check, Merge, Rows, Select, Show, Trial, Write};
ghost use Rattle.mt_law_run.specs.Published.{KeepsOthers};

use mt_headline::other_parts_stay;

/// However a run ends, no file changes but below the target of `write` and `merge`, and each part apart from it is what
/// it was.
pub fn other_parts_stay_as_they_were()
    ensures write { (path part input : List ℕ) (files : Files) (old new : World) (status : Status)
        → old.files ≡ Some files → old.left ≡ Some input
        → Runs (Some (Write path part)) old new status → KeepsOthers part files new }
    ensures merge { (path target : List ℕ) (parts : List (List ℕ)) (files : Files) (old new : World)
        (status : Status) → old.files ≡ Some files
        → Runs (Some (Merge path target parts)) old new status → KeepsOthers target files new }
    ensures check { (path part : List ℕ) (files : Files) (old new : World) (status : Status)
        → old.files ≡ Some files → Runs (Some (Check path part)) old new status → new.files ≡ old.files }
    ensures rows { (path part : List ℕ) (files : Files) (old new : World) (status : Status)
        → old.files ≡ Some files → Runs (Some (Rows path part)) old new status → new.files ≡ old.files }
    ensures show { (path part : List ℕ) (files : Files) (old new : World) (status : Status)
        → old.files ≡ Some files → Runs (Some (Show path part)) old new status → new.files ≡ old.files }
    ensures select { (path part text : List ℕ) (files : Files) (old new : World) (status : Status)
        → old.files ≡ Some files → Runs (Some (Select path part text)) old new status
        → new.files ≡ old.files }
    ensures trial { (number rows : ℕ) (files : Files) (old new : World) (status : Status)
        → old.files ≡ Some files → Runs (Some (Trial number rows)) old new status → new.files ≡ old.files }
{
    other_parts_stay();
}
