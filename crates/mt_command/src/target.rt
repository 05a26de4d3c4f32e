//! The target of a command that publishes a folder.

ghost use Rattle.std.specs.Prelude.{◌≡◌, All, IfSome, IsTrue, map};
ghost use Rattle.std.specs.Option.{option_map};
ghost use Rattle.mt_shelf.specs.Paths.{is_path};
ghost use Rattle.mt_shelf.specs.Files.{gained_files};
ghost use Rattle.mt_shelf.specs.Held.{pair_of, HasName};
ghost use Rattle.mt_shelf.specs.State.{files_of};
ghost use Rattle.mt_command.specs.Status.{GivesOutcome};
ghost use Rattle.mt_command.specs.Steps.{StepCausedBy, Stored, of_shelf};
ghost use Rattle.mt_command.specs.Targets.{free_target};

use crate::status::{Status, status_of_shelf};
use mt_fault::FileBytes;
use mt_shelf::{Shelf, store};

/// Refuses a target where a file stands, or below it.
pub fn free_target<F: Shelf>(shelf: &mut F, part: &str) -> Result<(), Status>
    requires { IsTrue (is_path part.now) }
    ensures gives { IfSome (files_of (F.state shelf.old)) (λ files. GivesOutcome result (free_target part.now files)) }
    ensures state { F.state shelf.new ≡ F.state shelf.old }
    ensures cause { StepCausedBy result (of_shelf (F.faults shelf.old)) (of_shelf (F.faults shelf.new)) }
{
    match shelf.exists(part) {
        Ok(false) => Ok(()),
        Ok(true) => Err(Status::Exists),
        Err(error) => Err(status_of_shelf(error)),
    }
}

/// Publishes a folder at a part.
pub fn store_folder<F: Shelf>(shelf: &mut F, part: &str, folder: &[FileBytes]) -> Result<(), Status>
    requires part { IsTrue (is_path part.now) }
    requires names { All HasName folder.now }
    ensures stored { Stored
        (option_map (gained_files part.now (map pair_of folder.now)) (files_of (F.state shelf.old)))
        (files_of (F.state shelf.old)) (files_of (F.state shelf.new)) result }
    ensures cause { StepCausedBy result (of_shelf (F.faults shelf.old)) (of_shelf (F.faults shelf.new)) }
{
    match store(shelf, part, folder) {
        Ok(()) => Ok(()),
        Err(error) => Err(status_of_shelf(error)),
    }
}
