//! The table of a file is what its text defines.

ghost use Rattle.std.specs.Prelude.{◌≡◌, ◌⊎◌, ◌↔◌, ℕ, List, IsSome, Some, Ok, Err};
ghost use Rattle.mt_table.specs.declared.definition.Table.{Table};
ghost use Rattle.mt_table_text.specs.declared.why.TableWhy.{TableWhy};
ghost use Rattle.mt_shelf.specs.Files.{Files};
ghost use Rattle.mt_command.specs.Plans.{World};
ghost use Rattle.mt_command.specs.Tables.{table_in};
ghost use Rattle.mt_command.specs.declared.status.Status.{Status};
ghost use Rattle.mt_command.specs.declared.status.Status.TheVariants.{BadTable};
ghost use Rattle.mt_run.specs.Commands.{Command, Runs};
ghost use Rattle.mt_law_run.specs.Endings.{FellShort, ReadsInput};
ghost use Rattle.mt_law_run.specs.Tables.{FileDefines, ReadsTable};

use mt_table_text::a_text_defines_one_table;

/// The table of a file is the one that its text defines; and where the text breaks a rule, each command that reads it is
/// refused with the first that it breaks, and so exactly there.
pub fn tables_are_what_texts_define()
    ensures table { (path : List ℕ) (files : Files) (table : Table)
        → (table_in path files ≡ Ok table) ↔ FileDefines path files (Ok table) }
    ensures bad { (path : List ℕ) (files : Files) (why : TableWhy)
        → (table_in path files ≡ Err (BadTable why)) ↔ FileDefines path files (Err why) }
    ensures refused { (command : Command) (path : List ℕ) (why : TableWhy) (files : Files) (old new : World)
        (status : Status) → old.files ≡ Some files → ReadsTable command path
        → FileDefines path files (Err why) → Runs (Some command) old new status
        → FellShort old new status ⊎ (status ≡ BadTable why) }
    ensures found { (command : Command) (why : TableWhy) (files : Files) (old new : World)
        → old.files ≡ Some files → (ReadsInput command → IsSome old.left)
        → Runs (Some command) old new (BadTable why)
        → (path : List ℕ) × ReadsTable command path × FileDefines path files (Err why) }
{
    a_text_defines_one_table();
}
