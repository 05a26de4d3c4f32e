//! What opening has to do with the reading of payloads.

ghost use Rattle.std.specs.Prelude.{◌≡◌, ◌≤◌, ℕ, List as Seq, Ok, sum};
ghost use Rattle.mt_defs.specs.Folder.{Folder};
ghost use Rattle.mt_table.specs.declared.limits.TheConstants.{MAX_ROWS};
ghost use Rattle.mt_granules.specs.PayloadReading.{GranulePayloads, payloads_reading};
ghost use Rattle.mt_marked_file.specs.Opening.{IsOpened};

/// Files whose payloads are read are opened, where they have no more rows than a part may have: so each fault of
/// opening is one for which no payloads are read. What they are opened as are the marks that cut the payloads.
#[tactic(auto, using(crate::proofs::LawLemmas::read_opens))]
pub fn read_files_are_opened()
    ensures { (folder : Folder) (data_name marks_name : Seq ℕ) (per_granule : ℕ) (read : GranulePayloads)
        → payloads_reading folder data_name marks_name per_granule ≡ Ok read → sum read.granules ≤ MAX_ROWS
        → IsOpened folder data_name marks_name per_granule read }
{}
