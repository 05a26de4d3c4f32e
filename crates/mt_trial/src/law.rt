//! The law of trials.

ghost use Rattle.std.specs.Prelude.{◌≡◌, ◌↔◌, ◌≤◌, ℕ, List, Ok, Result};
ghost use Rattle.mt_command.specs.declared.status.Status.{Status};
ghost use Rattle.mt_trial.specs.Steps.{trial_steps};
ghost use Rattle.mt_trial.specs.Trial.{trial_text};
ghost use Rattle.mt_trial.specs.declared.rows.TheConstants.{MAX_TRIAL_ROWS};

use mt_headline::{other_parts_stay, parts_have_one_outcome, storable_rows_are_accepted};

/// The steps of a trial come to its text, and to nothing else: both parts and their merge are accepted, as the parts of
/// the rows of which they were made, and the queries are read.
pub fn trials_have_one_outcome()
    ensures { (number rows : ℕ) (outcome : Result (List ℕ) Status) → 2 ≤ rows → rows ≤ MAX_TRIAL_ROWS
        → trial_steps number rows outcome ↔ (outcome ≡ Ok (trial_text number rows)) }
{
    storable_rows_are_accepted();
    parts_have_one_outcome();
    other_parts_stay();
}
