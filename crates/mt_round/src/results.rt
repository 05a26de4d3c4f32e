//! Results one after another, of which the first error counts.

ghost use Rattle.std.specs.Prelude.{◌≡◌, IfOk};
ghost use Rattle.mt_round.specs.Results.{values_or_first_error};

use mt_types::{List, NoMemory};
use std::alloc::Global;

/// The values of the results, in order, or the first error; `NoMemory` is that there is no room for the values.
pub fn first_failed<Y: Drop, E: Drop>(
    alloc: Global,
    results: Vec<Result<Y, E>>,
) -> Result<Result<List<Y>, E>, NoMemory>
    ensures { IfOk result (λ answer. answer ≡ values_or_first_error results.items) }
{
    let mut values = List::with_capacity(alloc, results.len())?;
    for result in results {
        match result {
            Ok(value) => values.push(value)?,
            Err(error) => return Ok(Err(error)),
        }
    }
    Ok(Ok(values))
}
