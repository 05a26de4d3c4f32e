//! The step that reads the input to its end.
ghost use Rattle.std.specs.Prelude.{◌≢◌, [], IfOk, IfSome, OnOk};
ghost use Rattle.std.specs.Io.KnownBytes.{IsAtEnd};
ghost use Rattle.mt_command.specs.Status.{GivesOutcome};
ghost use Rattle.mt_command.specs.Steps.{StepCausedBy, of_source};
ghost use Rattle.mt_writing.specs.Write.{input_text};

use mt_command::{MAX_INPUT, Status, What, status_of_source};
use mt_shelf::{Input, Source, read_all};
use mt_types::List;
use std::alloc::Global;

/// Reads the input to its end: at least one byte, and no more than the limit.
pub(crate) fn read_input<S: Source>(alloc: Global, input: &mut S) -> Result<List<u8>, Status>
    ensures gives { IfSome (S.left input.old) (λ input. GivesOutcome result (input_text input)) }
    ensures some { IfOk result (λ text. text ≢ []) }
    ensures ended { OnOk result (IsAtEnd (S.left input.new)) }
    ensures cause { StepCausedBy result (of_source (S.faults input.old)) (of_source (S.faults input.new)) }
{
    let text = match read_all(alloc, input, MAX_INPUT) {
        Ok(Input::Whole(text)) => text,
        Ok(Input::TooLong) => {
            return Err(Status::TooMuch {
                what: What::Input,
                limit: MAX_INPUT as u64,
            });
        }
        Err(error) => return Err(status_of_source(error)),
    };
    if text.is_empty() {
        return Err(Status::NoRows);
    }
    Ok(text)
}
