//! The step that prints a text.

ghost use Rattle.mt_command.specs.Steps.{Printed, StepCausedBy, of_output};

use crate::status::{Status, status_of_sink};
use mt_shelf::{Sink, write_all};

/// Prints a text.
pub fn print<K: Sink>(output: &mut K, text: &[u8]) -> Result<(), Status>
    ensures printed { Printed text.now (K.written output.old) (K.written output.new) result }
    ensures cause { StepCausedBy result (of_output (K.faults output.old)) (of_output (K.faults output.new)) }
{
    match write_all(output, text) {
        Ok(()) => Ok(()),
        Err(error) => Err(status_of_sink(error)),
    }
}
