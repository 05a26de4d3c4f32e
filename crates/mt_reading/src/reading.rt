//! The commands `check` and `rows`: a part is read, and a text of it is printed.

ghost use Rattle.std.specs.Prelude.{◌≡◌, All, IfOk, IfSome, IsTrue, length};
ghost use Rattle.mt_shelf.specs.Paths.{is_path};
ghost use Rattle.mt_shelf.specs.State.{files_of};
ghost use Rattle.mt_tsv.specs.Printing.{rows_text};
ghost use Rattle.mt_command.specs.Commands.{PrintsTextOf};
ghost use Rattle.mt_command.specs.Outcomes.{ReturnsOutcome};
ghost use Rattle.mt_command.specs.Plans.{world};
ghost use Rattle.mt_command.specs.Steps.{StepCausedBy, of_shelf};
ghost use Rattle.mt_reading.specs.Reading.{accepted_line, check_steps, rows_steps};

use itoa::Buffer;
use mt_command::{Status, finished, print, read_part};
use mt_definition::Accepted;
use mt_shelf::{Shelf, Sink, Source};
use mt_table::Column;
use mt_tsv::write_row;
use mt_types::{List, NoMemory, Row};
use std::alloc::Global;

/// How many rows and granules were accepted, as a line.
fn accepted_line(alloc: Global, accepted: &Accepted) -> Result<List<u8>, NoMemory>
    ensures { IfOk result (λ line. line ≡ accepted_line accepted.now) }
{
    let mut buffer = Buffer::new();
    let mut line = List::of_bytes(alloc, b"accepted ")?;
    line.append(buffer.format(accepted.rows.len()).as_bytes())?;
    line.append(b" rows in ")?;
    line.append(buffer.format(accepted.granules.len()).as_bytes())?;
    line.append(b" granules\n")?;
    Ok(line)
}

/// The lines of rows.
fn rows_text(alloc: Global, columns: &[Column], rows: &[Row]) -> Result<List<u8>, NoMemory>
    requires { All (λ row. length row ≡ length columns.now) rows.now }
    ensures { IfOk result (λ lines. lines ≡ rows_text columns.now rows.now) }
{
    let mut lines = List::new(alloc);
    for row in rows {
        write_row(alloc, columns, row, &mut lines)?;
    }
    Ok(lines)
}

/// What `check` prints, or its refusal.
fn check_text<F: Shelf>(
    alloc: Global,
    shelf: &mut F,
    path: &str,
    part: &str,
) -> Result<List<u8>, Status>
    requires path { IsTrue (is_path path.now) }
    requires part { IsTrue (is_path part.now) }
    ensures gives { IfSome (files_of (F.state shelf.old)) (λ files. ReturnsOutcome result (check_steps path.now part.now files)) }
    ensures files { files_of (F.state shelf.new) ≡ files_of (F.state shelf.old) }
    ensures cause { StepCausedBy result (of_shelf (F.faults shelf.old)) (of_shelf (F.faults shelf.new)) }
{
    let read = match read_part(alloc, shelf, path, part) {
        Ok(read) => read,
        Err(status) => return Err(status),
    };
    match accepted_line(alloc, &read.1) {
        Ok(line) => Ok(line),
        Err(_) => Err(Status::NoMemory),
    }
}

/// What `rows` prints, or its refusal.
fn lines_of_part<F: Shelf>(
    alloc: Global,
    shelf: &mut F,
    path: &str,
    part: &str,
) -> Result<List<u8>, Status>
    requires path { IsTrue (is_path path.now) }
    requires part { IsTrue (is_path part.now) }
    ensures gives { IfSome (files_of (F.state shelf.old)) (λ files. ReturnsOutcome result (rows_steps path.now part.now files)) }
    ensures files { files_of (F.state shelf.new) ≡ files_of (F.state shelf.old) }
    ensures cause { StepCausedBy result (of_shelf (F.faults shelf.old)) (of_shelf (F.faults shelf.new)) }
{
    let read = match read_part(alloc, shelf, path, part) {
        Ok(read) => read,
        Err(status) => return Err(status),
    };
    match rows_text(alloc, read.0.columns.as_slice(), read.1.rows.as_slice()) {
        Ok(lines) => Ok(lines),
        Err(_) => Err(Status::NoMemory),
    }
}

/// The command `check`: checks a part, and prints how many rows and granules it stands for.
pub fn check<S: Source, K: Sink, F: Shelf>(
    alloc: Global,
    path: &str,
    part: &str,
    _input: &mut S,
    output: &mut K,
    shelf: &mut F,
) -> Status
    requires path { IsTrue (is_path path.now) }
    requires part { IsTrue (is_path part.now) }
    ensures { PrintsTextOf (check_steps path.now part.now)
        (world (S.left _input.old) (K.written output.old) (files_of (F.state shelf.old))
        (S.faults _input.old) (K.faults output.old) (F.faults shelf.old))
        (world (S.left _input.new) (K.written output.new) (files_of (F.state shelf.new))
        (S.faults _input.new) (K.faults output.new) (F.faults shelf.new)) result }
{
    match check_text(alloc, shelf, path, part) {
        Ok(text) => finished(print(output, text.as_slice())),
        Err(status) => status,
    }
}

/// The command `rows`: prints the rows for which a part stands.
pub fn rows<S: Source, K: Sink, F: Shelf>(
    alloc: Global,
    path: &str,
    part: &str,
    _input: &mut S,
    output: &mut K,
    shelf: &mut F,
) -> Status
    requires path { IsTrue (is_path path.now) }
    requires part { IsTrue (is_path part.now) }
    ensures { PrintsTextOf (rows_steps path.now part.now)
        (world (S.left _input.old) (K.written output.old) (files_of (F.state shelf.old))
        (S.faults _input.old) (K.faults output.old) (F.faults shelf.old))
        (world (S.left _input.new) (K.written output.new) (files_of (F.state shelf.new))
        (S.faults _input.new) (K.faults output.new) (F.faults shelf.new)) result }
{
    match lines_of_part(alloc, shelf, path, part) {
        Ok(text) => finished(print(output, text.as_slice())),
        Err(status) => status,
    }
}
