//! What a run returns, and the exit code of each status.
ghost use Rattle.std.specs.Prelude.{◌≡◌};
ghost use Rattle.mt_command.specs.Status.{code_of, status_of_rows, status_of_shelf};
ghost use Rattle.mt_command.specs.Status.{status_of_sink, status_of_source};
ghost use Rattle.mt_command.specs.Plans.{answer_of};

use mt_fault::Fault;
use mt_query::QueryWhy;
use mt_shelf::CallError;
use mt_table_text::TableWhy;
use mt_tsv::{MAX_CELLS, MAX_ROWS, RowError, RowWhy};
use mt_types::List;

/// A quantity that has a limit.
#[derive(Clone, Copy)]
pub enum What {
    /// The bytes of the table's text.
    Table,
    /// The bytes of the input.
    Input,
    /// The rows of a part.
    Rows,
    /// The rows times the columns of a part, with all array elements.
    Cells,
    /// The bytes of all files of a part.
    Part,
}

/// What a run returns.
#[derive(Drop)]
pub enum Status {
    /// All that the command says was done.
    Done,
    /// A part stands for no rows: its first fault.
    AtFault {
        /// The word that names the part.
        part: List<u8>,
        /// What is wrong, and where.
        fault: Fault,
    },
    /// The words are no command.
    BadWords,
    /// The shelf has no file of the table's path.
    NoTable,
    /// No file stands below a part.
    NoPart {
        /// The word that names the part.
        part: List<u8>,
    },
    /// The text is no table's, by the first rule that it breaks.
    BadTable(TableWhy),
    /// The text is no query of the table, by the first rule that it breaks.
    BadQuery(QueryWhy),
    /// A file stands at the target or below it.
    Exists,
    /// The input is empty.
    NoRows,
    /// A line of the input is no row: the first one, from 1, and why.
    BadRows {
        /// The line's number, from 1.
        line: u64,
        /// What is wrong with it.
        why: RowWhy,
    },
    /// A line has another partition value than the first line.
    ManyPartitions {
        /// The first such line, from 1.
        line: u64,
    },
    /// An input has another partition value than the first input.
    MixedPartitions {
        /// The first such input, from 1.
        input: u64,
    },
    /// A quantity passes its limit.
    TooMuch {
        /// The quantity.
        what: What,
        /// The most that is allowed.
        limit: u64,
    },
    /// The input failed, and counted a fault.
    SourceFault,
    /// The shelf failed, and counted a fault.
    ShelfFault,
    /// The output failed, and counted a fault.
    SinkFault,
    /// Memory was refused.
    NoMemory,
}

impl Status {
    /// The code that the program ends with. It takes no memory.
    pub fn code(&self) -> u8
        ensures { result ≡ code_of self.now }
    {
        match self {
            Status::Done => 0,
            Status::AtFault { .. } => 1,
            Status::SourceFault | Status::ShelfFault | Status::SinkFault => 3,
            Status::NoMemory => 4,
            _ => 2,
        }
    }
}

/// The status of a shelf's error.
pub fn status_of_shelf(error: CallError) -> Status
    ensures { result ≡ status_of_shelf error }
{
    match error {
        CallError::Failed => Status::ShelfFault,
        CallError::NoMemory => Status::NoMemory,
    }
}

/// The status of a source's error.
pub fn status_of_source(error: CallError) -> Status
    ensures { result ≡ status_of_source error }
{
    match error {
        CallError::Failed => Status::SourceFault,
        CallError::NoMemory => Status::NoMemory,
    }
}

/// The status of an output's error.
pub fn status_of_sink(error: CallError) -> Status
    ensures { result ≡ status_of_sink error }
{
    match error {
        CallError::Failed => Status::SinkFault,
        CallError::NoMemory => Status::NoMemory,
    }
}

/// The status of lines that aren't read.
pub fn status_of_rows(error: RowError) -> Status
    ensures { result ≡ status_of_rows error }
{
    match error {
        RowError::At { line, why } => Status::BadRows { line, why },
        RowError::Rows => Status::TooMuch {
            what: What::Rows,
            limit: MAX_ROWS as u64,
        },
        RowError::Cells => Status::TooMuch {
            what: What::Cells,
            limit: MAX_CELLS as u64,
        },
        RowError::NoMemory => Status::NoMemory,
    }
}

/// The status of a command whose steps ended so.
pub fn finished(steps: Result<(), Status>) -> Status
    ensures { result ≡ answer_of steps }
{
    match steps {
        Ok(()) => Status::Done,
        Err(status) => status,
    }
}
