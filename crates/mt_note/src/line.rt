//! The line that the notes get of a status (docs/CLI.md, "Notes").
ghost use Rattle.std.specs.Prelude.{◌≡◌, ◌++◌, IfOk, OnOk, codes, decimal};
ghost use Rattle.mt_note.specs.Notes.{fault_text, granule_text, line_of, offset_text, query_why_name, row_why_name};
ghost use Rattle.mt_note.specs.Notes.{table_why_name, what_name, why_name};

use itoa::Buffer;
use mt_command::{Status, What};
use mt_fault::{Fault, Why};
use mt_query::QueryWhy;
use mt_table_text::TableWhy;
use mt_tsv::RowWhy;
use mt_types::{List, NoMemory};
use std::alloc::Global;

fn table_why_name(why: TableWhy) -> &'static str
    ensures { result.now ≡ table_why_name why }
{
    match why {
        TableWhy::Syntax => "Syntax",
        TableWhy::NotAType => "NotAType",
        TableWhy::TwoNames => "TwoNames",
        TableWhy::NoSuchColumn => "NoSuchColumn",
        TableWhy::BadKey => "BadKey",
        TableWhy::BadPartition => "BadPartition",
        TableWhy::BadSkip => "BadSkip",
        TableWhy::BadProjection => "BadProjection",
        TableWhy::Codec => "Codec",
        TableWhy::Setting => "Setting",
        TableWhy::TooMany => "TooMany",
    }
}

fn query_why_name(why: QueryWhy) -> &'static str
    ensures { result.now ≡ query_why_name why }
{
    match why {
        QueryWhy::TooMany => "TooMany",
        QueryWhy::Syntax => "Syntax",
        QueryWhy::NoSuchColumn => "NoSuchColumn",
        QueryWhy::NotGrouped => "NotGrouped",
        QueryWhy::BadLiteral => "BadLiteral",
        QueryWhy::BadAggregate => "BadAggregate",
    }
}

fn row_why_name(why: RowWhy) -> &'static str
    ensures { result.now ≡ row_why_name why }
{
    match why {
        RowWhy::NoLineEnd => "NoLineEnd",
        RowWhy::Columns => "Columns",
        RowWhy::Null => "Null",
        RowWhy::Number => "Number",
        RowWhy::Range => "Range",
        RowWhy::TooLong => "TooLong",
        RowWhy::Escape => "Escape",
        RowWhy::Date => "Date",
        RowWhy::List => "List",
    }
}

fn why_name(why: Why) -> &'static str
    ensures { result.now ≡ why_name why }
{
    match why {
        Why::Missing => "Missing",
        Why::Syntax => "Syntax",
        Why::Columns => "Columns",
        Why::Cut => "Cut",
        Why::Method => "Method",
        Why::Sizes => "Sizes",
        Why::TooLong => "TooLong",
        Why::Length => "Length",
        Why::Rows => "Rows",
        Why::Order => "Order",
        Why::Place => "Place",
        Why::Short => "Short",
        Why::Over => "Over",
        Why::NullByte => "NullByte",
        Why::HasByte => "HasByte",
        Why::Sorted => "Sorted",
        Why::Key => "Key",
        Why::Partition => "Partition",
        Why::Value => "Value",
        Why::Projection => "Projection",
        Why::Stray => "Stray",
    }
}

fn what_name(what: What) -> &'static str
    ensures { result.now ≡ what_name what }
{
    match what {
        What::Table => "Table",
        What::Input => "Input",
        What::Rows => "Rows",
        What::Cells => "Cells",
        What::Part => "Part",
    }
}

fn append_decimal(line: &mut List<u8>, number: u64) -> Result<(), NoMemory>
    ensures { OnOk result (line.new ≡ line.old ++ decimal number) }
{
    let mut buffer = Buffer::new();
    line.append(buffer.format(number).as_bytes())
}

/// Appends the granule that a fault is in, if it is in one.
fn append_granule(line: &mut List<u8>, granule: Option<u64>) -> Result<(), NoMemory>
    ensures { OnOk result (line.new ≡ line.old ++ granule_text granule) }
{
    match granule {
        Some(number) => {
            line.append(b" granule ")?;
            append_decimal(line, number)
        }
        None => Ok(()),
    }
}

/// Appends the offset of a fault, if it has one.
fn append_offset(line: &mut List<u8>, at: Option<u64>) -> Result<(), NoMemory>
    ensures { OnOk result (line.new ≡ line.old ++ offset_text at) }
{
    match at {
        Some(number) => {
            line.append(b" at ")?;
            append_decimal(line, number)
        }
        None => Ok(()),
    }
}

fn append_fault(line: &mut List<u8>, fault: &Fault) -> Result<(), NoMemory>
    ensures { OnOk result (line.new ≡ line.old ++ fault_text fault.now) }
{
    line.append(fault.file.as_slice())?;
    append_granule(line, fault.granule)?;
    append_offset(line, fault.at)?;
    line.append(b": ")?;
    line.append(why_name(fault.why).as_bytes())
}

fn fault_line(alloc: Global, part: &[u8], fault: &Fault) -> Result<List<u8>, NoMemory>
    ensures { IfOk result (λ line. line
        ≡ codes "mtpart: " ++ part.now ++ codes ": " ++ fault_text fault.now ++ codes "\n") }
{
    let mut line = List::of_bytes(alloc, b"mtpart: ")?;
    line.append(part)?;
    line.append(b": ")?;
    append_fault(&mut line, fault)?;
    line.append(b"\n")?;
    Ok(line)
}

fn no_part_line(alloc: Global, part: &[u8]) -> Result<List<u8>, NoMemory>
    ensures { IfOk result (λ line. line ≡ codes "mtpart: " ++ part.now ++ codes ": no part\n") }
{
    let mut line = List::of_bytes(alloc, b"mtpart: ")?;
    line.append(part)?;
    line.append(b": no part\n")?;
    Ok(line)
}

fn bad_table_line(alloc: Global, why: TableWhy) -> Result<List<u8>, NoMemory>
    ensures { IfOk result (λ line. line ≡ codes "mtpart: bad table: " ++ table_why_name why ++ codes "\n") }
{
    let mut line = List::of_bytes(alloc, b"mtpart: bad table: ")?;
    line.append(table_why_name(why).as_bytes())?;
    line.append(b"\n")?;
    Ok(line)
}

fn bad_query_line(alloc: Global, why: QueryWhy) -> Result<List<u8>, NoMemory>
    ensures { IfOk result (λ line. line ≡ codes "mtpart: bad query: " ++ query_why_name why ++ codes "\n") }
{
    let mut line = List::of_bytes(alloc, b"mtpart: bad query: ")?;
    line.append(query_why_name(why).as_bytes())?;
    line.append(b"\n")?;
    Ok(line)
}

fn bad_rows_line(alloc: Global, number: u64, why: RowWhy) -> Result<List<u8>, NoMemory>
    ensures { IfOk result (λ line. line
        ≡ codes "mtpart: line " ++ decimal number ++ codes ": " ++ row_why_name why ++ codes "\n") }
{
    let mut line = List::of_bytes(alloc, b"mtpart: line ")?;
    append_decimal(&mut line, number)?;
    line.append(b": ")?;
    line.append(row_why_name(why).as_bytes())?;
    line.append(b"\n")?;
    Ok(line)
}

fn other_partition_line(alloc: Global, number: u64) -> Result<List<u8>, NoMemory>
    ensures { IfOk result (λ line. line
        ≡ codes "mtpart: line " ++ decimal number ++ codes ": another partition\n") }
{
    let mut line = List::of_bytes(alloc, b"mtpart: line ")?;
    append_decimal(&mut line, number)?;
    line.append(b": another partition\n")?;
    Ok(line)
}

fn mixed_partitions_line(alloc: Global, number: u64) -> Result<List<u8>, NoMemory>
    ensures { IfOk result (λ line. line
        ≡ codes "mtpart: input " ++ decimal number ++ codes ": another partition\n") }
{
    let mut line = List::of_bytes(alloc, b"mtpart: input ")?;
    append_decimal(&mut line, number)?;
    line.append(b": another partition\n")?;
    Ok(line)
}

fn too_much_line(alloc: Global, what: What, limit: u64) -> Result<List<u8>, NoMemory>
    ensures { IfOk result (λ line. line
        ≡ codes "mtpart: too much: " ++ what_name what ++ codes " above " ++ decimal limit ++ codes "\n") }
{
    let mut line = List::of_bytes(alloc, b"mtpart: too much: ")?;
    line.append(what_name(what).as_bytes())?;
    line.append(b" above ")?;
    append_decimal(&mut line, limit)?;
    line.append(b"\n")?;
    Ok(line)
}

/// The line of a status; of `Done` it is empty.
pub(crate) fn line_of(alloc: Global, status: &Status) -> Result<List<u8>, NoMemory>
    ensures { IfOk result (λ line. line ≡ line_of status.now) }
{
    match status {
        Status::Done => Ok(List::new(alloc)),
        Status::AtFault { part, fault } => fault_line(alloc, part.as_slice(), fault),
        Status::BadWords => List::of_bytes(alloc, b"mtpart: words are no command\n"),
        Status::NoTable => List::of_bytes(alloc, b"mtpart: no table\n"),
        Status::NoPart { part } => no_part_line(alloc, part.as_slice()),
        Status::BadTable(why) => bad_table_line(alloc, *why),
        Status::BadQuery(why) => bad_query_line(alloc, *why),
        Status::Exists => List::of_bytes(alloc, b"mtpart: target exists\n"),
        Status::NoRows => List::of_bytes(alloc, b"mtpart: no rows\n"),
        Status::BadRows { line, why } => bad_rows_line(alloc, *line, *why),
        Status::ManyPartitions { line } => other_partition_line(alloc, *line),
        Status::MixedPartitions { input } => mixed_partitions_line(alloc, *input),
        Status::TooMuch { what, limit } => too_much_line(alloc, *what, *limit),
        Status::SourceFault => List::of_bytes(alloc, b"mtpart: input failed\n"),
        Status::ShelfFault => List::of_bytes(alloc, b"mtpart: shelf failed\n"),
        Status::SinkFault => List::of_bytes(alloc, b"mtpart: output failed\n"),
        Status::NoMemory => List::of_bytes(alloc, b"mtpart: no memory\n"),
    }
}
