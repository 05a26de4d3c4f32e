//! The plain program, on the worked rows of docs/FORMAT.md.

ghost use Rattle.std.specs.Prelude.{IfSome};
ghost use Rattle.mt_table.specs.Form.{IsNumbersTable};

use mt_plain::plain_folder;
use mt_table::Table;
use mt_table_text::read_table;
use mt_tsv::read_rows;
use std::test::Fail;

const TABLE: &str = "CREATE TABLE t (k UInt64, v UInt64) ENGINE = MergeTree ORDER BY k \
    SETTINGS index_granularity = 2, min_bytes_for_wide_part = 0";

/// The files, and their sizes in bytes.
const FILES: &[(&str, usize)] = &[
    ("columns.txt", 59),
    ("count.txt", 1),
    ("k.bin", 74),
    ("k.mrk2", 72),
    ("primary.idx", 24),
    ("v.bin", 74),
    ("v.mrk2", 72),
];

/// The table, if it's of two `UInt64` columns.
fn of_numbers(table: Table) -> Option<Table>
    ensures { IfSome result IsNumbersTable }
{
    if table.has_two_numbers() {
        Some(table)
    } else {
        None
    }
}

#[test]
fn the_plain_program_makes_the_worked_folder(rt: HostRuntime) -> Result<(), Fail> {
    let alloc = rt.alloc();
    let Some(table) = of_numbers(read_table(alloc, TABLE.as_bytes())?) else {
        return Err(Fail::from("not two columns of numbers"));
    };
    let rows = read_rows(alloc, &table, b"1\t10\n2\t20\n3\t30\n")?;
    let files = plain_folder(alloc, &table, rows.as_slice())?;
    assert_eq!(rt; files.len(), FILES.len());
    for (file, (name, size)) in files.as_slice().iter().zip(FILES) {
        assert_eq!(rt; file.name.as_slice(), name.as_bytes());
        assert_eq!(rt; file.bytes.len(), *size);
    }
    let index = files.as_slice()[4].bytes.as_slice();
    assert_eq!(rt;
        index,
        b"\x01\0\0\0\0\0\0\0\x03\0\0\0\0\0\0\0\x03\0\0\0\0\0\0\0".as_slice()
    );
    Ok(())
}
