//! The form of columns.txt: the column lines, whatever they name.

ghost use Rattle.std.specs.Prelude.{◌≡◌, ◌==◌, length, option_map, bytes_eq};
ghost use Rattle.std.specs.List.{slice_split};
ghost use Rattle.mt_meta.specs.ColumnsReading.{is_named, is_column_line, column_lines, count_line, version_line, listing};
ghost use Rattle.mt_meta.specs.Results.{GivesListing};

use crate::ascii::{BACKQUOTE, BLANK, LINE_END};
use crate::split::split_once;
use itoa::Buffer;

/// What follows the count of columns in the second line.
const AFTER_COUNT: &[u8] = b" columns:";

/// The column lines of a columns.txt, and how many they are, if the text has the form.
pub(crate) fn listing(text: &[u8]) -> Option<(&[u8], usize)>
    ensures { GivesListing result (listing text.now) }
{
    let (version, rest) = split_once(text, LINE_END)?;
    let (count, lines) = split_once(rest, LINE_END)?;
    let columns = count_of_lines(lines)?;
    if !is_version_line(version) {
        return None;
    }
    if !is_count_line(count, columns) {
        return None;
    }
    Some((lines, columns))
}

/// How many column lines a text is, if each of them has the form and is ended.
fn count_of_lines(text: &[u8]) -> Option<usize>
    ensures { result ≡ option_map length (column_lines (slice_split (λ byte. byte == LINE_END) text.now)) }
{
    let mut count = 0;
    let mut rest = text;
    'lines: loop {
        let Some((line, after)) = split_once(rest, LINE_END) else {
            return if rest.is_empty() { Some(count) } else { None };
        };
        if !is_column_line(line) {
            return None;
        }
        count += 1;
        rest = after;
    }
}

fn is_column_line(line: &[u8]) -> bool
    ensures { result ≡ is_column_line line.now }
{
    match line {
        [BACKQUOTE, rest @ ..] => match split_once(rest, BACKQUOTE) {
            Some((name, after)) => is_named(name, after),
            None => false,
        },
        _ => false,
    }
}

fn is_named(name: &[u8], after: &[u8]) -> bool
    ensures { result ≡ is_named name.now after.now }
{
    match (name, after) {
        ([_, ..], [blank, _, ..]) => *blank == BLANK,
        _ => false,
    }
}

fn is_version_line(line: &[u8]) -> bool
    ensures { result ≡ bytes_eq line.now version_line }
{
    line == b"columns format version: 1".as_slice()
}

fn is_count_line(line: &[u8], columns: usize) -> bool
    ensures { result ≡ bytes_eq line.now (count_line columns) }
{
    let mut buffer = Buffer::new();
    match line.strip_prefix(buffer.format(columns).as_bytes()) {
        Some(rest) => rest == AFTER_COUNT,
        None => false,
    }
}
