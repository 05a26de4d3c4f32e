//! The names of columns and indexes as files have them.

ghost use Rattle.std.specs.Prelude.{◌≡◌, ◌<◌, ◌++◌, IfOk, OnOk};
ghost use Rattle.mt_defs.specs.FileNames.{file_name_byte};
ghost use Rattle.mt_defs.specs.FileNames as names;

use mt_types::{List, NoMemory};
use std::alloc::Global;

/// A column's or an index's name between a beginning and an ending: each byte of the name that isn't a letter, a
/// digit or `_` stands as `%` and two hexadecimal digits (docs/FORMAT.md, "Substreams"; ClickHouse:
/// `escapeForFileName`).
pub(crate) fn file_name(
    alloc: Global,
    beginning: &[u8],
    name: &[u8],
    ending: &[u8],
) -> Result<List<u8>, NoMemory>
    ensures { IfOk result (λ file. file ≡ beginning.now ++ names.file_name name.now ++ ending.now) }
{
    let mut file = List::of_bytes(alloc, beginning)?;
    for byte in name {
        append_escaped(*byte, &mut file)?;
    }
    file.append(ending)?;
    Ok(file)
}

/// A name and an ending.
pub fn with_ending(alloc: Global, name: &[u8], ending: &[u8]) -> Result<List<u8>, NoMemory>
    ensures { IfOk result (λ file. file ≡ name.now ++ ending.now) }
{
    let mut file = List::of_bytes(alloc, name)?;
    file.append(ending)?;
    Ok(file)
}

fn append_escaped(byte: u8, out: &mut List<u8>) -> Result<(), NoMemory>
    ensures { OnOk result (out.new ≡ out.old ++ file_name_byte byte) }
{
    if is_word_byte(byte) {
        out.push(byte)
    } else {
        out.append(&[b'%', hex_digit(byte / 16), hex_digit(byte % 16)])
    }
}

/// A letter, a digit or `_`.
fn is_word_byte(byte: u8) -> bool
    ensures { result ≡ names.is_word_byte byte }
{
    matches!(byte, b'0'..=b'9' | b'A'..=b'Z' | b'_' | b'a'..=b'z')
}

fn hex_digit(digit: u8) -> u8
    requires { digit < 16 }
    ensures { result ≡ names.hex_digit digit }
{
    if digit < 10 {
        b'0' + digit
    } else {
        b'A' + (digit - 10)
    }
}
