//! Texts with escapes, written.

ghost use Rattle.std.specs.Prelude.{◌≡◌, ◌++◌, take, length, OnOk, OnErr};
ghost use Rattle.mt_tsv.specs.Printing.{letter_of, escaped_text};

use crate::ascii::BACKSLASH;
use mt_types::{List, NoMemory};

/// The letter that stands for this byte after a backslash, if it is written so.
fn letter(byte: u8) -> Option<u8>
    ensures { result ≡ letter_of byte }
{
    match byte {
        8 => Some(b'b'),
        12 => Some(b'f'),
        13 => Some(b'r'),
        10 => Some(b'n'),
        9 => Some(b't'),
        0 => Some(b'0'),
        39 => Some(b'\''),
        92 => Some(b'\\'),
        _ => None,
    }
}

/// Appends a text with its escapes, runs of other bytes at once; on `NoMemory` perhaps a part of it.
pub fn append_text(out: &mut List<u8>, text: &[u8]) -> Result<(), NoMemory>
    ensures ok { OnOk result (out.new ≡ out.old ++ escaped_text text.now) }
    ensures kept { OnErr result (take (length out.old) out.new ≡ out.old) }
{
    let mut run_start = 0;
    for (i, byte) in text.iter().enumerate() {
        if let Some(letter) = letter(*byte) {
            out.append(&text[run_start..i])?;
            out.append(&[BACKSLASH, letter])?;
            run_start = i + 1;
        }
    }
    out.append(&text[run_start..])
}
