//! Brackets and quotes of an array, byte by byte.

ghost use Rattle.std.specs.Prelude.{◌≡◌, ◌+◌, ◌^◌, ◌<◌, ◌≤◌, length, IfSome};
ghost use Rattle.mt_tsv.specs.Nesting.{depth_of, nesting_after, is_outside, is_level, is_comma, is_matched, IsElementEnd};

use crate::ascii::{BACKSLASH, CLOSE, COMMA, OPEN, QUOTE};

/// Where a byte stands between the brackets of an array.
#[derive(Clone, Copy)]
pub enum Nesting {
    /// Outside quotes, so many inner brackets deep.
    Outside(u64),
    /// In quotes, so many brackets deep.
    InQuotes(u64),
    /// In quotes, after a backslash.
    Escaped(u64),
    /// After a bracket that closes none.
    Unmatched,
}

impl Nesting {
    /// Where the next byte stands.
    pub fn after(self, byte: u8) -> Nesting
        requires { depth_of self < 2 ^ 63 }
        ensures next { result ≡ nesting_after self byte }
        ensures deeper { depth_of result ≤ depth_of self + 1 }
    {
        match self {
            Nesting::Outside(depth) => match byte {
                QUOTE => Nesting::InQuotes(depth),
                OPEN => Nesting::Outside(depth + 1),
                CLOSE => {
                    if depth == 0 {
                        Nesting::Unmatched
                    } else {
                        Nesting::Outside(depth - 1)
                    }
                }
                _ => self,
            },
            Nesting::InQuotes(depth) => match byte {
                QUOTE => Nesting::Outside(depth),
                BACKSLASH => Nesting::Escaped(depth),
                _ => self,
            },
            Nesting::Escaped(depth) => Nesting::InQuotes(depth),
            Nesting::Unmatched => self,
        }
    }

    /// Whether all quotes are closed.
    pub fn is_outside(self) -> bool
        ensures { result ≡ is_outside self }
    {
        match self {
            Nesting::Outside(_) => true,
            _ => false,
        }
    }

    /// Whether all quotes and brackets are closed.
    pub fn is_level(self) -> bool
        ensures { result ≡ is_level self }
    {
        match self {
            Nesting::Outside(depth) => depth == 0,
            _ => false,
        }
    }

    /// Whether this byte is a comma between elements.
    pub fn is_comma(self, byte: u8) -> bool
        ensures { result ≡ is_comma self byte }
    {
        match self {
            Nesting::Outside(depth) => { if depth == 0 { byte == COMMA } else { false } }
            _ => false,
        }
    }
}

/// Whether each quote and bracket between an array's brackets is closed.
#[tactic(auto, unfolding(crate::specs::Nesting::is_matched_from))]
pub fn is_matched(content: &[u8]) -> bool
    ensures { result ≡ is_matched content.now }
{
    let mut nesting = Nesting::Outside(0);
    for byte in content {
        nesting = nesting.after(*byte);
    }
    nesting.is_level()
}

/// Where the first element ends, if a comma follows it.
pub fn element_end(content: &[u8]) -> Option<usize>
    ensures end { IsElementEnd content.now result }
    ensures within { IfSome result (λ i. i < length content.now) }
{
    let mut nesting = Nesting::Outside(0);
    for (i, byte) in content.iter().enumerate() {
        if nesting.is_comma(*byte) {
            return Some(i);
        }
        nesting = nesting.after(*byte);
    }
    None
}
