//! Signs: punctuation and comparisons.

ghost use Rattle.std.specs.Prelude.{◌≡◌, option_map};
ghost use Rattle.mt_tokens.specs.Signs.{double_sign, single_sign, sign_at};

use crate::lexis::split_byte;

/// A sign of one or two bytes (docs/LANGUAGE.md, "Tokens").
#[derive(Clone, Copy)]
pub enum Sign {
    /// `(`
    Open,
    /// `)`
    Close,
    /// `,`
    Comma,
    /// `.`
    Dot,
    /// `;`
    Semicolon,
    /// `*`
    Star,
    /// `-`
    Minus,
    /// `=`
    Equal,
    /// `!=` or `<>`
    NotEqual,
    /// `<`
    Less,
    /// `<=`
    LessEqual,
    /// `>`
    Greater,
    /// `>=`
    GreaterEqual,
}

/// The sign of these two bytes.
fn double_sign(first: u8, second: u8) -> Option<Sign>
    ensures { result ≡ double_sign first second }
{
    match (first, second) {
        (b'<', b'>') => Some(Sign::NotEqual),
        (b'!', b'=') => Some(Sign::NotEqual),
        (b'<', b'=') => Some(Sign::LessEqual),
        (b'>', b'=') => Some(Sign::GreaterEqual),
        _ => None,
    }
}

/// The sign of this byte.
fn single_sign(c: u8) -> Option<Sign>
    ensures { result ≡ single_sign c }
{
    match c {
        b'(' => Some(Sign::Open),
        b')' => Some(Sign::Close),
        b',' => Some(Sign::Comma),
        b'.' => Some(Sign::Dot),
        b';' => Some(Sign::Semicolon),
        b'*' => Some(Sign::Star),
        b'-' => Some(Sign::Minus),
        b'=' => Some(Sign::Equal),
        b'<' => Some(Sign::Less),
        b'>' => Some(Sign::Greater),
        _ => None,
    }
}

/// The sign that the bytes begin with, of two bytes where they are one, and what follows it.
pub(crate) fn split_sign(bytes: &[u8]) -> Option<(Sign, &[u8])>
    ensures { option_map (λ x. (x.0, x.1.now)) result ≡ sign_at bytes.now }
{
    let (first, rest) = split_byte(bytes)?;
    if let Some((second, after)) = split_byte(rest) {
        if let Some(sign) = double_sign(first, second) {
            return Some((sign, after));
        }
    }
    let sign = single_sign(first)?;
    Some((sign, rest))
}
