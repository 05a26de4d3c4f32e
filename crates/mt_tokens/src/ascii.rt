//! The bytes that tokens are made of (docs/LANGUAGE.md, "Tokens").

ghost use Rattle.std.specs.Prelude.{◌≡◌};
ghost use Rattle.mt_types.specs.Words.{is_word_start, is_word_byte};
ghost use Rattle.mt_tokens.specs.Bytes.{is_blank};

/// Round a text.
pub(crate) const QUOTE: u8 = b'\'';

/// Round a name.
pub(crate) const BACKQUOTE: u8 = b'`';

/// Begins an escape in a text.
pub(crate) const BACKSLASH: u8 = b'\\';

/// A space, a tab or an end of a line: what parts tokens.
pub(crate) fn is_blank(c: u8) -> bool
    ensures { result ≡ is_blank c }
{
    matches!(c, b' ' | b'\t' | b'\r' | b'\n')
}

/// A letter or `_`.
pub(crate) fn is_word_start(c: u8) -> bool
    ensures { result ≡ is_word_start c }
{
    c.is_ascii_alphabetic() || c == b'_'
}

/// A letter, a digit or `_`.
pub(crate) fn is_word_byte(c: u8) -> bool
    ensures { result ≡ is_word_byte c }
{
    is_word_start(c) || c.is_ascii_digit()
}
