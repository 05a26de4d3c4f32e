//! Texts in quotes, and the word NULL.

ghost use Rattle.std.specs.Prelude.{◌≡◌};
ghost use Rattle.mt_tsv.specs.declared.nesting.Nesting.TheVariants.{InQuotes};
ghost use Rattle.mt_tsv.specs.Nesting.{is_quoted, closes_last};
ghost use Rattle.mt_tsv.specs.Arrays.{is_null_word, is_text_element};

use crate::ascii::QUOTE;
use crate::nesting::Nesting;

/// Whether an element is the word NULL.
pub fn is_null_word(text: &[u8]) -> bool
    ensures { result ≡ is_null_word text.now }
{
    matches!(text, [b'N', b'U', b'L', b'L'])
}

#[tactic(auto, unfolding(crate::specs::Nesting::closes_last))]
fn closes_last(text: &[u8]) -> bool
    ensures { result ≡ closes_last (InQuotes 0) text.now }
{
    let mut nesting = Nesting::InQuotes(0);
    for (i, byte) in text.iter().enumerate() {
        nesting = nesting.after(*byte);
        if nesting.is_outside() {
            return i + 1 == text.len();
        }
    }
    false
}

fn is_quoted(text: &[u8]) -> bool
    ensures { result ≡ is_quoted text.now }
{
    match text {
        [QUOTE, rest @ ..] => closes_last(rest),
        _ => false,
    }
}

/// Whether an element is a text in quotes, or NULL.
pub fn is_text_element(text: &[u8]) -> bool
    ensures { result ≡ is_text_element text.now }
{
    if is_null_word(text) {
        true
    } else {
        is_quoted(text)
    }
}
