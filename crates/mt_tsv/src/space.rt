//! Spaces round the elements of an array.

ghost use Rattle.std.specs.Prelude.{◌≡◌};
ghost use Rattle.std.specs.Option.{option_copied};
ghost use Rattle.std.specs.List.{list_all, prefix_len, suffix_len};
ghost use Rattle.mt_tsv.specs.Arrays.{is_space, trimmed, unless_blank};
ghost use Rattle.mt_tsv.specs.Arrays.{without_first_spaces, without_last_spaces};

use crate::ascii::SPACE;

fn first_spaces(text: &[u8]) -> usize
    ensures { result ≡ prefix_len is_space text.now }
{
    text.iter().take_while(|b| **b == SPACE).count()
}

fn last_spaces(text: &[u8]) -> usize
    ensures { result ≡ suffix_len is_space text.now }
{
    text.iter().rev().take_while(|b| **b == SPACE).count()
}

fn without_first_spaces(text: &[u8]) -> &[u8]
    ensures { result.now ≡ without_first_spaces text.now }
{
    &text[first_spaces(text)..]
}

fn without_last_spaces(text: &[u8]) -> &[u8]
    ensures { result.now ≡ without_last_spaces text.now }
{
    &text[..text.len() - last_spaces(text)]
}

/// A text without the spaces round it.
pub fn trimmed(text: &[u8]) -> &[u8]
    ensures { result.now ≡ trimmed text.now }
{
    without_last_spaces(without_first_spaces(text))
}

fn is_blank(content: &[u8]) -> bool
    ensures { result ≡ list_all is_space content.now }
{
    for byte in content {
        if *byte != SPACE {
            return false;
        }
    }
    true
}

/// The bytes, unless they are only spaces.
pub fn unless_blank(content: &[u8]) -> Option<&[u8]>
    ensures { option_copied result ≡ unless_blank content.now }
{
    if is_blank(content) {
        None
    } else {
        Some(content)
    }
}
