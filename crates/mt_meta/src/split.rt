//! Bytes before and after a separator.

ghost use Rattle.std.specs.Prelude.{◌≡◌, ◌==◌, ◌<◌, ◌+◌, length, position, option_map, IfSome};
ghost use Rattle.mt_meta.specs.Splitting.{split_once};

/// What stands before the first separator, and what follows it, if it is there.
pub(crate) fn split_once(bytes: &[u8], separator: u8) -> Option<(&[u8], &[u8])>
    ensures parts { option_map (λ parts. (parts.0.now, parts.1.now)) result ≡ split_once separator bytes.now }
    ensures shorter { IfSome result (λ parts. length parts.1.now < length bytes.now) }
{
    match position_of(bytes, separator) {
        None => None,
        Some(i) => Some((&bytes[..i], &bytes[i + 1..])),
    }
}

fn position_of(bytes: &[u8], separator: u8) -> Option<usize>
    ensures { result ≡ position (λ b. b == separator) bytes.now }
{
    bytes.iter().position(|b| *b == separator)
}
