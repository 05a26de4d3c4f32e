//! Bytes before and after a separator.

ghost use Rattle.std.specs.Prelude.{◌≡◌, [], ◌∷◌, ◌==◌, ◌<◌, length, position, count_by, IfSome, MatchOption};
ghost use Rattle.std.specs.List.{slice_split};
ghost use Rattle.std.specs.Option.{option_copied};
ghost use Rattle.mt_tsv.specs.Reading.{parts};

/// The first byte and the rest.
pub fn split_first(bytes: &[u8]) -> Option<(u8, &[u8])>
    ensures { MatchOption result (bytes.now ≡ []) (λ p. bytes.now ≡ p.0 ∷ p.1.now) }
{
    let (first, rest) = bytes.split_first()?;
    Some((*first, rest))
}

fn position_of(bytes: &[u8], end: u8) -> Option<usize>
    ensures { result ≡ position (λ b. b == end) bytes.now }
{
    bytes.iter().position(|b| *b == end)
}

/// How many separators there are.
pub fn count_of(bytes: &[u8], end: u8) -> usize
    ensures { result ≡ count_by (λ b. b == end) bytes.now }
{
    bytes.iter().filter(|b| **b == end).count()
}

/// What stands before the first separator, and what follows it, if it is there.
pub fn cut(bytes: &[u8], end: u8) -> (&[u8], Option<&[u8]>)
    ensures parts { slice_split (λ b. b == end) bytes.now ≡ result.0.now ∷ parts end (option_copied result.1) }
    ensures shorter { IfSome result.1 (λ rest. length rest.now < length bytes.now) }
{
    match position_of(bytes, end) {
        None => (bytes, None),
        Some(i) => (&bytes[..i], Some(&bytes[i + 1..])),
    }
}
