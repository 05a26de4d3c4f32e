//! The words of a call.
ghost use Rattle.std.specs.Prelude.{◌≡◌, ◌≢◌, [], All, IsTrue, map, true};
ghost use Rattle.mt_shelf.specs.Paths.{is_path};
ghost use Rattle.std.specs.List.{list_all};
ghost use Rattle.std.specs.Option.{option_map};
ghost use Rattle.std.specs.String.{string_bytes};
ghost use Rattle.mt_run.specs.Words.{are_inputs, are_paths, is_digit, is_first_digit, workers_in};

use mt_command::MAX_INPUTS;
use mt_shelf::is_path;
use mt_workers::Workers;

fn is_first_digit(byte: u8) -> bool
    ensures { result ≡ is_first_digit byte }
{
    b'1' <= byte && byte <= b'9'
}

fn is_digit(byte: u8) -> bool
    ensures { result ≡ is_digit byte }
{
    byte.is_ascii_digit()
}

/// The number of workers that a word gives, from 1 to 64, if it gives one.
pub(crate) fn workers_in(word: &[u8]) -> Option<Workers>
    ensures { option_map (λ workers. workers.count) result ≡ workers_in word.now }
{
    match word {
        [a] if is_first_digit(*a) => Workers::new(u64::from(*a - b'0')),
        [a, b] if is_first_digit(*a) && is_digit(*b) => {
            Workers::new(10 * u64::from(*a - b'0') + u64::from(*b - b'0'))
        }
        _ => None,
    }
}

/// Whether both are paths.
pub(crate) fn are_paths(path: &str, part: &str) -> bool
    ensures same { result ≡ are_paths path.now part.now }
    ensures path { result ≡ true → IsTrue (is_path path.now) }
    ensures part { result ≡ true → IsTrue (is_path part.now) }
{
    is_path(path) && is_path(part)
}

/// Whether all words are paths.
fn are_all_paths(words: &[String]) -> bool
    ensures { result ≡ list_all is_path (map string_bytes words.now) }
{
    for word in words {
        if !is_path(word.as_str()) {
            return false;
        }
    }
    true
}

/// Whether these are from 1 to 64 paths.
pub(crate) fn are_inputs(inputs: &[String]) -> bool
    ensures same { result ≡ are_inputs (map string_bytes inputs.now) }
    ensures some { result ≡ true → inputs.now ≢ [] }
    ensures paths { result ≡ true → All (λ part. IsTrue (is_path (string_bytes part))) inputs.now }
{
    1 <= inputs.len() && inputs.len() <= MAX_INPUTS && are_all_paths(inputs)
}
