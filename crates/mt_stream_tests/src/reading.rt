//! Payloads of one file, read one after another.

ghost use Rattle.std.specs.Prelude.{◌≡◌, length, IsTrue};
ghost use Rattle.mt_shelf.specs.Paths.{is_path};
ghost use Rattle.mt_shelf.specs.State.{files_of};
ghost use Rattle.mt_shelf_frame.specs.Taking.{KnownBytes};

use crate::files::PATH;
use mt_defs::Mark;
use mt_shelf::{Shelf, is_path};
use mt_stream::{FrameStream, StreamError};
use std::alloc::Global;
use std::test::Fail;

/// What is shown between the marks of each pair, one pair after another, up to the first error.
pub fn read_pairs<F: Shelf>(
    alloc: Global,
    shelf: &mut F,
    pairs: &[(Mark, Mark)],
    into: &mut Vec<u8>,
) -> Result<Result<(), StreamError>, Fail> {
    if !is_path(PATH) {
        return Err(Fail::from("no path"));
    }
    let Some(size) = shelf.size(PATH)? else {
        return Err(Fail::from("no file"));
    };
    Ok(read_each(alloc, shelf, PATH, size, pairs, into))
}

fn read_each<F: Shelf>(
    alloc: Global,
    shelf: &mut F,
    path: &str,
    size: u64,
    pairs: &[(Mark, Mark)],
    into: &mut Vec<u8>,
) -> Result<(), StreamError>
    requires path { IsTrue (is_path path.now) }
    requires size { KnownBytes (files_of (F.state shelf.old)) path.now (λ bytes. length bytes ≡ size) }
{
    let mut stream = FrameStream::new(alloc, size);
    for pair in pairs {
        stream.read(alloc, shelf, path, pair.0, pair.1, into)?;
    }
    Ok(())
}
