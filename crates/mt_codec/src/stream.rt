//! The substreams of a type, in their order.

ghost use Rattle.std.specs.Prelude.{◌≡◌, ◌+◌, ◌≤◌, ◌++◌, IfOk, IsTrue, OnOk};
ghost use Rattle.mt_types.specs.declared.limits.TheConstants.{MAX_ARRAY_DEPTH};
ghost use Rattle.mt_types.specs.Profile.{is_profile};
ghost use Rattle.mt_defs.specs.FileNames.{array_levels};
ghost use Rattle.mt_codec.specs.StreamOrder.{streams_from};
ghost use Rattle.mt_codec.specs.StreamOrder as defined;

use mt_types::{List, NoMemory, Ty};
use std::alloc::Global;

/// A substream of a column (docs/FORMAT.md, "Substreams"; ClickHouse: `ISerialization::Substream`).
#[derive(Clone, Copy, Debug, PartialEq)]
pub enum Stream {
    /// The lengths of the arrays of a level, 8 bytes each. The outermost level is 0.
    Sizes(u32),
    /// Which values are NULL, one byte each.
    Nulls,
    /// The items of a type that is neither Nullable nor an Array.
    Items,
}

/// The substreams of a type of the profile, in the order in which they are written.
pub fn streams_of(alloc: Global, ty: &Ty) -> Result<List<Stream>, NoMemory>
    requires { IsTrue (is_profile ty.now) }
    ensures { IfOk result (λ streams. streams ≡ defined.streams_of ty.now) }
{
    let mut streams = List::new(alloc);
    append_streams(ty, 0, &mut streams)?;
    Ok(streams)
}

/// Appends the substreams of a type inside so many arrays.
fn append_streams(ty: &Ty, level: u32, streams: &mut List<Stream>) -> Result<(), NoMemory>
    requires profile { IsTrue (is_profile ty.now) }
    requires depth { level + array_levels ty.now ≤ MAX_ARRAY_DEPTH }
    ensures { OnOk result (streams.new ≡ streams.old ++ streams_from ty.now level) }
{
    match ty {
        Ty::Nullable(inner) => {
            streams.push(Stream::Nulls)?;
            append_streams(inner.get(), level, streams)
        }
        Ty::Array(inner) => {
            streams.push(Stream::Sizes(level))?;
            append_streams(inner.get(), level + 1, streams)
        }
        _ => streams.push(Stream::Items),
    }
}
