//! Substreams read by the name of their type, and written again.

ghost use Rattle.std.specs.Prelude.{IfOk, IsTrue};
ghost use Rattle.std.specs.List.{list_all};
ghost use Rattle.mt_types.specs.Fits.{fits_of};
ghost use Rattle.mt_types.specs.Profile.{is_profile};

use mt_codec::{CodecError, decode, decode_front, encode, streams_of};
use mt_types::{List, NoMemory, Ty, Value};
use std::alloc::Global;
use std::test::Fail;

/// The most rows that a test reads.
const MOST_ROWS: u64 = 4_194_304;

/// The substreams one after another.
pub fn joined(alloc: Global, streams: &[&[u8]]) -> Result<List<u8>, NoMemory> {
    let mut bytes = List::new(alloc);
    for stream in streams {
        bytes.append(stream)?;
    }
    Ok(bytes)
}

/// What a list of bytes for each substream of a type is read as.
pub fn decoded(alloc: Global, ty: &Ty, rows: u64, streams: &[&[u8]]) -> Result<List<Value>, Fail>
    requires { IsTrue (is_profile ty.now) }
    ensures { IfOk result (λ values. IsTrue (list_all (fits_of ty.now) values)) }
{
    match read(alloc, ty, rows, streams) {
        Ok(values) => Ok(values),
        Err(error) => Err(Fail::new(error)),
    }
}

fn read(alloc: Global, ty: &Ty, rows: u64, streams: &[&[u8]]) -> Result<List<Value>, CodecError>
    requires { IsTrue (is_profile ty.now) }
    ensures { IfOk result (λ values. IsTrue (list_all (fits_of ty.now) values)) }
{
    if streams_of(alloc, ty)?.len() != streams.len() || rows > MOST_ROWS {
        return Err(CodecError::NoMemory);
    }
    decode(alloc, ty, rows, streams)
}

/// The fault of a list of bytes for each substream of the type of this name.
pub fn fault(
    alloc: Global,
    name: &str,
    rows: u64,
    streams: &[&[u8]],
) -> Result<Option<CodecError>, Fail> {
    let ty = Ty::read_name(alloc, name.as_bytes())?;
    Ok(read(alloc, &ty, rows, streams).err())
}

/// The values of a list of bytes for each substream, written again one after another.
pub fn rewritten(
    alloc: Global,
    name: &str,
    rows: u64,
    streams: &[&[u8]],
) -> Result<List<u8>, Fail> {
    let ty = Ty::read_name(alloc, name.as_bytes())?;
    let values = decoded(alloc, &ty, rows, streams)?;
    Ok(written(alloc, &ty, values.as_slice())?)
}

/// The substreams of values one after another.
pub fn written(alloc: Global, ty: &Ty, values: &[Value]) -> Result<List<u8>, NoMemory>
    requires profile { IsTrue (is_profile ty.now) }
    requires fit { IsTrue (list_all (fits_of ty.now) values.now) }
{
    let mut bytes = List::new(alloc);
    for stream in encode(alloc, ty, values)?.as_slice() {
        bytes.append(stream.as_slice())?;
    }
    Ok(bytes)
}

/// The values of substreams that follow each other, written again, and how many bytes were read.
pub fn rewritten_front(
    alloc: Global,
    name: &str,
    rows: u64,
    bytes: &[u8],
) -> Result<(List<u8>, usize), Fail> {
    let ty = Ty::read_name(alloc, name.as_bytes())?;
    match read_front(alloc, &ty, rows, bytes) {
        Ok((values, used)) => Ok((written(alloc, &ty, values.as_slice())?, used)),
        Err(error) => Err(Fail::new(error)),
    }
}

/// The fault of substreams that follow each other.
pub fn front_fault(
    alloc: Global,
    name: &str,
    rows: u64,
    bytes: &[u8],
) -> Result<Option<CodecError>, Fail> {
    let ty = Ty::read_name(alloc, name.as_bytes())?;
    Ok(read_front(alloc, &ty, rows, bytes).err())
}

fn read_front(
    alloc: Global,
    ty: &Ty,
    rows: u64,
    bytes: &[u8],
) -> Result<(List<Value>, usize), CodecError>
    requires { IsTrue (is_profile ty.now) }
    ensures { IfOk result (λ found. IsTrue (list_all (fits_of ty.now) found.0)) }
{
    if rows > MOST_ROWS {
        return Err(CodecError::NoMemory);
    }
    decode_front(alloc, ty, rows, bytes)
}
