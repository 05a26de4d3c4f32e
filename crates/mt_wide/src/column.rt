//! Reading a column of a Wide part.

ghost use Rattle.std.specs.Prelude.{◌≡◌, ◌<◌, ◌≤◌, [], length, map, sum, All, IfOk, IsTrue, OnOk, slice_index_or};
ghost use Rattle.std.specs.List.{list_all};
ghost use Rattle.mt_types.specs.Fits.{fits_of};
ghost use Rattle.mt_types.specs.Profile.{is_profile};
ghost use Rattle.mt_table.specs.declared.limits.TheConstants.{MAX_ROWS};
ghost use Rattle.mt_defs.specs.FileNames as defined;
ghost use Rattle.mt_codec.specs.Results.{bytes_of as slice_bytes};
ghost use Rattle.mt_granules.specs.ColumnRows.{all_values};
ghost use Rattle.mt_granules.specs.FileFaults.{in_order};
ghost use Rattle.mt_granules.specs.FileFolder.{indexed_folder};
ghost use Rattle.mt_granules.specs.PayloadReading.{granules_of, mark_count};
ghost use Rattle.mt_granules.specs.PayloadView.{bytes_of_payload, payloads_in};
ghost use Rattle.mt_fault.specs.Results.{Gives, Shows};
ghost use Rattle.mt_wide.specs.WideReading.{column_reading, granule_reading, granules_check, payloads_at, stream_reading};
ghost use Rattle.mt_wide.specs.StreamView.{HasGranules, TellsOf, streams_in};

use mt_codec::{CodecError, decode};
use mt_fault::{FileError, Why, file_fault, granule_fault};
use mt_granules::{FileIndex, Payload, Payloads, codec_why, read_payloads};
use mt_names::{stream_names, with_ending};
use mt_table::Column;
use mt_types::{List, NoMemory, Value};
use std::alloc::Global;

/// A column's values in each granule of so many rows, or the first fault of its files: of each substream
/// the frames, the marks, and whether its granules are these, and then the values.
pub fn read_column(
    alloc: Global,
    folder: &FileIndex<'_>,
    granules: &[u64],
    column: &Column,
) -> Result<List<List<Value>>, FileError>
    requires profile { IsTrue (is_profile column.now.ty) }
    requires few { sum granules.now ≤ MAX_ROWS }
    ensures reads { Gives result (column_reading (indexed_folder folder.now) granules.now column.now) }
    ensures each { IfOk result (λ values. map (λ here. length here) values ≡ granules.now) }
    ensures fit { IfOk result (λ values. IsTrue (list_all (fits_of column.now.ty) (all_values values))) }
{
    let names = stream_names(alloc, column)?;
    let streams = read_streams(alloc, folder, granules, names.as_slice())?;
    let mut values = List::with_capacity(alloc, granules.len())?;
    for (granule, rows) in granules.iter().enumerate() {
        values.push(read_granule(
            alloc,
            column,
            names.as_slice(),
            streams.as_slice(),
            granule,
            *rows,
        )?)?;
    }
    Ok(values)
}

/// The payloads of each of a column's substreams.
fn read_streams<'a>(
    alloc: Global,
    folder: &FileIndex<'a>,
    granules: &[u64],
    names: &[List<u8>],
) -> Result<List<Payloads<'a>>, FileError>
    ensures reads { Shows streams_in result (in_order (stream_reading (indexed_folder folder.now) granules.now) names.now) }
    ensures each { IfOk result (All (HasGranules granules.now)) }
{
    let mut streams = List::with_capacity(alloc, names.len())?;
    for name in names {
        streams.push(read_stream(alloc, folder, granules, name.as_slice())?)?;
    }
    Ok(streams)
}

/// The payloads of a substream, whose granules must be these.
fn read_stream<'a>(
    alloc: Global,
    folder: &FileIndex<'a>,
    granules: &[u64],
    name: &[u8],
) -> Result<Payloads<'a>, FileError>
    ensures reads { Shows (λ read. (payloads_in read).payloads) result (stream_reading (indexed_folder folder.now) granules.now name.now) }
    ensures each { IfOk result (HasGranules granules.now) }
{
    let data_name = with_ending(alloc, name, b".bin")?;
    let marks_name = with_ending(alloc, name, b".mrk2")?;
    let payloads = read_payloads(
        alloc,
        folder,
        data_name.as_slice(),
        marks_name.as_slice(),
        1,
    )?;
    check_granules(alloc, marks_name.as_slice(), granules, payloads.granules())?;
    Ok(payloads)
}

/// Whether a marks file's granules are the known ones.
fn check_granules(
    alloc: Global,
    marks_name: &[u8],
    known: &[u64],
    rows: &[u64],
) -> Result<(), FileError>
    ensures reads { Gives result (granules_check marks_name.now known.now rows.now) }
    ensures same { OnOk result (rows.now ≡ known.now) }
{
    if known.len() != rows.len() {
        return Err(file_fault(alloc, marks_name, Why::Length));
    }
    for granule in 0..known.len() {
        if known[granule] != rows[granule] {
            return Err(granule_fault(alloc, marks_name, granule as u64, Why::Rows));
        }
    }
    Ok(())
}

/// A column's values in a granule of so many rows, from the payloads of its substreams, which have these names.
fn read_granule(
    alloc: Global,
    column: &Column,
    names: &[List<u8>],
    streams: &[Payloads<'_>],
    granule: usize,
    rows: u64,
) -> Result<List<Value>, FileError>
    requires profile { IsTrue (is_profile column.now.ty) }
    requires few { rows ≤ MAX_ROWS }
    requires named { names.now ≡ defined.stream_names column.now }
    requires complete { length streams.now ≡ length names.now }
    requires within { All (λ read. granule < mark_count read.marks) streams.now }
    ensures reads { Gives result (granule_reading column.now (streams_in streams.now) (granule, rows)) }
    ensures many { IfOk result (λ values. length values ≡ rows) }
    ensures fit { IfOk result (λ values. IsTrue (list_all (fits_of column.now.ty) values)) }
{
    let payloads = payloads_at(alloc, streams, granule)?;
    let slices = slices_of(alloc, &payloads)?;
    match decode(alloc, &column.ty, rows, &slices) {
        Ok(values) => Ok(values),
        Err(error) => Err(value_fault(alloc, names, granule, error)),
    }
}

/// The payloads of a granule, one for each substream.
fn payloads_at<'a>(
    alloc: Global,
    streams: &[Payloads<'a>],
    granule: usize,
) -> Result<Vec<Payload<'a>>, NoMemory>
    requires within { All (λ read. granule < mark_count read.marks) streams.now }
    ensures { IfOk result (λ payloads. map bytes_of_payload payloads.items ≡ payloads_at granule (streams_in streams.now)) }
{
    let mut payloads = Vec::with_capacity(alloc, streams.len())?;
    for stream in streams {
        payloads.push(stream.payload(alloc, granule)?)?;
    }
    Ok(payloads)
}

/// The bytes of some payloads.
fn slices_of<'a>(alloc: Global, payloads: &'a [Payload<'_>]) -> Result<Vec<&'a [u8]>, NoMemory>
    ensures { IfOk result (λ slices. slice_bytes slices.items ≡ map bytes_of_payload payloads.now) }
{
    let mut slices = Vec::with_capacity(alloc, payloads.len())?;
    for payload in payloads {
        slices.push(payload.as_slice())?;
    }
    Ok(slices)
}

/// The fault of a granule's values: it names the data file of their substream.
fn value_fault(alloc: Global, names: &[List<u8>], granule: usize, error: CodecError) -> FileError
    ensures { TellsOf names.now granule error result }
{
    match error {
        CodecError::At { stream, why, .. } => {
            match with_ending(alloc, name_at(names, stream), b".bin") {
                Ok(name) => granule_fault(alloc, name.as_slice(), granule as u64, codec_why(why)),
                Err(NoMemory) => FileError::NoMemory,
            }
        }
        CodecError::NoMemory => FileError::NoMemory,
    }
}

/// The name of a substream.
fn name_at(names: &[List<u8>], stream: u64) -> &[u8]
    ensures { result.now ≡ slice_index_or names.now stream [] }
{
    match names.get(stream as usize) {
        Some(name) => name.as_slice(),
        None => &[],
    }
}
