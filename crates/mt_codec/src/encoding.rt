//! Writing a column: its values as substreams.

ghost use Rattle.std.specs.Prelude.{◌≡◌, ◌++◌, IfOk, IsTrue, OnOk};
ghost use Rattle.std.specs.List.{flat_map, list_all};
ghost use Rattle.mt_types.specs.declared.value.Value.{out-Value};
ghost use Rattle.mt_types.specs.Defaults.{default_of};
ghost use Rattle.mt_types.specs.Fits.{fits_of};
ghost use Rattle.mt_types.specs.Profile.{is_profile};
ghost use Rattle.mt_item.specs.ItemTypes.{has_items};
ghost use Rattle.mt_defs.specs.WrittenStreams.{elements_at, or_default, written_streams};
ghost use Rattle.mt_codec.specs.Runs.{fits_or_null, null_item, size_item, values_of, written_item};

use mt_item::put_item;
use mt_types::{List, NoMemory, Ty, Value};
use std::alloc::Global;

/// The writer's substreams of some values of a type, with the type's default in the place of NULL.
pub fn encode(alloc: Global, ty: &Ty, values: &[Value]) -> Result<List<List<u8>>, NoMemory>
    requires profile { IsTrue (is_profile ty.now) }
    requires fit { IsTrue (list_all (fits_of ty.now) values.now) }
    ensures { IfOk result (λ streams. streams ≡ written_streams ty.now values.now) }
{
    encode_runs(alloc, ty, &[values])
}

/// The same of values that stand in several runs, one run after another. No value is copied.
pub fn encode_runs(alloc: Global, ty: &Ty, runs: &[&[Value]]) -> Result<List<List<u8>>, NoMemory>
    requires profile { IsTrue (is_profile ty.now) }
    requires fit { IsTrue (list_all (fits_of ty.now) (values_of runs.now)) }
    ensures { IfOk result (λ streams. streams ≡ written_streams ty.now (values_of runs.now)) }
{
    let mut streams = List::new(alloc);
    append_streams(alloc, ty, runs, &mut streams)?;
    Ok(streams)
}

/// Appends the substreams of the values of some runs.
fn append_streams(
    alloc: Global,
    ty: &Ty,
    runs: &[&[Value]],
    streams: &mut List<List<u8>>,
) -> Result<(), NoMemory>
    requires profile { IsTrue (is_profile ty.now) }
    requires fit { IsTrue (list_all (fits_of ty.now) (values_of runs.now)) }
    ensures { OnOk result
        (streams.new ≡ streams.old ++ written_streams ty.now (values_of runs.now)) }
{
    match ty {
        Ty::Nullable(inner) => {
            streams.push(null_map(alloc, runs)?)?;
            streams.push(items_of(alloc, inner.get(), runs)?)
        }
        Ty::Array(inner) => {
            streams.push(sizes_of(alloc, runs)?)?;
            let elements = elements_of(alloc, runs)?;
            append_streams(alloc, inner.get(), &elements, streams)
        }
        _ => streams.push(items_of(alloc, ty, runs)?),
    }
}

/// The lengths of arrays, 8 bytes each.
fn sizes_of(alloc: Global, runs: &[&[Value]]) -> Result<List<u8>, NoMemory>
    ensures { IfOk result (λ bytes. bytes ≡ flat_map size_item (values_of runs.now)) }
{
    let mut bytes = List::new(alloc);
    for run in runs {
        append_sizes(run, &mut bytes)?;
    }
    Ok(bytes)
}

fn append_sizes(values: &[Value], out: &mut List<u8>) -> Result<(), NoMemory>
    ensures { OnOk result (out.new ≡ out.old ++ flat_map size_item values.now) }
{
    for value in values {
        let size = elements(value).len() as u64;
        out.append(&size.to_le_bytes())?;
    }
    Ok(())
}

/// The elements of arrays, a run for each.
fn elements_of<'a>(alloc: Global, runs: &[&'a [Value]]) -> Result<Vec<&'a [Value]>, NoMemory>
    ensures { IfOk result (λ found. values_of found.items
        ≡ flat_map (λ value. elements_at (out-Value value)) (values_of runs.now)) }
{
    let mut found = Vec::new(alloc);
    for run in runs {
        append_elements(run, &mut found)?;
    }
    Ok(found)
}

fn append_elements<'a>(values: &'a [Value], out: &mut Vec<&'a [Value]>) -> Result<(), NoMemory>
    ensures { OnOk result (values_of out.new.items
        ≡ values_of out.old.items ++ flat_map (λ value. elements_at (out-Value value)) values.now) }
{
    for value in values {
        out.push(elements(value))?;
    }
    Ok(())
}

/// The elements of an array; none of another value.
fn elements(value: &Value) -> &[Value]
    ensures { result.now ≡ elements_at (out-Value value.now) }
{
    match value {
        Value::List(items) => items.as_slice(),
        _ => &[],
    }
}

/// The null map of values, one byte each.
fn null_map(alloc: Global, runs: &[&[Value]]) -> Result<List<u8>, NoMemory>
    ensures { IfOk result (λ bytes. bytes ≡ flat_map null_item (values_of runs.now)) }
{
    let mut bytes = List::new(alloc);
    for run in runs {
        append_nulls(run, &mut bytes)?;
    }
    Ok(bytes)
}

fn append_nulls(values: &[Value], out: &mut List<u8>) -> Result<(), NoMemory>
    ensures { OnOk result (out.new ≡ out.old ++ flat_map null_item values.now) }
{
    for value in values {
        match value {
            Value::Null => out.push(1)?,
            _ => out.push(0)?,
        }
    }
    Ok(())
}

/// The items of values, the default's in the place of NULL.
fn items_of(alloc: Global, ty: &Ty, runs: &[&[Value]]) -> Result<List<u8>, NoMemory>
    requires items { IsTrue (has_items ty.now) }
    requires fit { IsTrue (list_all (fits_or_null ty.now) (values_of runs.now)) }
    ensures { IfOk result (λ bytes. bytes ≡ flat_map (written_item ty.now) (values_of runs.now)) }
{
    let default = ty.default_of(alloc)?;
    items_with(alloc, ty, &default, runs)
}

/// The items of values, with the type's default at hand.
fn items_with(
    alloc: Global,
    ty: &Ty,
    default: &Value,
    runs: &[&[Value]],
) -> Result<List<u8>, NoMemory>
    requires items { IsTrue (has_items ty.now) }
    requires default { default.now ≡ default_of ty.now }
    requires fit { IsTrue (list_all (fits_or_null ty.now) (values_of runs.now)) }
    ensures { IfOk result (λ bytes. bytes ≡ flat_map (written_item ty.now) (values_of runs.now)) }
{
    let mut bytes = List::new(alloc);
    for run in runs {
        append_items(ty, default, run, &mut bytes)?;
    }
    Ok(bytes)
}

fn append_items(
    ty: &Ty,
    default: &Value,
    values: &[Value],
    out: &mut List<u8>,
) -> Result<(), NoMemory>
    requires items { IsTrue (has_items ty.now) }
    requires default { default.now ≡ default_of ty.now }
    requires fit { IsTrue (list_all (fits_or_null ty.now) values.now) }
    ensures { OnOk result (out.new ≡ out.old ++ flat_map (written_item ty.now) values.now) }
{
    for value in values {
        put_item(ty, value_or(default, value), out)?;
    }
    Ok(())
}

/// The value, or the default in the place of NULL.
fn value_or<'a>(default: &'a Value, value: &'a Value) -> &'a Value
    ensures { result.now ≡ or_default default.now value.now }
{
    match value {
        Value::Null => default,
        _ => value,
    }
}
