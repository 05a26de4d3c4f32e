//! Keys of primary.idx.

ghost use Rattle.std.specs.Prelude.{◌≡◌, ◌≤◌, ◌<◌, IsTrue, length, true};
ghost use Rattle.mt_defs.specs.Metadata.{column_at};
ghost use Rattle.mt_item.specs.ItemTypes.{is_scalar};
ghost use Rattle.mt_meta.specs.Keys.{AreKeys};

use mt_fault::{FileError, Why};
use mt_meta::read_keys;
use mt_table::{Column, PartDef};
use mt_types::{List, NoMemory, Row, Ty, Value, Width};
use std::alloc::Global;
use std::test::Fail;

/// An integer type, `FixedString`, `String`, `Date` or `DateTime('UTC')`.
fn is_scalar(ty: &Ty) -> bool
    ensures { result ≡ is_scalar ty.now }
{
    matches!(
        ty,
        Ty::UInt(_) | Ty::Int(_) | Ty::FixedString(_) | Ty::Str | Ty::Date | Ty::Moment
    )
}

/// Whether a key may be of these columns, by their places.
fn are_keys(columns: &[Column], keys: &[u32]) -> bool
    ensures { IsTrue result → AreKeys columns.now keys.now }
{
    for key in keys {
        if !is_key(columns, *key as usize) {
            return false;
        }
    }
    true
}

fn is_key(columns: &[Column], column_index: usize) -> bool
    ensures known { IsTrue result → column_index < length columns.now }
    ensures scalar { IsTrue result → is_scalar (column_at columns.now column_index).ty ≡ true }
{
    if column_index >= columns.len() {
        return false;
    }
    is_scalar(&columns[column_index].ty)
}

/// The places of two columns.
fn both(alloc: Global) -> Result<List<u32>, NoMemory> {
    let mut places = List::new(alloc);
    places.push(0)?;
    places.push(1)?;
    Ok(places)
}

/// What a part stores of a text and a number, both its key.
fn definition(alloc: Global) -> Result<PartDef, NoMemory> {
    let mut columns = List::new(alloc);
    columns.push(Column {
        name: List::of_bytes(alloc, b"a")?,
        ty: Ty::Str,
    })?;
    columns.push(Column {
        name: List::of_bytes(alloc, b"b")?,
        ty: Ty::Int(Width::W16),
    })?;
    Ok(PartDef {
        columns,
        must: both(alloc)?,
        sort: both(alloc)?,
        primary: 2,
    })
}

/// The keys of a text and a number that stand for two granules.
fn keys_in(alloc: Global, bytes: &[u8]) -> Result<List<Row>, FileError> {
    let Ok(definition) = definition(alloc) else {
        return Err(FileError::NoMemory);
    };
    let all = are_keys(definition.columns.as_slice(), definition.sort.as_slice());
    if !all || definition.primary as usize > definition.sort.len() {
        return Err(FileError::NoMemory);
    }
    read_keys(alloc, &definition, 2, bytes)
}

/// Whether a key is of this text and this number.
fn is_of(key: &Row, text: &str, number: i128) -> bool {
    match key.as_slice() {
        [Value::Text(bytes), Value::Num(found)] => {
            bytes.as_slice() == text.as_bytes() && *found == number
        }
        _ => false,
    }
}

#[test]
fn keys_are_read(rt: HostRuntime) -> Result<(), Fail> {
    let alloc = rt.alloc();
    let keys = keys_in(alloc, b"\0\xfe\xff\x02ab\xff\xff\x01b\x01\0")?;
    assert_eq!(rt; keys.len(), 3);
    let wanted = [("", -2i128), ("ab", -1), ("b", 1)];
    for (key, (text, number)) in keys.as_slice().iter().zip(wanted) {
        assert!(rt; is_of(key, text, number), "at {text}");
    }
    Ok(())
}

/// Bytes that are no keys of two granules, with the granule and the why.
const FAULTS: &[(&[u8], Option<u64>, Why)] = &[
    (b"", Some(0), Why::Key),
    (b"\0\xfe\xff\x02a", Some(1), Why::Key),
    (b"\0\xfe\xff\x80\0\xff\xff", Some(1), Why::Key),
    (b"\0\xfe\xff\x02ab\xff\xff\x01b\x01", Some(2), Why::Key),
    (b"\0\xfe\xff\x02ab\xff\xff\x01b\x01\0\0", None, Why::Over),
];

#[test]
fn other_bytes_have_a_fault(rt: HostRuntime) -> Result<(), Fail> {
    for (bytes, granule, why) in FAULTS {
        match keys_in(rt.alloc(), bytes) {
            Err(FileError::AtFault(fault)) => {
                assert!(rt; fault.granule == *granule && fault.why == *why);
            }
            _ => return Err(Fail::from("no fault")),
        }
    }
    Ok(())
}
