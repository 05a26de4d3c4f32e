//! Writing one value.

ghost use Rattle.std.specs.Prelude.{◌≡◌, ◌++◌, ◌≤◌, IsTrue, OnOk, length, take};
ghost use Rattle.std.specs.Int.{w128, to_le_bytes};
ghost use Rattle.mt_types.specs.declared.value.Value.{out-Value};
ghost use Rattle.mt_types.specs.Fits.{fits_of, is_least_of};
ghost use Rattle.mt_types.specs.Items.{held, item_bytes, state_bytes};
ghost use Rattle.mt_types.specs.Leb128.{leb128};
ghost use Rattle.mt_types.specs.Numbers.{bits_in, is_argument_type};
ghost use Rattle.mt_types.specs.Parts.{count_in, greatest_in, least_in, state_in, text_in};
ghost use Rattle.mt_item.specs.ItemTypes.{has_items};

use mt_types::{AggState, List, NoMemory, Ty, Value, number_size, varint_put};

/// Appends the item of a value (docs/FORMAT.md, "Substreams"; ClickHouse:
/// `ISerialization::serializeBinary`). Where memory is refused the front of the item may stand there,
/// and the output is to be dropped.
pub fn put_item(ty: &Ty, value: &Value, out: &mut List<u8>) -> Result<(), NoMemory>
    requires items { IsTrue (has_items ty.now) }
    requires fits { IsTrue (fits_of ty.now value.now) }
    ensures { OnOk result (out.new ≡ out.old ++ item_bytes ty.now value.now) }
{
    match ty {
        Ty::UInt(_) => append_number(number_size(ty), bits_in(value), out),
        Ty::Int(_) => append_number(number_size(ty), bits_in(value), out),
        Ty::Date => append_number(2, bits_in(value), out),
        Ty::Moment => append_number(4, bits_in(value), out),
        Ty::FixedString(_) => out.append(text_in(value)),
        Ty::Str => append_text(text_in(value), out),
        Ty::State(_, argument) => append_state(argument.get(), state_in(value), out),
        Ty::CountState => append_length(rows_in(value), out),
        _ => unreachable!(),
    }
}

/// Appends the first of a number's bytes.
fn append_number(size: usize, bits: u128, out: &mut List<u8>) -> Result<(), NoMemory>
    requires { size ≤ 16 }
    ensures { OnOk result (out.new ≡ out.old ++ take size (to_le_bytes w128 bits)) }
{
    out.append(&bits.to_le_bytes()[..size])
}

/// Appends the shortest encoding of a length or a count.
fn append_length(length: u64, out: &mut List<u8>) -> Result<(), NoMemory>
    ensures { OnOk result (out.new ≡ out.old ++ leb128 length) }
{
    let mut encoding = [0; 10];
    let size = varint_put(length, &mut encoding);
    out.append(&encoding[..size])
}

/// Appends a text after its length.
fn append_text(bytes: &[u8], out: &mut List<u8>) -> Result<(), NoMemory>
    ensures { OnOk result (out.new ≡ out.old ++ (leb128 (length bytes.now) ++ bytes.now)) }
{
    append_length(bytes.len() as u64, out)?;
    out.append(bytes)
}

/// Appends a state over an argument (docs/FORMAT.md, "States").
fn append_state(argument: &Ty, state: AggState, out: &mut List<u8>) -> Result<(), NoMemory>
    requires argument { IsTrue (is_argument_type argument.now) }
    requires least { IsTrue (is_least_of (fits_of argument.now) (least_in state)) }
    requires greatest { IsTrue (is_least_of (fits_of argument.now) (greatest_in state)) }
    ensures { OnOk result (out.new ≡ out.old ++ state_bytes (item_bytes argument.now) state) }
{
    match state {
        AggState::Count(rows) => append_length(rows, out),
        AggState::Sum(sum) => out.append(&sum.to_le_bytes()),
        AggState::Least(number) => append_held(argument, number, out),
        AggState::Greatest(number) => append_held(argument, number, out),
    }
}

/// Appends byte 0 for nothing, or byte 1 and the number's item.
fn append_held(ty: &Ty, number: Option<i128>, out: &mut List<u8>) -> Result<(), NoMemory>
    requires argument { IsTrue (is_argument_type ty.now) }
    requires fits { IsTrue (is_least_of (fits_of ty.now) number) }
    ensures { OnOk result (out.new ≡ out.old ++ held (item_bytes ty.now) number) }
{
    let Some(number) = number else {
        return out.append(&[0]);
    };
    out.append(&[1])?;
    append_number(number_size(ty), number.cast_unsigned(), out)
}

/// The bits of a number, in two's complement, or 0.
fn bits_in(value: &Value) -> u128
    ensures { result ≡ bits_in (out-Value value.now) }
{
    match value {
        Value::Num(number) => number.cast_unsigned(),
        Value::Huge(number) => *number,
        _ => 0,
    }
}

/// The bytes of a value, or none.
fn text_in(value: &Value) -> &[u8]
    ensures { result.now ≡ text_in (out-Value value.now) }
{
    match value {
        Value::Text(bytes) => bytes.as_slice(),
        _ => &[],
    }
}

/// The state of a value, or a count of 0.
fn state_in(value: &Value) -> AggState
    ensures { result ≡ state_in (out-Value value.now) }
{
    match value {
        Value::State(state) => *state,
        _ => AggState::Count(0),
    }
}

/// The rows of a value that is a count, or 0.
fn rows_in(value: &Value) -> u64
    ensures { result ≡ count_in (state_in (out-Value value.now)) }
{
    match value {
        Value::State(AggState::Count(rows)) => *rows,
        _ => 0,
    }
}
