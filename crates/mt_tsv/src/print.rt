//! Values as text; on `NoMemory` a part of it may have been appended.

ghost use Rattle.std.specs.Prelude.{◌≡◌, ◌++◌, [], ◌∷◌, map, take, length, OnOk, OnErr};
ghost use Rattle.std.specs.List.{join_with_byte};
ghost use Rattle.mt_types.specs.declared.value.Value.{out-Value};
ghost use Rattle.mt_tsv.specs.Printing.{separator, scalar_text, array_text_at, element_text, field_text};

use crate::ascii::{CLOSE, COMMA, OPEN, QUOTE};
use crate::day::{append_day, append_second};
use crate::escape::append_text;
use itoa::Buffer;
use mt_types::{List, NoMemory, Ty, Value};

/// Appends a separator, unless nothing stands before it.
pub fn append_separator(out: &mut List<u8>, index: usize, byte: u8) -> Result<(), NoMemory>
    ensures ok { OnOk result (out.new ≡ out.old ++ separator index byte) }
    ensures kept { OnErr result (take (length out.old) out.new ≡ out.old) }
{
    if index > 0 {
        out.append(&[byte])
    } else {
        Ok(())
    }
}

/// Appends a value that is no NULL and no array.
#[tactic(auto, unfolding(crate::specs::Printing::scalar_text))]
fn append_scalar(out: &mut List<u8>, ty: &Ty, value: &Value) -> Result<(), NoMemory>
    ensures ok { OnOk result (out.new ≡ out.old ++ scalar_text ty.now value.now) }
    ensures kept { OnErr result (take (length out.old) out.new ≡ out.old) }
{
    match (ty, value) {
        (Ty::UInt(_) | Ty::Int(_), Value::Num(n)) => out.append(
            Buffer::new().format(*n).as_bytes(),
        ),
        (Ty::UInt(_), Value::Huge(n)) => out.append(Buffer::new().format(*n).as_bytes()),
        (Ty::Date, Value::Num(n)) => append_day(out, *n),
        (Ty::Moment, Value::Num(n)) => append_second(out, *n),
        (Ty::FixedString(_) | Ty::Str, Value::Text(bytes)) => append_text(out, bytes.as_slice()),
        _ => Ok(()),
    }
}

fn append_quoted(out: &mut List<u8>, ty: &Ty, value: &Value) -> Result<(), NoMemory>
    ensures ok { OnOk result
        (out.new ≡ out.old ++ (QUOTE ∷ (scalar_text ty.now value.now ++ QUOTE ∷ []))) }
    ensures kept { OnErr result (take (length out.old) out.new ≡ out.old) }
{
    out.append(&[QUOTE])?;
    append_scalar(out, ty, value)?;
    out.append(&[QUOTE])
}

/// Appends an element of an array.
#[cycle(print)]
#[tactic(auto, unfolding(crate::specs::Printing::scalar_text))]
fn append_element(out: &mut List<u8>, ty: &Ty, value: &Value) -> Result<(), NoMemory>
    ensures ok { OnOk result (out.new ≡ out.old ++ element_text ty.now value.now) }
    ensures kept { OnErr result (take (length out.old) out.new ≡ out.old) }
{
    match ty {
        Ty::Nullable(inner) => match value {
            Value::Null => out.append(b"NULL"),
            _ => append_element(out, inner.get(), value),
        },
        Ty::Array(inner) => match value {
            Value::List(items) => append_array(out, inner.get(), items.as_slice()),
            _ => Ok(()),
        },
        Ty::FixedString(_) | Ty::Str | Ty::Date | Ty::Moment => append_quoted(out, ty, value),
        _ => append_scalar(out, ty, value),
    }
}

/// Appends elements between brackets.
#[cycle(print)]
fn append_array(out: &mut List<u8>, inner: &Ty, items: &[Value]) -> Result<(), NoMemory>
    ensures ok { let texts = map (element_text inner.now) items.now in OnOk result
        (out.new ≡ out.old ++ (OPEN ∷ (join_with_byte COMMA texts ++ CLOSE ∷ []))) }
    ensures kept { OnErr result (take (length out.old) out.new ≡ out.old) }
{
    out.append(&[OPEN])?;
    for (i, item) in items.iter().enumerate() {
        append_separator(out, i, COMMA)?;
        append_element(out, inner, item)?;
    }
    out.append(&[CLOSE])
}

/// Appends the value of a column of this type.
#[tactic(auto, unfolding(crate::specs::Printing::field_text, crate::specs::Printing::scalar_text))]
pub fn append_field(out: &mut List<u8>, ty: &Ty, value: &Value) -> Result<(), NoMemory>
    ensures ok { OnOk result (out.new ≡ out.old ++ field_text ty.now value.now) }
    ensures kept { OnErr result (take (length out.old) out.new ≡ out.old) }
{
    match ty {
        Ty::Nullable(inner) => match value {
            Value::Null => out.append(b"\\N"),
            _ => append_scalar(out, inner.get(), value),
        },
        Ty::Array(inner) => match value {
            Value::List(items) => append_array(out, inner.get(), items.as_slice()),
            _ => Ok(()),
        },
        _ => append_scalar(out, ty, value),
    }
}
