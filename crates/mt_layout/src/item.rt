//! The sizes of items: what `mt_item` writes, counted and not written.

ghost use Rattle.std.specs.Prelude.{◌≡◌, ◌≤◌, ◌+◌, ℕ, ℤ, List, length};
ghost use Rattle.mt_types.specs.declared.value.Value.{Value, out-Value};
ghost use Rattle.mt_types.specs.declared.value.Value.TheVariants.{Num};
ghost use Rattle.mt_types.specs.Items.{item_bytes, state_bytes, whole, whole_at};
ghost use Rattle.mt_types.specs.Items.{width as words};
ghost use Rattle.mt_types.specs.Leb128.{leb128};
ghost use Rattle.mt_layout.specs.Sizes.{saturated};

use mt_types::{AggState, Ty, Value, Width, varint_put};

/// The bytes of a value's item; a value of another kind than the type's has none.
pub(crate) fn item_size(ty: &Ty, value: &Value) -> u64
    ensures { result ≡ saturated (length (item_bytes ty.now value.now)) }
{
    match (ty, value) {
        (Ty::UInt(width), _) => whole_size(*width, value),
        (Ty::Int(width), _) => whole_size(*width, value),
        (Ty::Date, _) => whole_size(Width::W16, value),
        (Ty::Moment, _) => whole_size(Width::W32, value),
        (Ty::FixedString(_), Value::Text(bytes)) => bytes.len() as u64,
        (Ty::Str, Value::Text(bytes)) => text_size(bytes.len() as u64),
        (Ty::State(_, argument), Value::State(state)) => {
            state_size(number_size(argument.get()), *state)
        }
        (Ty::CountState, Value::State(state)) => state_size(0, *state),
        _ => 0,
    }
}

/// The bytes of a number; a value that is no number has none.
fn whole_size(width: Width, value: &Value) -> u64
    ensures { result ≡ saturated (length (whole_at (words width) (out-Value value.now))) }
{
    match value {
        Value::Num(_) => width_size(width),
        Value::Huge(_) => width_size(width),
        _ => 0,
    }
}

/// The bytes of a text of so many bytes, after its length.
fn text_size(size: u64) -> u64
    ensures { result ≡ saturated (length (leb128 size) + size) }
{
    encoding_size(size).saturating_add(size)
}

/// The bytes of a state, where each number of its argument has so many.
fn state_size(argument_size: u64, state: AggState) -> u64
    requires { argument_size ≤ 16 }
    ensures size { (argument : Value → List ℕ)
        → ((n : ℤ) → length (argument (Num n)) ≡ argument_size)
        → length (state_bytes argument state) ≡ result }
    ensures bound { result ≤ 17 }
{
    match state {
        AggState::Count(rows) => encoding_size(rows),
        AggState::Sum(_) => 8,
        AggState::Least(None) => 1,
        AggState::Least(Some(_)) => 1 + argument_size,
        AggState::Greatest(None) => 1,
        AggState::Greatest(Some(_)) => 1 + argument_size,
    }
}

/// The bytes of a number's item; a type that has no numbers has none.
fn number_size(ty: &Ty) -> u64
    ensures size { (n : ℤ) → length (item_bytes ty.now (Num n)) ≡ result }
    ensures bound { result ≤ 16 }
{
    match ty {
        Ty::UInt(width) => width_size(*width),
        Ty::Int(width) => width_size(*width),
        Ty::Date => 2,
        Ty::Moment => 4,
        _ => 0,
    }
}

/// The bytes of an integer.
fn width_size(width: Width) -> u64
    ensures size { (n : ℤ) → length (whole (words width) n) ≡ result }
    ensures bound { result ≤ 16 }
{
    match width {
        Width::W8 => 1,
        Width::W16 => 2,
        Width::W32 => 4,
        Width::W64 => 8,
        Width::W128 => 16,
    }
}

/// The bytes of a number's shortest encoding.
fn encoding_size(number: u64) -> u64
    ensures size { result ≡ length (leb128 number) }
    ensures bound { result ≤ 10 }
{
    varint_put(number, &mut [0; 10]) as u64
}
