//! Reading one value.

ghost use Rattle.std.specs.Prelude.{IsTrue};
ghost use Rattle.mt_types.specs.declared.ty.Ty.TheVariants.{CountState, FixedString, State, Str};
ghost use Rattle.mt_types.specs.Numbers.{is_argument_type, is_number_type};
ghost use Rattle.mt_item.specs.ItemReading.{item_front};
ghost use Rattle.mt_item.specs.ItemTypes.{has_items};
ghost use Rattle.mt_item.specs.Results.{GivesFirstItem, GivesItem};

use crate::fault::{CodecWhy, ItemError};
use crate::number::read_number;
use crate::state::read_state;
use crate::text::{read_length, read_text};
use mt_types::{Agg, AggState, List, Ty, Value};
use std::alloc::Global;

/// The value whose item the bytes begin with, and what follows it (docs/FORMAT.md, "Substreams";
/// ClickHouse: `ISerialization::deserializeBinary`). Where there is none the whys are judged in this
/// order: `HasByte`; `Short` inside a length or count; `Length`; `TooLong`; `Short`.
pub fn read_item<'a>(
    alloc: Global,
    ty: &Ty,
    bytes: &'a [u8],
) -> Result<(Value, &'a [u8]), ItemError>
    requires items { IsTrue (has_items ty.now) }
    ensures reads { GivesItem result (item_front ty.now bytes.now) }
    ensures first { GivesFirstItem ty.now bytes.now result }
{
    read(alloc, ty, bytes)
}

/// The item, as the definition reads it.
fn read<'a>(alloc: Global, ty: &Ty, bytes: &'a [u8]) -> Result<(Value, &'a [u8]), ItemError>
    requires { IsTrue (has_items ty.now) }
    ensures { GivesItem result (item_front ty.now bytes.now) }
{
    match ty {
        Ty::FixedString(size) => fixed_item(alloc, *size, bytes),
        Ty::Str => text_item(alloc, bytes),
        Ty::State(agg, argument) => state_item(*agg, argument.get(), bytes),
        Ty::CountState => count_item(bytes),
        _ => number_item(ty, bytes),
    }
}

fn number_item<'a>(ty: &Ty, bytes: &'a [u8]) -> Result<(Value, &'a [u8]), ItemError>
    requires { IsTrue (is_number_type ty.now) }
    ensures { GivesItem result (item_front ty.now bytes.now) }
{
    match read_number(ty, bytes) {
        Some(read) => Ok(read),
        None => Err(ItemError::Bad(CodecWhy::Short)),
    }
}

fn fixed_item<'a>(alloc: Global, size: u32, bytes: &'a [u8]) -> Result<(Value, &'a [u8]), ItemError>
    ensures { GivesItem result (item_front (FixedString size) bytes.now) }
{
    let Some((text, rest)) = bytes.split_at_checked(size as usize) else {
        return Err(ItemError::Bad(CodecWhy::Short));
    };
    Ok((Value::Text(List::of_bytes(alloc, text)?), rest))
}

fn text_item<'a>(alloc: Global, bytes: &'a [u8]) -> Result<(Value, &'a [u8]), ItemError>
    ensures { GivesItem result (item_front Str bytes.now) }
{
    match read_text(bytes) {
        Ok((text, rest)) => Ok((Value::Text(List::of_bytes(alloc, text)?), rest)),
        Err(why) => Err(ItemError::Bad(why)),
    }
}

fn state_item<'a>(agg: Agg, argument: &Ty, bytes: &'a [u8]) -> Result<(Value, &'a [u8]), ItemError>
    requires { IsTrue (is_argument_type argument.now) }
    ensures { GivesItem result (item_front (State agg argument.now) bytes.now) }
{
    match read_state(agg, argument, bytes) {
        Ok((state, rest)) => Ok((Value::State(state), rest)),
        Err(why) => Err(ItemError::Bad(why)),
    }
}

fn count_item(bytes: &[u8]) -> Result<(Value, &[u8]), ItemError>
    ensures { GivesItem result (item_front CountState bytes.now) }
{
    match read_length(bytes) {
        Ok((rows, rest)) => Ok((Value::State(AggState::Count(rows)), rest)),
        Err(why) => Err(ItemError::Bad(why)),
    }
}
