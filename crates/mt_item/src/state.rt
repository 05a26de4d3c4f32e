//! States at the start of some bytes.

ghost use Rattle.std.specs.Prelude.{IsTrue, Some};
ghost use Rattle.std.specs.Int.{w64};
ghost use Rattle.mt_types.specs.declared.ty.Ty.{out-Ty};
ghost use Rattle.mt_types.specs.declared.value.AggState.TheVariants.{Sum};
ghost use Rattle.mt_types.specs.Numbers.{is_argument_type};
ghost use Rattle.mt_item.specs.ItemReading.{held_front, number_front, read_as, state_front, whole_front};
ghost use Rattle.mt_item.specs.Results.{GivesRead};

use crate::fault::CodecWhy;
use crate::number::{read_argument, read_u64};
use mt_types::{Agg, AggState, Ty};

/// The state of an aggregate over an argument at the start, and what follows it.
pub(crate) fn read_state<'a>(
    agg: Agg,
    argument: &Ty,
    bytes: &'a [u8],
) -> Result<(AggState, &'a [u8]), CodecWhy>
    requires { IsTrue (is_argument_type argument.now) }
    ensures { GivesRead result (state_front agg (out-Ty argument.now) bytes.now) }
{
    match agg {
        Agg::Sum => read_sum(bytes),
        Agg::Min => match read_held(argument, bytes) {
            Ok((number, rest)) => Ok((AggState::Least(number), rest)),
            Err(why) => Err(why),
        },
        Agg::Max => match read_held(argument, bytes) {
            Ok((number, rest)) => Ok((AggState::Greatest(number), rest)),
            Err(why) => Err(why),
        },
    }
}

fn read_sum(bytes: &[u8]) -> Result<(AggState, &[u8]), CodecWhy>
    ensures { GivesRead result (read_as (λ n. Sum n) (whole_front w64 bytes.now)) }
{
    match read_u64(bytes) {
        Some((sum, rest)) => Ok((AggState::Sum(sum), rest)),
        None => Err(CodecWhy::Short),
    }
}

/// Nothing or a number, as min and max have gathered it.
fn read_held<'a>(ty: &Ty, bytes: &'a [u8]) -> Result<(Option<i128>, &'a [u8]), CodecWhy>
    requires { IsTrue (is_argument_type ty.now) }
    ensures { GivesRead result (held_front (number_front (out-Ty ty.now)) bytes.now) }
{
    let Some((first, rest)) = bytes.split_first() else {
        return Err(CodecWhy::Short);
    };
    if *first > 1 {
        return Err(CodecWhy::HasByte);
    }
    if *first == 0 {
        return Ok((None, rest));
    }
    read_some(ty, rest)
}

fn read_some<'a>(ty: &Ty, bytes: &'a [u8]) -> Result<(Option<i128>, &'a [u8]), CodecWhy>
    requires { IsTrue (is_argument_type ty.now) }
    ensures { GivesRead result (read_as (λ n. Some n) (number_front (out-Ty ty.now) bytes.now)) }
{
    match read_argument(ty, bytes) {
        Some((number, rest)) => Ok((Some(number), rest)),
        None => Err(CodecWhy::Short),
    }
}
