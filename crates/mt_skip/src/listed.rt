//! The values that an entry lists.

ghost use Rattle.std.specs.Prelude.{◌≡◌, ◌≢◌, ◌++◌, ◌↔◌, AllPairs, IfOk, IfSome, IsTrue, option_map};
ghost use Rattle.mt_types.specs.Fits.{fits_of};
ghost use Rattle.mt_types.specs.Items.{item_bytes};
ghost use Rattle.mt_item.specs.ItemTypes.{has_items};
ghost use Rattle.mt_item.specs.Results.{IsFirst};
ghost use Rattle.mt_defs.specs.SkipIndexes.{distinct_values};
ghost use Rattle.mt_skip.specs.Gathering.{values_in};
ghost use Rattle.mt_skip.specs.Items.{ReadsItems};

use crate::distinct::distinct_of;
use crate::seen::Seen;
use indexmap::IndexSet;
use mt_item::{ItemError, read_item};
use mt_types::{NoMemory, Ty, Value};
use std::alloc::Global;

/// The values whose items the bytes are, so many; or none where there are none.
pub fn read_items(
    alloc: Global,
    ty: &Ty,
    count: u64,
    bytes: &[u8],
) -> Result<Option<Vec<Value>>, NoMemory>
    requires items { IsTrue (has_items ty.now) }
    ensures { IfOk result (λ read. ReadsItems ty.now count bytes.now
        (option_map (λ values. values.items) read)) }
{
    let mut values = Vec::new(alloc);
    let mut rest = bytes;
    for _i in 0..count {
        let Some((value, after)) = next_item(alloc, ty, rest)? else {
            return Ok(None);
        };
        values.push(value)?;
        rest = after;
    }
    if rest.is_empty() {
        Ok(Some(values))
    } else {
        Ok(None)
    }
}

/// The value whose item the bytes begin with, and what follows it; or none where there is none.
fn next_item<'a>(
    alloc: Global,
    ty: &Ty,
    bytes: &'a [u8],
) -> Result<Option<(Value, &'a [u8])>, NoMemory>
    requires items { IsTrue (has_items ty.now) }
    ensures { IfOk result (λ read. IsFirst (fits_of ty.now) (item_bytes ty.now) bytes.now
        (option_map (λ first. (first.0, first.1.now)) read)) }
{
    match read_item(alloc, ty, bytes) {
        Ok(first) => Ok(Some(first)),
        Err(ItemError::Bad(_)) => Ok(None),
        Err(ItemError::NoMemory) => Err(NoMemory),
    }
}

/// Whether no value is listed twice.
pub fn are_distinct(alloc: Global, values: &[Value]) -> Result<bool, NoMemory>
    ensures { IfOk result (λ distinct. IsTrue distinct ↔ AllPairs (λ a b. a ≢ b) values.now) }
{
    match distinct_of(alloc, 0, values)? {
        Some(distinct) => Ok(is_as_long(&distinct, values)),
        None => Ok(false),
    }
}

/// Whether there are as many distinct values as there are values.
#[tactic(auto, using(crate::proofs::PermutationLemmas::as_long))]
fn is_as_long<'a>(distinct: &IndexSet<Seen<'a>>, values: &[Value]) -> bool
    requires { values_in distinct.now.keys ≡ distinct_values values.now }
    ensures { IsTrue result ↔ AllPairs (λ a b. a ≢ b) values.now }
{
    values.len() <= distinct.len()
}
