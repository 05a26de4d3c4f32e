//! The rows of a trial.

ghost use Rattle.std.specs.Prelude.{◌≡◌, ◌<◌, ◌≤◌, IfOk};
ghost use Rattle.mt_trial.specs.Rows.{half_rows, row_of_number, text_of_number, x_at};
ghost use Rattle.mt_trial.specs.declared.rows.TheConstants.{MAX_TRIAL_ROWS};

use itoa::Buffer;
use mt_types::{List, NoMemory, Row, Value};
use std::alloc::Global;

/// The rows of a trial, at most.
pub const MAX_TRIAL_ROWS: u64 = 1_048_576;

/// 2024-01-01, in days since 1970-01-01.
pub const FIRST_DAY: u64 = 19_723;

/// How far the numbers of neighbouring rows are apart, modulo 2^32: the golden ratio's part of it, so that they spread.
pub const STEP: u64 = 2_654_435_761;

/// The number of a row modulo 2^32, from which its values are.
fn x_at(number: u64, place: u64) -> u64
    requires { place ≤ MAX_TRIAL_ROWS }
    ensures { result ≡ x_at number place }
{
    (number % 0x1_0000_0000 + STEP * place) % 0x1_0000_0000
}

/// The text of the last column.
fn text_of(alloc: Global, k: u64) -> Result<List<u8>, NoMemory>
    ensures { IfOk result (λ text. text ≡ text_of_number k) }
{
    let mut buffer = Buffer::new();
    let mut text = List::of_bytes(alloc, b"s")?;
    text.append(buffer.format(k).as_bytes())?;
    Ok(text)
}

/// The row of a number.
fn row_of(alloc: Global, x: u64) -> Result<Row, NoMemory>
    ensures { IfOk result (λ row. row ≡ row_of_number x) }
{
    let text = text_of(alloc, x % 100)?;
    let mut row = List::with_capacity(alloc, 4)?;
    row.push(Value::Num(i128::from(FIRST_DAY + x % 31)))?;
    row.push(Value::Num(i128::from(x % 100)))?;
    row.push(Value::Num(i128::from(x / 100 % 1000)))?;
    row.push(Value::Text(text))?;
    Ok(row)
}

/// The rows at the places, from 0, that leave a remainder by 2: the even ones, or the odd ones.
#[tactic(auto, using(crate::proofs::RowLemmas::row_taken, crate::proofs::RowLemmas::row_passed))]
pub(crate) fn half_rows(
    alloc: Global,
    number: u64,
    rows: u64,
    remainder: u64,
) -> Result<List<Row>, NoMemory>
    requires { rows ≤ MAX_TRIAL_ROWS }
    ensures { IfOk result (λ half. half ≡ half_rows number rows remainder) }
{
    let mut half = List::with_capacity(alloc, (rows / 2 + 1) as usize)?;
    for place in 0..rows {
        if place % 2 == remainder {
            half.push(row_of(alloc, x_at(number, place))?)?;
        }
    }
    Ok(half)
}
