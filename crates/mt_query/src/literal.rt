//! The values of literals beside columns.

ghost use Rattle.std.specs.Prelude.{◌≡◌, ◌≤◌, ◌-◌, ◌++◌, length, replicate, IfOk};
ghost use Rattle.mt_types.specs.declared.ty.Ty.{out-Ty};
ghost use Rattle.mt_query.specs.Lists.{all_of};
ghost use Rattle.mt_query.specs.Literals as literals;

use mt_calendar::{read_date, read_moment};
use mt_cond_syntax::Literal;
use mt_types::{List, NoMemory, Ty, Value};
use std::alloc::Global;

/// A Nullable goes by the type inside it.
fn inside(ty: &Ty) -> &Ty
    ensures { result.now ≡ literals.inside ty.now }
{
    match ty {
        Ty::Nullable(inner) => inner.get(),
        _ => ty,
    }
}

/// A number from -2^127 to 2^128 - 1.
fn integer_value(literal: &Literal) -> Option<Value>
    ensures { result ≡ literals.integer_value literal.now }
{
    match literal {
        Literal::Number(Some(number)) => Some(Value::number(*number)),
        Literal::Negative(Some(number)) => Some(Value::Num(*number)),
        _ => None,
    }
}

/// The day of a text YYYY-MM-DD.
fn date_value(literal: &Literal) -> Option<Value>
    ensures { result ≡ literals.date_literal_value literal.now }
{
    match literal {
        Literal::Number(_) | Literal::Negative(_) => None,
        Literal::Text(text) => match read_date(text.as_slice()) {
            Some(day) => Some(Value::Num(day as i128)),
            None => None,
        },
    }
}

/// The second of a text YYYY-MM-DD hh:mm:ss.
fn moment_value(literal: &Literal) -> Option<Value>
    ensures { result ≡ literals.moment_value literal.now }
{
    match literal {
        Literal::Number(_) | Literal::Negative(_) => None,
        Literal::Text(text) => match read_moment(text.as_slice()) {
            Some(second) => Some(Value::Num(second as i128)),
            None => None,
        },
    }
}

/// Any text.
fn text_value(alloc: Global, literal: &Literal) -> Result<Option<Value>, NoMemory>
    ensures { IfOk result (λ value. value ≡ literals.text_value literal.now) }
{
    match literal {
        Literal::Number(_) | Literal::Negative(_) => Ok(None),
        Literal::Text(text) => Ok(Some(Value::Text(List::of_bytes(alloc, text.as_slice())?))),
    }
}

/// The text with zero bytes behind it, so many bytes together.
fn padded(alloc: Global, size: usize, text: &List<u8>) -> Result<List<u8>, NoMemory>
    requires { length text.now ≤ size }
    ensures { IfOk result (λ bytes. bytes ≡ text.now ++ replicate (size - length text.now) 0) }
{
    let zeros = List::of(vec![in alloc; 0; size - text.len()]?);
    let mut bytes = List::of_bytes(alloc, text.as_slice())?;
    bytes.append(zeros.as_slice())?;
    Ok(bytes)
}

/// A text of at most so many bytes, with zero bytes behind it.
fn fixed_value(alloc: Global, size: u32, literal: &Literal) -> Result<Option<Value>, NoMemory>
    ensures { IfOk result (λ value. value ≡ literals.fixed_value size literal.now) }
{
    match literal {
        Literal::Number(_) | Literal::Negative(_) => Ok(None),
        Literal::Text(text) => {
            if text.len() > size as usize {
                return Ok(None);
            }
            Ok(Some(Value::Text(padded(alloc, size as usize, text)?)))
        }
    }
}

/// The value beside a type that is neither a Nullable nor an array.
fn plain_value(alloc: Global, ty: &Ty, literal: &Literal) -> Result<Option<Value>, NoMemory>
    ensures { IfOk result (λ value. value ≡ literals.value_at (out-Ty ty.now) literal.now) }
{
    match ty {
        Ty::UInt(_) | Ty::Int(_) => Ok(integer_value(literal)),
        Ty::Date => Ok(date_value(literal)),
        Ty::Moment => Ok(moment_value(literal)),
        Ty::Str => text_value(alloc, literal),
        Ty::FixedString(size) => fixed_value(alloc, *size, literal),
        _ => Ok(None),
    }
}

/// The value that a literal is beside a column of this type, if it suits it.
pub(crate) fn value_of(alloc: Global, ty: &Ty, literal: &Literal) -> Result<Option<Value>, NoMemory>
    ensures { IfOk result (λ value. value ≡ literals.literal_value_of ty.now literal.now) }
{
    plain_value(alloc, inside(ty), literal)
}

/// The values of literals beside a column of this type, if all suit it.
pub(crate) fn values_of(
    alloc: Global,
    ty: &Ty,
    given: &[Literal],
) -> Result<Option<List<Value>>, NoMemory>
    ensures { IfOk result (λ values. values ≡ all_of (literals.literal_value_of ty.now) given.now) }
{
    let mut values = List::with_capacity(alloc, given.len())?;
    for literal in given {
        let Some(value) = value_of(alloc, ty, literal)? else {
            return Ok(None);
        };
        values.push(value)?;
    }
    Ok(Some(values))
}

/// The value that a literal is beside the elements of an array, if it suits them.
pub(crate) fn element_of(
    alloc: Global,
    ty: &Ty,
    literal: &Literal,
) -> Result<Option<Value>, NoMemory>
    ensures { IfOk result (λ value. value ≡ literals.element_value_of ty.now literal.now) }
{
    match ty {
        Ty::Array(inner) => value_of(alloc, inner.get(), literal),
        _ => Ok(None),
    }
}

/// The same text, if a column's texts may begin with it.
pub(crate) fn prefix_of(
    alloc: Global,
    ty: &Ty,
    text: &List<u8>,
) -> Result<Option<List<u8>>, NoMemory>
    ensures { IfOk result (λ prefix. prefix ≡ literals.prefix_of ty.now text.now) }
{
    match inside(ty) {
        Ty::Str => Ok(Some(List::of_bytes(alloc, text.as_slice())?)),
        Ty::FixedString(size) => {
            if text.len() > *size as usize {
                return Ok(None);
            }
            Ok(Some(List::of_bytes(alloc, text.as_slice())?))
        }
        _ => Ok(None),
    }
}
