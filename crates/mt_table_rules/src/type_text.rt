//! The types of columns as a table text has them.

ghost use Rattle.std.specs.Prelude.{◌≡◌, ◌++◌, IfOk, OnOk, codes};
ghost use Rattle.mt_types.specs.NameReading.{type_named};
ghost use Rattle.mt_table_rules.specs.TypeTexts.{arg_text, column_type_if, column_type_of, type_text};

use mt_element_syntax::{TypeArg, TypeText};
use mt_types::{List, NoMemory, Ty, TyError};
use std::alloc::Global;

/// Appends a type as its name is printed.
#[cycle(append_type)]
fn append_type(alloc: Global, text: &TypeText, out: &mut List<u8>) -> Result<(), NoMemory>
    ensures { OnOk result (out.new ≡ out.old ++ type_text text.now) }
{
    out.append(text.word.as_slice())?;
    if let [first, others @ ..] = text.args.as_slice() {
        out.append(b"(")?;
        append_arg(alloc, first, out)?;
        for arg in others {
            out.append(b", ")?;
            append_arg(alloc, arg, out)?;
        }
        out.append(b")")?;
    }
    Ok(())
}

/// Appends bytes in quotes.
#[tactic(auto, using(crate::proofs::TypeTextLemmas::quoted_is))]
fn append_quoted(bytes: &[u8], out: &mut List<u8>) -> Result<(), NoMemory>
    ensures { OnOk result (out.new ≡ out.old ++ (codes "'" ++ (bytes.now ++ codes "'"))) }
{
    out.append(b"'")?;
    out.append(bytes)?;
    out.append(b"'")?;
    Ok(())
}

/// Appends an argument of a type.
#[cycle(append_type)]
fn append_arg(alloc: Global, arg: &TypeArg, out: &mut List<u8>) -> Result<(), NoMemory>
    ensures { OnOk result (out.new ≡ out.old ++ arg_text arg.now) }
{
    match arg {
        TypeArg::Number(number) => out.append(number.to_string(alloc)?.as_bytes()),
        TypeArg::Type(text) => append_type(alloc, text, out),
        TypeArg::Text(bytes) => append_quoted(bytes.as_slice(), out),
    }
}

/// The type of the profile that has this name, unless it is a state's.
fn type_of(alloc: Global, name: &[u8]) -> Result<Option<Ty>, NoMemory>
    ensures { IfOk result (λ found. found ≡ column_type_if (type_named name.now)) }
{
    match Ty::read_name(alloc, name) {
        Ok(Ty::State(..) | Ty::CountState) | Err(TyError::NotAType) => Ok(None),
        Ok(ty) => Ok(Some(ty)),
        Err(TyError::NoMemory) => Err(NoMemory),
    }
}

/// The type that a text names, if it is one of a column.
pub(crate) fn column_type(alloc: Global, text: &TypeText) -> Result<Option<Ty>, NoMemory>
    ensures { IfOk result (λ found. found ≡ column_type_of text.now) }
{
    let mut name = List::new(alloc);
    append_type(alloc, text, &mut name)?;
    type_of(alloc, name.as_slice())
}
