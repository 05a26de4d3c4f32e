//! The names of types, as table texts and columns.txt have them.

ghost use Rattle.std.specs.Prelude.{◌≡◌, ◌++◌, IfOk, OnOk, codes};
ghost use Rattle.std.specs.Fmt.{decimal};
ghost use Rattle.mt_types.specs.Names.{state_opening, type_name, width_text};

use crate::list::List;
use crate::memory::NoMemory;
use crate::ty::{Agg, Ty, Width};
use std::alloc::Global;

impl Width {
    /// Its bits in decimal.
    fn text(self) -> &'static [u8]
        ensures { result.now ≡ width_text self }
    {
        match self {
            Width::W8 => b"8",
            Width::W16 => b"16",
            Width::W32 => b"32",
            Width::W64 => b"64",
            Width::W128 => b"128",
        }
    }
}

impl Agg {
    /// What the name of its state's type begins with.
    pub(super) fn state_opening(self) -> &'static [u8]
        ensures { result.now ≡ state_opening self }
    {
        match self {
            Agg::Sum => b"AggregateFunction(sum, ",
            Agg::Min => b"AggregateFunction(min, ",
            Agg::Max => b"AggregateFunction(max, ",
        }
    }
}

/// The one zone of the profile.
pub(super) fn moment_name() -> &'static [u8]
    ensures { result.now ≡ codes "DateTime('UTC')" }
{
    b"DateTime('UTC')"
}

fn count_state_name() -> &'static [u8]
    ensures { result.now ≡ codes "AggregateFunction(count)" }
{
    b"AggregateFunction(count)"
}

impl Ty {
    /// The type's name (ClickHouse: `IDataType::getName`).
    pub fn write_name(&self, alloc: Global) -> Result<List<u8>, NoMemory>
        ensures { IfOk result (λ name. name ≡ type_name self.now) }
    {
        let mut name = List::new(alloc);
        self.append_name(alloc, &mut name)?;
        Ok(name)
    }

    #[cycle(append_name)]
    fn append_name(&self, alloc: Global, out: &mut List<u8>) -> Result<(), NoMemory>
        ensures { OnOk result (out.new ≡ out.old ++ type_name self.now) }
    {
        match self {
            Ty::UInt(width) => append_both(b"UInt", width.text(), out),
            Ty::Int(width) => append_both(b"Int", width.text(), out),
            Ty::FixedString(size) => append_fixed_string(alloc, *size, out),
            Ty::Str => out.append(b"String"),
            Ty::Date => out.append(b"Date"),
            Ty::Moment => out.append(moment_name()),
            Ty::Nullable(inner) => inner.get().append_within(alloc, b"Nullable(", out),
            Ty::Array(inner) => inner.get().append_within(alloc, b"Array(", out),
            Ty::State(agg, inner) => inner.get().append_within(alloc, agg.state_opening(), out),
            Ty::CountState => out.append(count_state_name()),
        }
    }

    /// Appends an opening, the type's name and a closing parenthesis.
    #[cycle(append_name)]
    fn append_within(
        &self,
        alloc: Global,
        opening: &[u8],
        out: &mut List<u8>,
    ) -> Result<(), NoMemory>
        ensures { OnOk result
            (out.new ≡ out.old ++ (opening.now ++ type_name self.now ++ codes ")")) }
    {
        out.append(opening)?;
        self.append_name(alloc, out)?;
        out.append(b")")
    }
}

fn append_both(first: &[u8], second: &[u8], out: &mut List<u8>) -> Result<(), NoMemory>
    ensures { OnOk result (out.new ≡ out.old ++ (first.now ++ second.now)) }
{
    out.append(first)?;
    out.append(second)
}

fn append_fixed_string(alloc: Global, size: u32, out: &mut List<u8>) -> Result<(), NoMemory>
    ensures { OnOk result
        (out.new ≡ out.old ++ (codes "FixedString(" ++ decimal size ++ codes ")")) }
{
    let digits = size.to_string(alloc)?;
    append_three(b"FixedString(", digits.as_bytes(), b")", out)
}

fn append_three(
    first: &[u8],
    second: &[u8],
    third: &[u8],
    out: &mut List<u8>,
) -> Result<(), NoMemory>
    ensures { OnOk result (out.new ≡ out.old ++ (first.now ++ second.now ++ third.now)) }
{
    out.append(first)?;
    out.append(second)?;
    out.append(third)
}
