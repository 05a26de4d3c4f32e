//! The condition of a sentence, by the columns of a table.

ghost use Rattle.std.specs.Prelude.{◌≡◌, IfOk, option_map};
ghost use Rattle.mt_query.specs.declared.cond.Cond.TheVariants as made;
ghost use Rattle.mt_query.specs.Conditions as conditions;

use crate::columns::Columns;
use crate::cond::Cond;
use crate::literal::{element_of, prefix_of, value_of, values_of};
use mt_cond_syntax::{CondText, Literal, Op};
use mt_types::{Boxed, List, NoMemory};
use std::alloc::Global;

/// AND of two conditions, where both are there.
#[inline(never)]
fn all_of(
    alloc: Global,
    left: Option<Boxed<Cond>>,
    right: Option<Boxed<Cond>>,
) -> Result<Option<Boxed<Cond>>, NoMemory>
    ensures { IfOk result (λ cond. cond ≡ conditions.joined_conditions made.And left right) }
{
    let Some(left) = left else {
        return Ok(None);
    };
    let Some(right) = right else {
        return Ok(None);
    };
    Ok(Some(Boxed::new(alloc, Cond::And(left, right))?))
}

/// OR of two conditions, where both are there.
#[inline(never)]
fn any_of(
    alloc: Global,
    left: Option<Boxed<Cond>>,
    right: Option<Boxed<Cond>>,
) -> Result<Option<Boxed<Cond>>, NoMemory>
    ensures { IfOk result (λ cond. cond ≡ conditions.joined_conditions made.Or left right) }
{
    let Some(left) = left else {
        return Ok(None);
    };
    let Some(right) = right else {
        return Ok(None);
    };
    Ok(Some(Boxed::new(alloc, Cond::Or(left, right))?))
}

/// NOT of a condition, where it is there.
#[inline(never)]
fn negated(alloc: Global, inner: Option<Boxed<Cond>>) -> Result<Option<Boxed<Cond>>, NoMemory>
    ensures { IfOk result (λ cond. cond ≡ option_map made.Not inner) }
{
    match inner {
        Some(inner) => Ok(Some(Boxed::new(alloc, Cond::Not(inner))?)),
        None => Ok(None),
    }
}

impl<'c> Columns<'c> {
    /// Whether every column that a condition names is there.
    pub(crate) fn has_all(&self, cond: &CondText) -> bool
        ensures { result ≡ conditions.is_present self.now.list.now cond.now }
    {
        match cond {
            CondText::Cmp { name, .. } => self.has(name.as_slice()),
            CondText::OneOf { name, .. } => self.has(name.as_slice()),
            CondText::IsNull { name, .. } => self.has(name.as_slice()),
            CondText::Starts { name, .. } => self.has(name.as_slice()),
            CondText::Has { name, .. } => self.has(name.as_slice()),
            CondText::And(left, right) => self.has_all(left.get()) && self.has_all(right.get()),
            CondText::Or(left, right) => self.has_all(left.get()) && self.has_all(right.get()),
            CondText::Not(inner) => self.has_all(inner.get()),
        }
    }

    /// The same of a condition that may be left out.
    pub(crate) fn has_given(&self, cond: &Option<CondText>) -> bool
        ensures { result ≡ conditions.given_is_present self.now.list.now cond.now }
    {
        match cond {
            Some(cond) => self.has_all(cond),
            None => true,
        }
    }

    /// A comparison, where its literal suits its column.
    #[inline(never)]
    fn comparison(
        &self,
        alloc: Global,
        name: &List<u8>,
        op: Op,
        literal: &Literal,
    ) -> Result<Option<Boxed<Cond>>, NoMemory>
        ensures { IfOk result (λ cond. cond
            ≡ conditions.comparison_on self.now.list.now name.now op literal.now) }
    {
        let Some((column, ty)) = self.column(name.as_slice()) else {
            return Ok(None);
        };
        let Some(literal) = value_of(alloc, ty, literal)? else {
            return Ok(None);
        };
        let cond = Cond::Cmp {
            column,
            op,
            literal,
        };
        Ok(Some(Boxed::new(alloc, cond)?))
    }

    /// An IN, where its literals suit its column.
    #[inline(never)]
    fn one_of(
        &self,
        alloc: Global,
        name: &List<u8>,
        literals: &List<Literal>,
    ) -> Result<Option<Boxed<Cond>>, NoMemory>
        ensures { IfOk result (λ cond. cond
            ≡ conditions.one_of self.now.list.now name.now literals.now) }
    {
        let Some((column, ty)) = self.column(name.as_slice()) else {
            return Ok(None);
        };
        let Some(literals) = values_of(alloc, ty, literals.as_slice())? else {
            return Ok(None);
        };
        Ok(Some(Boxed::new(alloc, Cond::OneOf { column, literals })?))
    }

    /// An IS NULL.
    #[inline(never)]
    fn null_test(
        &self,
        alloc: Global,
        name: &List<u8>,
        negated: bool,
    ) -> Result<Option<Boxed<Cond>>, NoMemory>
        ensures { IfOk result (λ cond. cond
            ≡ conditions.null_test_on self.now.list.now name.now negated) }
    {
        match self.place(name.as_slice()) {
            Some(column) => Ok(Some(Boxed::new(alloc, Cond::IsNull { column, negated })?)),
            None => Ok(None),
        }
    }

    /// A startsWith, where its text suits its column.
    #[inline(never)]
    fn starts(
        &self,
        alloc: Global,
        name: &List<u8>,
        prefix: &List<u8>,
    ) -> Result<Option<Boxed<Cond>>, NoMemory>
        ensures { IfOk result (λ cond. cond
            ≡ conditions.starts_on self.now.list.now name.now prefix.now) }
    {
        let Some((column, ty)) = self.column(name.as_slice()) else {
            return Ok(None);
        };
        let Some(prefix) = prefix_of(alloc, ty, prefix)? else {
            return Ok(None);
        };
        Ok(Some(Boxed::new(alloc, Cond::Starts { column, prefix })?))
    }

    /// A has, where its literal suits the elements of its column.
    #[inline(never)]
    fn element_test(
        &self,
        alloc: Global,
        name: &List<u8>,
        literal: &Literal,
    ) -> Result<Option<Boxed<Cond>>, NoMemory>
        ensures { IfOk result (λ cond. cond
            ≡ conditions.has_on self.now.list.now name.now literal.now) }
    {
        let Some((column, ty)) = self.column(name.as_slice()) else {
            return Ok(None);
        };
        let Some(literal) = element_of(alloc, ty, literal)? else {
            return Ok(None);
        };
        Ok(Some(Boxed::new(alloc, Cond::Has { column, literal })?))
    }

    /// The condition of a sentence's, where each literal suits its column. A text may join some 9,000
    /// conditions, so a call takes little of the stack: it returns a box, and the others aren't inlined.
    fn cond(&self, alloc: Global, cond: &CondText) -> Result<Option<Boxed<Cond>>, NoMemory>
        ensures { IfOk result (λ found. found ≡ conditions.cond_of self.now.list.now cond.now) }
    {
        match cond {
            CondText::Cmp { name, op, literal } => self.comparison(alloc, name, *op, literal),
            CondText::OneOf { name, literals } => self.one_of(alloc, name, literals),
            CondText::IsNull { name, negated } => self.null_test(alloc, name, *negated),
            CondText::Starts { name, prefix } => self.starts(alloc, name, prefix),
            CondText::Has { name, literal } => self.element_test(alloc, name, literal),
            CondText::And(left, right) => {
                let left = self.cond(alloc, left.get())?;
                let right = self.cond(alloc, right.get())?;
                all_of(alloc, left, right)
            }
            CondText::Or(left, right) => {
                let left = self.cond(alloc, left.get())?;
                let right = self.cond(alloc, right.get())?;
                any_of(alloc, left, right)
            }
            CondText::Not(inner) => {
                let inner = self.cond(alloc, inner.get())?;
                negated(alloc, inner)
            }
        }
    }

    /// The same of a condition that may be left out.
    pub(crate) fn given_cond(
        &self,
        alloc: Global,
        cond: &Option<CondText>,
    ) -> Result<Option<Option<Cond>>, NoMemory>
        ensures { IfOk result (λ found. found ≡ conditions.given_cond self.now.list.now cond.now) }
    {
        match cond {
            None => Ok(Some(None)),
            Some(cond) => match self.cond(alloc, cond)? {
                Some(cond) => Ok(Some(Some(cond.into_inner()))),
                None => Ok(None),
            },
        }
    }
}
