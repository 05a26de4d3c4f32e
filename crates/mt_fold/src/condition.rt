//! The value of a condition on a row: true, false or NULL.

ghost use Rattle.std.specs.Prelude.{◌≡◌, ◌<◌, length, IsTrue};
ghost use Rattle.mt_look.specs.Seen.{row_by_index};
ghost use Rattle.mt_fold.specs.Answer as answer;
ghost use Rattle.mt_query.specs.Named.{cond_passes, given_cond_passes};
ghost use Rattle.mt_query.specs.Truth.{and3, not3, or3, truth_of};

use crate::value::{compared, has, null_is, one_of, starts};
use mt_look::Look;
use mt_query::Cond;

/// The value of a condition on a row (docs/LANGUAGE.md, "Answers"); None is NULL. It takes no memory.
pub fn truth<L: Look>(cond: &Cond, from: &L, row: u64) -> Option<bool>
    requires shown { IsTrue (cond_passes (L.shows from.now) cond.now) }
    requires there { row < length (L.rows_of from.now) }
    ensures { result ≡ truth_of cond.now (row_by_index (L.rows_of from.now) row) }
{
    match cond {
        Cond::Cmp {
            column,
            op,
            literal,
        } => compared(from.item(*column, row), *op, literal),
        Cond::OneOf { column, literals } => one_of(from.item(*column, row), literals.as_slice()),
        Cond::IsNull { column, negated } => Some(null_is(*negated, from.item(*column, row))),
        Cond::Starts { column, prefix } => starts(from.item(*column, row), prefix.as_slice()),
        Cond::Has { column, literal } => Some(has(from.item(*column, row), literal)),
        Cond::And(a, b) => match truth(a.get(), from, row) {
            Some(false) => Some(false),
            first => both(first, truth(b.get(), from, row)),
        },
        Cond::Or(a, b) => match truth(a.get(), from, row) {
            Some(true) => Some(true),
            first => either(first, truth(b.get(), from, row)),
        },
        Cond::Not(a) => opposite(truth(a.get(), from, row)),
    }
}

fn both(a: Option<bool>, b: Option<bool>) -> Option<bool>
    ensures { result ≡ and3 a b }
{
    match (a, b) {
        (Some(false), _) => Some(false),
        (Some(true), _) => b,
        (None, Some(false)) => Some(false),
        (None, _) => None,
    }
}

fn either(a: Option<bool>, b: Option<bool>) -> Option<bool>
    ensures { result ≡ or3 a b }
{
    match (a, b) {
        (Some(true), _) => Some(true),
        (Some(false), _) => b,
        (None, Some(true)) => Some(true),
        (None, _) => None,
    }
}

fn opposite(a: Option<bool>) -> Option<bool>
    ensures { result ≡ not3 a }
{
    match a {
        None => None,
        Some(b) => Some(!b),
    }
}

fn is_true(truth: Option<bool>) -> bool
    ensures { result ≡ answer.is_true truth }
{
    match truth {
        None => false,
        Some(b) => b,
    }
}

/// Whether a query is over a row: its condition is true, or there is none.
pub fn keeps<L: Look>(cond: &Option<Cond>, from: &L, row: u64) -> bool
    requires shown { IsTrue (given_cond_passes (L.shows from.now) cond.now) }
    requires there { row < length (L.rows_of from.now) }
    ensures { result ≡ answer.keeps cond.now (row_by_index (L.rows_of from.now) row) }
{
    match cond {
        None => true,
        Some(cond) => is_true(truth(cond, from, row)),
    }
}
