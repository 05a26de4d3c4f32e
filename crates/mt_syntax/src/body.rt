//! A table's name, its elements and its clauses.

ghost use Rattle.std.specs.Prelude.{◌≡◌, [], ◌∷◌, codes};
ghost use Rattle.std.specs.List.{list_any};
ghost use Rattle.mt_tokens.specs.Tokens.{plains};
ghost use Rattle.mt_tokens.specs.Words.{is_keyword};
ghost use Rattle.mt_phrases.specs.Terminals.{is_text};
ghost use Rattle.mt_phrases.specs.Readers.{both, with_tree_if, skip};
ghost use Rattle.mt_phrases.specs.Answers.{GivesPhrase};
ghost use Rattle.mt_element_syntax.specs.Trees.{is_column_element};
ghost use Rattle.mt_syntax.specs.Trees.{sentence_of};
ghost use Rattle.mt_element_syntax.specs.Reading.{element_list_at};
ghost use Rattle.mt_syntax.specs.Reading.{body_at, engine_at};

use crate::clause::Clauses;
use crate::clauses::read_clauses;
use crate::tree::TableText;
use mt_element_syntax::{Element, any_text, elements};
use mt_phrases::{NameRule, SyntaxError, fixed_word, keyword, name, or_empty, sign, skip_database};
use mt_tokens::{Sign, Token, after_keyword};
use mt_types::List;
use std::alloc::Global;

/// The table's name, elements and clauses.
#[tactic(auto, unfolding(crate::specs::Reading::body_at))]
pub(crate) fn body<'a, 't>(
    alloc: Global,
    tokens: &'t [Token<'a>],
) -> Result<(TableText, &'t [Token<'a>]), SyntaxError>
    ensures { GivesPhrase (λ x. (x.0, plains x.1.now)) result (with_tree_if sentence_of body_at (plains tokens.now)) }
{
    let rest = skip_database(NameRule::Any, tokens)?;
    let (name, rest) = name(NameRule::Any, alloc, rest)?;
    let rest = skip_uuid(rest)?;
    let (elements, clauses, rest) = definition(alloc, rest)?;
    match table_text(alloc, name, elements, clauses) {
        Some(table) => Ok((table, rest)),
        None => Err(SyntaxError::Bad),
    }
}

/// What follows `UUID text`, where it is given.
fn skip_uuid<'a, 't>(tokens: &'t [Token<'a>]) -> Result<&'t [Token<'a>], SyntaxError>
    ensures { GivesPhrase (λ x. plains x.now) result
        (skip (is_keyword (codes "UUID")) (is_text ∷ []) (plains tokens.now)) }
{
    match after_keyword(tokens, b"UUID") {
        Some(after) => any_text(after),
        None => Ok(tokens),
    }
}

/// The table's elements and clauses.
fn definition<'a, 't>(
    alloc: Global,
    tokens: &'t [Token<'a>],
) -> Result<(List<Element>, Clauses, &'t [Token<'a>]), SyntaxError>
    ensures { GivesPhrase (λ x. ((x.0, x.1), plains x.2.now)) result (both element_list_at engine_at (plains tokens.now)) }
{
    let (elements, rest) = elements(alloc, tokens)?;
    let (clauses, rest) = engine(alloc, rest)?;
    Ok((elements, clauses, rest))
}

/// The engine and its clauses.
#[tactic(auto, unfolding(crate::specs::Reading::engine_at))]
fn engine<'a, 't>(
    alloc: Global,
    tokens: &'t [Token<'a>],
) -> Result<(Clauses, &'t [Token<'a>]), SyntaxError>
    ensures { GivesPhrase (λ x. (x.0, plains x.1.now)) result (engine_at (plains tokens.now)) }
{
    let rest = keyword(tokens, b"ENGINE")?;
    let rest = sign(rest, Sign::Equal)?;
    let rest = fixed_word(rest, b"MergeTree")?;
    read_clauses(alloc, rest)
}

/// What a name, elements and clauses say, where there are a column and ORDER BY.
fn table_text(
    alloc: Global,
    name: List<u8>,
    elements: List<Element>,
    clauses: Clauses,
) -> Option<TableText>
    ensures { result ≡ sentence_of (name, (elements, clauses)) }
{
    if !has_column(elements.as_slice()) {
        return None;
    }
    let Clauses {
        partition,
        primary,
        order,
        settings,
    } = clauses;
    let order = order?;
    Some(TableText {
        name,
        elements,
        partition: or_empty(alloc, partition),
        primary,
        order,
        settings: or_empty(alloc, settings),
    })
}

/// Whether one of the elements is a column.
fn has_column(elements: &[Element]) -> bool
    ensures { result ≡ list_any is_column_element elements.now }
{
    elements
        .iter()
        .any(|element| matches!(element, Element::Column { .. }))
}
