//! Conditions without others inside.

ghost use Rattle.mt_tokens.specs.Tokens.{plains};
ghost use Rattle.mt_phrases.specs.Answers.{GivesPhrase};
ghost use Rattle.mt_phrases.specs.Readers.{one};
ghost use Rattle.mt_cond_syntax.specs.Reading.{atom_at, comparison_at, has_at, null_word_at, null_test_at, one_of_at, starts_at};
ghost use Rattle.mt_cond_syntax.specs.Terminals.{op_of};

use crate::literal::{literal, literal_list};
use crate::op::Op;
use crate::tree::CondText;
use mt_phrases::{
    NameRule, SyntaxError, keyword, name, second_is_keyword, second_is_sign, sign, text,
};
use mt_tokens::{Sign, Token, after_keyword, after_word, split_first};
use std::alloc::Global;

/// A comparison sign.
fn op<'a, 't>(tokens: &'t [Token<'a>]) -> Result<(Op, &'t [Token<'a>]), SyntaxError>
    ensures { GivesPhrase (λ x. (x.0, plains x.1.now)) result (one op_of (plains tokens.now)) }
{
    match split_first(tokens) {
        Some((Token::Sign(Sign::Equal), rest)) => Ok((Op::Eq, rest)),
        Some((Token::Sign(Sign::NotEqual), rest)) => Ok((Op::Ne, rest)),
        Some((Token::Sign(Sign::Less), rest)) => Ok((Op::Lt, rest)),
        Some((Token::Sign(Sign::LessEqual), rest)) => Ok((Op::Le, rest)),
        Some((Token::Sign(Sign::Greater), rest)) => Ok((Op::Gt, rest)),
        Some((Token::Sign(Sign::GreaterEqual), rest)) => Ok((Op::Ge, rest)),
        _ => Err(SyntaxError::Bad),
    }
}

/// A name, a comparison sign and a literal.
fn comparison<'a, 't>(
    alloc: Global,
    tokens: &'t [Token<'a>],
) -> Result<(CondText, &'t [Token<'a>]), SyntaxError>
    ensures { GivesPhrase (λ x. (x.0, plains x.1.now)) result (comparison_at (plains tokens.now)) }
{
    let (name, rest) = name(NameRule::Unreserved, alloc, tokens)?;
    let (op, rest) = op(rest)?;
    let (literal, rest) = literal(alloc, rest)?;
    Ok((CondText::Cmp { name, op, literal }, rest))
}

/// A name, IN and literals in parentheses.
fn one_of<'a, 't>(
    alloc: Global,
    tokens: &'t [Token<'a>],
) -> Result<(CondText, &'t [Token<'a>]), SyntaxError>
    ensures { GivesPhrase (λ x. (x.0, plains x.1.now)) result (one_of_at (plains tokens.now)) }
{
    let (name, rest) = name(NameRule::Unreserved, alloc, tokens)?;
    let rest = keyword(rest, b"IN")?;
    let (literals, rest) = literal_list(alloc, rest)?;
    Ok((CondText::OneOf { name, literals }, rest))
}

/// NOT NULL or NULL, and whether it is with NOT.
fn null<'a, 't>(tokens: &'t [Token<'a>]) -> Result<(bool, &'t [Token<'a>]), SyntaxError>
    ensures { GivesPhrase (λ x. (x.0, plains x.1.now)) result (null_word_at (plains tokens.now)) }
{
    match after_keyword(tokens, b"NOT") {
        Some(after) => {
            let rest = keyword(after, b"NULL")?;
            Ok((true, rest))
        }
        None => {
            let rest = keyword(tokens, b"NULL")?;
            Ok((false, rest))
        }
    }
}

/// A name, IS, and NOT NULL or NULL.
fn null_test<'a, 't>(
    alloc: Global,
    tokens: &'t [Token<'a>],
) -> Result<(CondText, &'t [Token<'a>]), SyntaxError>
    ensures { GivesPhrase (λ x. (x.0, plains x.1.now)) result (null_test_at (plains tokens.now)) }
{
    let (name, rest) = name(NameRule::Unreserved, alloc, tokens)?;
    let rest = keyword(rest, b"IS")?;
    let (negated, rest) = null(rest)?;
    Ok((CondText::IsNull { name, negated }, rest))
}

/// What stands behind `startsWith`.
fn starts<'a, 't>(
    alloc: Global,
    tokens: &'t [Token<'a>],
) -> Result<(CondText, &'t [Token<'a>]), SyntaxError>
    ensures { GivesPhrase (λ x. (x.0, plains x.1.now)) result (starts_at (plains tokens.now)) }
{
    let rest = sign(tokens, Sign::Open)?;
    let (name, rest) = name(NameRule::Unreserved, alloc, rest)?;
    let rest = sign(rest, Sign::Comma)?;
    let (prefix, rest) = text(alloc, rest)?;
    let rest = sign(rest, Sign::Close)?;
    Ok((CondText::Starts { name, prefix }, rest))
}

/// What stands behind `has`.
fn has<'a, 't>(
    alloc: Global,
    tokens: &'t [Token<'a>],
) -> Result<(CondText, &'t [Token<'a>]), SyntaxError>
    ensures { GivesPhrase (λ x. (x.0, plains x.1.now)) result (has_at (plains tokens.now)) }
{
    let rest = sign(tokens, Sign::Open)?;
    let (name, rest) = name(NameRule::Unreserved, alloc, rest)?;
    let rest = sign(rest, Sign::Comma)?;
    let (literal, rest) = literal(alloc, rest)?;
    let rest = sign(rest, Sign::Close)?;
    Ok((CondText::Has { name, literal }, rest))
}

/// A condition without others inside.
#[tactic(auto, unfolding(crate::specs::Reading::atom_at))]
pub(crate) fn atom<'a, 't>(
    alloc: Global,
    tokens: &'t [Token<'a>],
) -> Result<(CondText, &'t [Token<'a>]), SyntaxError>
    ensures { GivesPhrase (λ x. (x.0, plains x.1.now)) result (atom_at (plains tokens.now)) }
{
    if second_is_sign(tokens, Sign::Open) {
        if let Some(after) = after_word(tokens, b"startsWith") {
            return starts(alloc, after);
        }
        return match after_word(tokens, b"has") {
            Some(after) => has(alloc, after),
            None => Err(SyntaxError::Bad),
        };
    }
    if second_is_keyword(tokens, b"IN") {
        return one_of(alloc, tokens);
    }
    if second_is_keyword(tokens, b"IS") {
        return null_test(alloc, tokens);
    }
    comparison(alloc, tokens)
}
