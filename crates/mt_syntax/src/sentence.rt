//! The whole sentence.

ghost use Rattle.std.specs.Prelude.{[], ◌∷◌, codes};
ghost use Rattle.mt_tokens.specs.Tokens.{plains};
ghost use Rattle.mt_tokens.specs.Words.{is_keyword};
ghost use Rattle.mt_phrases.specs.Phrases.{second_is};
ghost use Rattle.mt_phrases.specs.Readers.{skip_if};
ghost use Rattle.mt_phrases.specs.Answers.{GivesPhrase};
ghost use Rattle.mt_syntax.specs.Reading.{rest_at, sentence_at};

use crate::body::body;
use crate::tree::TableText;
use mt_element_syntax::skip_comment;
use mt_phrases::{SyntaxError, keyword, second_is_keyword, skip_semicolon};
use mt_tokens::{Token, split_first};
use std::alloc::Global;

/// The sentence that the tokens are.
#[tactic(auto, unfolding(crate::specs::Reading::sentence_at))]
pub(crate) fn sentence(alloc: Global, tokens: &[Token<'_>]) -> Result<TableText, SyntaxError>
    ensures { GivesPhrase (λ x. x) result (sentence_at (plains tokens.now)) }
{
    let rest = keyword(tokens, b"CREATE")?;
    let rest = keyword(rest, b"TABLE")?;
    let rest = skip_exists(rest)?;
    named_table(alloc, rest)
}

/// What follows IF NOT EXISTS, where it is given. A table may have the name `if`.
fn skip_exists<'a, 't>(tokens: &'t [Token<'a>]) -> Result<&'t [Token<'a>], SyntaxError>
    ensures { GivesPhrase (λ x. plains x.now) result (skip_if (second_is (is_keyword (codes "NOT")))
        (is_keyword (codes "IF") ∷ is_keyword (codes "NOT") ∷ is_keyword (codes "EXISTS") ∷ [])
        (plains tokens.now)) }
{
    if !second_is_keyword(tokens, b"NOT") {
        return Ok(tokens);
    }
    let rest = keyword(tokens, b"IF")?;
    let rest = keyword(rest, b"NOT")?;
    keyword(rest, b"EXISTS")
}

/// The sentence from the table's name on.
#[tactic(auto, unfolding(crate::specs::Reading::rest_at))]
fn named_table(alloc: Global, tokens: &[Token<'_>]) -> Result<TableText, SyntaxError>
    ensures { GivesPhrase (λ x. x) result (rest_at (plains tokens.now)) }
{
    let (table, rest) = body(alloc, tokens)?;
    let rest = skip_comment(rest)?;
    let rest = skip_semicolon(rest)?;
    match split_first(rest) {
        None => Ok(table),
        Some(_) => Err(SyntaxError::Bad),
    }
}
