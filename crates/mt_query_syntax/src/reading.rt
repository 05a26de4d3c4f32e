//! The sentence of a text.

ghost use Rattle.std.specs.Prelude.{IfOk};
ghost use Rattle.mt_phrases.specs.Answers.{GivesSentence};
ghost use Rattle.mt_query_syntax.specs.declared.tree.QueryText.{QueryText};
ghost use Rattle.mt_query_syntax.specs.Grammar.{IsQueryText};

use crate::sentence::sentence;
use crate::tree::QueryText;
use mt_phrases::SyntaxError;
use mt_tokens::{TokenError, read_tokens};
use std::alloc::Global;

/// The sentence that a text is (docs/LANGUAGE.md, "Queries"; ClickHouse: `ParserSelectQuery`).
///
/// # Errors
/// `Bad` exactly where the text is no sentence.
pub fn read_query_text(alloc: Global, text: &[u8]) -> Result<QueryText, SyntaxError>
    ensures found { IfOk result (λ sentence. IsQueryText text.now sentence) }
    ensures only { (sentence : QueryText) → IsQueryText text.now sentence
        → GivesSentence result sentence }
{
    match read_tokens(alloc, text) {
        Ok(tokens) => sentence(alloc, tokens.as_slice()),
        Err(TokenError::Bad) => Err(SyntaxError::Bad),
        Err(TokenError::NoMemory) => Err(SyntaxError::NoMemory),
    }
}
