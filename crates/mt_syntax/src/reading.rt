//! The sentence of a text.

ghost use Rattle.std.specs.Prelude.{IfOk};
ghost use Rattle.mt_phrases.specs.Answers.{GivesSentence};
ghost use Rattle.mt_syntax.specs.declared.tree.TableText.{TableText};
ghost use Rattle.mt_syntax.specs.Grammar.{IsTableText};

use crate::sentence::sentence;
use crate::tree::TableText;
use mt_phrases::SyntaxError;
use mt_tokens::{TokenError, read_tokens};
use std::alloc::Global;

/// The sentence that a text is (docs/LANGUAGE.md, "Table text"; ClickHouse: `ParserCreateTableQuery`).
///
/// # Errors
/// `Bad` exactly where the text is no sentence.
pub fn read_table_text(alloc: Global, text: &[u8]) -> Result<TableText, SyntaxError>
    ensures found { IfOk result (λ sentence. IsTableText text.now sentence) }
    ensures only { (sentence : TableText) → IsTableText text.now sentence
        → GivesSentence result sentence }
{
    match read_tokens(alloc, text) {
        Ok(tokens) => sentence(alloc, tokens.as_slice()),
        Err(TokenError::Bad) => Err(SyntaxError::Bad),
        Err(TokenError::NoMemory) => Err(SyntaxError::NoMemory),
    }
}
