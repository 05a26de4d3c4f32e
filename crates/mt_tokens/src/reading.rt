//! The tokens of a text.

ghost use Rattle.std.specs.Prelude.{IfOk, List};
ghost use Rattle.mt_tokens.specs.Tokens.{Tok, plains};
ghost use Rattle.mt_tokens.specs.Lexis.{IsTokens, GivesTokens};

use crate::error::TokenError;
use crate::lexis::{skip_blanks, split_token};
use crate::token::Token;
use mt_types::List;
use std::alloc::Global;

/// The tokens of a text: the longest at each place, with or without blanks between and round them.
///
/// # Errors
/// `Bad` exactly where the text is no list of tokens: somewhere stands a byte that begins none, an
/// open quote, an escape that is none, or something in backquotes that is no name.
pub fn read_tokens(alloc: Global, text: &[u8]) -> Result<List<Token<'_>>, TokenError>
    ensures found { IfOk result (λ tokens. IsTokens text.now (plains tokens)) }
    ensures only { (tokens : List Tok) → IsTokens text.now tokens → GivesTokens result tokens }
{
    let mut tokens = List::new(alloc);
    let mut rest = skip_blanks(text);
    'tokens: while !rest.is_empty() {
        let Some((token, after)) = split_token(rest) else {
            return Err(TokenError::Bad);
        };
        tokens.push(token)?;
        rest = skip_blanks(after);
    }
    Ok(tokens)
}
