//! Laws of tokens, for every text.

ghost use Rattle.std.specs.Prelude.{◌≡◌, ◌↔◌, ℕ, List, Some};
ghost use Rattle.std.specs.List.{All};
ghost use Rattle.mt_tokens.specs.Tokens.{Tok};
ghost use Rattle.mt_tokens.specs.Words.{NamesWord};
ghost use Rattle.mt_tokens.specs.Lexis.{IsTokens, token_at};
ghost use Rattle.mt_tokens.specs.Writing.{IsLongest};

/// The token that is read at a place is the longest that begins there, and there is one where any
/// token begins.
pub fn the_longest_token_is_read()
    ensures { (text : List ℕ) (token : Tok) (rest : List ℕ)
        → (token_at text ≡ Some (token, rest)) ↔ IsLongest text token rest }
{}

/// Whatever token of a text is a name is a word of 1 to `MAX_NAME` bytes.
pub fn names_are_words()
    ensures { (text : List ℕ) (tokens : List Tok) → IsTokens text tokens → All NamesWord tokens }
{}
