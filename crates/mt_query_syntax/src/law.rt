//! Laws of sentences, for every text.

ghost use Rattle.std.specs.Prelude.{◌≡◌, ℕ, List};
ghost use Rattle.mt_query_syntax.specs.declared.tree.QueryText.{QueryText};
ghost use Rattle.mt_query_syntax.specs.Grammar.{IsQueryText};

/// A text is at most one sentence.
pub fn a_text_is_one_query()
    ensures { (text : List ℕ) (a b : QueryText) → IsQueryText text a → IsQueryText text b → a ≡ b }
{}
