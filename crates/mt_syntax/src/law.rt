//! Laws of sentences, for every text.

ghost use Rattle.std.specs.Prelude.{◌≡◌, ℕ, List};
ghost use Rattle.mt_syntax.specs.declared.tree.TableText.{TableText};
ghost use Rattle.mt_syntax.specs.Grammar.{IsTableText};

/// A text is at most one sentence.
pub fn a_text_is_one_sentence()
    ensures { (text : List ℕ) (a b : TableText) → IsTableText text a → IsTableText text b → a ≡ b }
{}
