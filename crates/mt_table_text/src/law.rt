//! Laws of table texts, for every text.

ghost use Rattle.std.specs.Prelude.{◌≡◌, ℕ, IsTrue, List, Ok, Result};
ghost use Rattle.mt_syntax.specs.declared.tree.TableText.{TableText};
ghost use Rattle.mt_syntax.specs.Grammar.{IsTableText};
ghost use Rattle.mt_table.specs.declared.definition.Table.{Table};
ghost use Rattle.mt_table.specs.Fields.{Fields};
ghost use Rattle.mt_table.specs.Kept.{keeps_rules};
ghost use Rattle.mt_table_text.specs.declared.why.TableWhy.{TableWhy};
ghost use Rattle.mt_table_text.specs.Judging.{fields_judged};
ghost use Rattle.mt_table_text.specs.Tables.{Defines};

/// What a sentence says that breaks no rule of texts keeps the rules of tables.
pub fn judged_tables_keep_the_rules()
    ensures { (text : List ℕ) (sentence : TableText) (fields : Fields) → IsTableText text sentence
        → fields_judged sentence ≡ Ok fields → IsTrue (keeps_rules fields) }
{}

/// A text defines one thing: one table, or one rule is the first that it breaks.
pub fn a_text_defines_one_table()
    ensures { (text : List ℕ) (a b : Result Table TableWhy) → Defines text a → Defines text b → a ≡ b }
{}
