//! What the grammars of table texts and query texts share: the forms of phrase, what reads them, and single tokens.
//!
//! Each reader takes the tree of its phrase off the front of the tokens, or says that none stands there.
#![tactic(auto)]

mod error;
mod lists;
mod lookahead;
mod naming;
mod selecting;
mod selection;
mod token;

pub use error::SyntaxError;
pub use lists::{or_empty, singleton};
pub use lookahead::{
    begins_with_digits, begins_with_keyword, begins_with_sign, begins_with_text, begins_with_word,
    second_is_keyword, second_is_sign,
};
pub use naming::{NameRule, any_name, name, names, skip_database};
pub use selecting::selects;
pub use selection::{Selected, Selection};
pub use token::{fixed_word, keyword, number, sign, skip_semicolon, text};
