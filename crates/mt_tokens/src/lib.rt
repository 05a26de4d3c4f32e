//! Tokens: the words, names, texts, numbers and signs that table texts and queries are made of.
//!
//! `read_tokens` gives the one list of tokens that a text is, and `Bad` where it is none.
#![tactic(auto)]

mod ascii;
mod digits;
mod error;
mod escape;
mod keyword;
mod law;
mod lexis;
mod reading;
mod sign;
mod split;
mod token;

pub use digits::{number_of, wide_number_of};
pub use error::TokenError;
pub use escape::unescaped;
pub use keyword::{is_keyword, is_sign, is_word, name_of};
pub use law::{names_are_words, the_longest_token_is_read};
pub use reading::read_tokens;
pub use sign::Sign;
pub use split::{after_keyword, after_sign, after_word, split_first, split_name, split_number};
pub use token::Token;
