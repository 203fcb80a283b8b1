//! The tokens of the cnf part of the TPTP language.
//!
//! Bytes are cut in exactly one way into tokens, blanks and comments. The tokenizer gives the tokens
//! one after another, takes no memory, and ends with a bad token where the bytes are cut no further.
#![tactic(auto)]

mod bytes;
mod first;
mod gap;
mod laws;
mod lead;
mod number;
mod quoted;
mod text;
mod token;
mod tokenizer;

pub use bytes::{is_lower_letter, is_lower_word, is_word_byte};
pub use laws::{lower_words_are_words, one_cut, one_next};
pub use quoted::{is_escaped, unescaped};
pub use text::text_of;
pub use token::{Token, TokenKind};
pub use tokenizer::{Tokenizer, token_count};
