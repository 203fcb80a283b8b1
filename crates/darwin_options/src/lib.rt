//! The options of a call, read from its words.
//!
//! `read_words` accepts exactly the words that `specs/AcceptedWords` defines, and gives the options that
//! they ask for, each in its range.
#![tactic(auto)]

mod command;
mod error;
mod options;
mod values;
mod words;

pub use error::WordsError;
pub use options::{
    DEFAULT_DEPTH, DEFAULT_ENTRIES, DEFAULT_LIST, DEFAULT_SHARE, DEFAULT_WEIGHT, DEFAULT_WORKERS,
    MAX_DIGITS, MAX_SEED, MAX_SHARE, MAX_WORKERS, Options,
};
pub use words::read_words;
