//! What a step on a path's word answers.
//!
//! A refusal carries the word that was seen, which is its cause.

/// Whether a path was given away.
#[derive(Clone, Copy)]
pub enum Offer {
    /// It is now: the word that was seen is 0.
    Offered,
    /// It was before: the word that was seen is not 0.
    NotNew { word: u64 },
}

/// Whether a path was taken.
#[derive(Clone, Copy)]
pub enum Take {
    /// It is now: the word that was seen is 1.
    Taken,
    /// It was not there to be taken: the word that was seen is not 1.
    NotOpen { word: u64 },
}
