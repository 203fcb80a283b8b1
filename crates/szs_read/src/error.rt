//! Why a text was not read as an answer.
use std::alloc::AllocError;
use thiserror::Error;

/// Why an answer was not read.
#[derive(Debug, Drop, Error)]
pub enum AnswerError {
    /// No answer begins with the lines up to this one, counted from 1. Where the text ends too early, it is
    /// one more than the number of its lines.
    #[error("no answer has line {line}")]
    Line { line: u32 },
    /// Memory is out.
    #[error("out of memory")]
    Memory,
}

impl From<AllocError> for AnswerError {
    ghost use Rattle.std.specs.Prelude.{◌≡◌};
    ghost use Rattle.szs_read.specs.declared.error.AnswerError.TheVariants.{Memory};

    ghost from_gives = { λ _ e. e ≡ Memory };

    fn from(_: AllocError) -> Self {
        AnswerError::Memory
    }
}
