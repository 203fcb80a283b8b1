//! Why there is no list.
//!
//! A list of instances has a bound on its weight, and takes memory.
use std::alloc::AllocError;
use thiserror::Error;

/// Why a list of instances was not made.
#[derive(Clone, Copy, Debug, PartialEq, Eq, Error)]
pub enum ListError {
    /// It weighs more than the bound.
    #[error("too heavy")]
    TooHeavy,
    /// Memory is out.
    #[error("out of memory")]
    Memory,
}

impl From<AllocError> for ListError {
    ghost use Rattle.std.specs.Prelude.{◌≡◌};
    ghost use Rattle.instance_lists.specs.declared.error.ListError.TheVariants.{Memory};

    ghost from_gives = { λ _ e. e ≡ Memory };

    fn from(_: AllocError) -> Self {
        ListError::Memory
    }
}
