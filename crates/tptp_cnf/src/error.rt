//! Why a file is refused.
//!
//! A refusal names its cause, and the place of the refused token: its offset in the file, from 0. Where
//! the file ends too early, that place is its length.
use std::alloc::AllocError;
use thiserror::Error;
use tptp_grammar::{Refusal, What, Which};

/// Why a file was not read.
#[derive(Debug, Drop, Error)]
pub enum CnfError {
    /// No file goes on with the token, or the file ends too early.
    #[error("syntax error at byte {at}")]
    Syntax { at: u64 },
    /// No file goes on with the token, which asks for something that lies outside of the profile.
    #[error("not in the profile at byte {at}")]
    Inappropriate { what: What, at: u64 },
    /// The token passes a limit.
    #[error("a limit is passed at byte {at}")]
    Limit { which: Which, at: u64 },
    /// Memory is out.
    #[error("out of memory")]
    Memory,
}

impl CnfError {
    ghost use Rattle.std.specs.Prelude.{◌≡◌};
    ghost use Rattle.tptp_cnf.specs.Causes.{error_of};

    /// The token at this place is refused.
    pub(crate) fn refused(refusal: Refusal, at: u64) -> Self
        ensures { result ≡ error_of refusal at }
    {
        match refusal {
            Refusal::Syntax => CnfError::Syntax { at },
            Refusal::Inappropriate(what) => CnfError::Inappropriate { what, at },
            Refusal::Limit(which) => CnfError::Limit { which, at },
        }
    }
}

impl From<AllocError> for CnfError {
    ghost use Rattle.std.specs.Prelude.{◌≡◌};
    ghost use Rattle.tptp_cnf.specs.declared.error.CnfError.TheVariants.{Memory};

    ghost from_gives = { λ _ e. e ≡ Memory };

    fn from(_: AllocError) -> Self {
        CnfError::Memory
    }
}
