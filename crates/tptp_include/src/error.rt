//! Why a file was not made flat.
//!
//! Each cause but a fault of the library and want of memory is told by what the files say.
use crate::names::Names;
use me_terms::{Label, Text};
use std::alloc::AllocError;
use thiserror::Error;
use tptp_cnf::CnfError;

/// Why a library did not say whether it holds a file.
#[derive(Debug, Drop, Error)]
pub enum FindError {
    /// The library counted a fault.
    #[error("the library failed")]
    Failed,
    /// Memory is out.
    #[error("out of memory")]
    Memory,
}

impl From<AllocError> for FindError {
    ghost use Rattle.std.specs.Prelude.{◌≡◌};
    ghost use Rattle.tptp_include.specs.declared.error.FindError.TheVariants.{Memory};

    ghost from_gives = { λ _ e. e ≡ Memory };

    fn from(_: AllocError) -> Self {
        FindError::Memory
    }
}

/// A limit of what is made flat.
#[derive(Clone, Copy, Debug, PartialEq, Eq)]
pub enum FlatLimit {
    /// `MAX_INCLUDES` includes.
    Includes,
    /// `MAX_CHAIN` files in a chain.
    Chain,
    /// As many formulas as a file may have.
    Formulas,
    /// As many bytes as a file may have.
    Length,
}

/// Why a file was not made flat. A chain begins with the main file, and ends with the file that was asked for.
#[derive(Drop)]
pub enum FlatError {
    /// The file of this name is refused.
    File { name: Text, error: CnfError },
    /// The library holds no file of the name at the chain's end.
    Missing { chain: Names },
    /// The file at the chain's end stands before in it.
    Cycle { chain: Names },
    /// No formula of the file has the label that is picked of it.
    Unnamed { file: Text, label: Label },
    /// A limit is passed.
    Limit { which: FlatLimit },
    /// The library counted a fault.
    Fault,
    /// Memory is out.
    Memory,
}

impl From<AllocError> for FlatError {
    ghost use Rattle.std.specs.Prelude.{◌≡◌};
    ghost use Rattle.tptp_include.specs.declared.error.FlatError.TheVariants.{Memory};

    ghost from_gives = { λ _ e. e ≡ Memory };

    fn from(_: AllocError) -> Self {
        FlatError::Memory
    }
}
