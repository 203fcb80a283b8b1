//! Why the words of a call give no options.

use thiserror::Error;

/// Why the words of a call gave no options.
#[derive(Clone, Copy, Debug, PartialEq, Eq, Error)]
pub enum WordsError {
    /// They are not accepted.
    #[error("usage")]
    Usage,
    /// Memory is out.
    #[error("out of memory")]
    Memory,
}
