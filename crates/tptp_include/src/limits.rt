//! The limits of includes.
//!
//! Those of formulas and of bytes are the ones of a file.

/// The greatest number of includes that are followed.
pub const MAX_INCLUDES: u32 = 100_000;

/// The greatest number of files in a chain of includes, the main file counted.
pub const MAX_CHAIN: u32 = 32;

/// The greatest number of bytes in the name of a file of a bundle.
pub const MAX_FILE_NAME: usize = 200;
