//! Files that include files, made one.
//!
//! `flatten_file` gives the text of a file with those of the files that it includes in their places, or the first cause for which there is none, in the order in which lines are followed.
//! No call goes deeper than a chain of includes may be long.
#![tactic(auto)]

mod broken;
mod bundle;
mod error;
mod flat;
mod flatten;
mod laws;
mod library;
mod limits;
mod names;

pub use broken::BrokenLibrary;
pub use bundle::{Bundle, BundleError, read_bundle};
pub use error::{FindError, FlatError, FlatLimit};
pub use flatten::flatten_file;
pub use laws::{one_flat, one_outcome, outcome_is_flat};
pub use library::Library;
pub use limits::{MAX_CHAIN, MAX_FILE_NAME, MAX_INCLUDES};
pub use names::Names;
