//! The first entries of a context, as a context of their own.
//!
//! Whoever keeps what is hidden among them can ask all that is asked of a context, while the context itself
//! goes on. Nothing is copied.
#![tactic(auto)]

mod prefix;

pub use prefix::{Front, Prefix};
