//! Which entries of a context have an atom, and which may be more general than it, told by look-ups.
//!
//! The index is kept as entries come and go, and has none of them: it lists positions, and a reader asks its
//! view what stands there. An inverted index by hash codes of atoms and by predicates.
#![tactic(auto)]

mod index;
mod keys;
mod postings;

pub use index::Index;
