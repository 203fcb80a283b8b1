//! The types of the prover: terms, literals, clauses and problems, the entries of a context, what a context
//! is to its readers, and answers; and matching and canonical forms of literals.
//!
//! Two values of these types are equal in a contract exactly where they are written alike. The
//! definitions of the calculus over them stand in `specs/`.
#![tactic(auto)]

mod again;
mod answer;
mod atom;
mod bounds;
mod canonical_form;
mod clause;
mod entry;
mod hash;
mod lighter_first;
mod matching;
mod measures;
mod problem;
mod sequence;
mod signature;
mod symbol;
mod term;
mod tuple;
mod view;

pub use again::Again;
pub use answer::{Answer, Instance, Instances, Next};
pub use atom::{Atom, Literal, Literals, Pattern};
pub use bounds::{Bound, Bounds, MAX_DEPTH, MAX_ENTRIES, MAX_LIST, MAX_WEIGHT, Start};
pub use canonical_form::canonical;
pub use clause::{Clause, Clauses};
pub use entry::{Entries, Entry, Kind, Reason};
pub use matching::{
    covers, generalizes, is_instance, is_variant, is_variant_of, matches, strictly_more_general,
};
pub use measures::{depth_of, is_ground, weight_of};
pub use problem::Problem;
pub use sequence::{Places, Sequence};
pub use signature::Signature;
pub use symbol::{Form, Label, Symbol, Text};
pub use term::{Term, Terms};
pub use tuple::Tuple;
pub use view::{Refused, Trunk, View};
