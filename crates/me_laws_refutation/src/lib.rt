//! The refutation theorem, as laws of the definitions of `me_terms`, each the contract of a function
//! with an empty body.
//!
//! The list of a closed tree consists of ground instances that no choice of truth values makes true.
#![tactic(auto)]

ghost use Rattle.me_laws_refutation.specs.Refutation.{ClosedIsRefuted, UnsatisfiableIsRefuted};

/// A closed tree's list is refuted, and each of its instances is a ground instance of its clause.
pub fn closed_is_refuted()
    ensures { ClosedIsRefuted }
{}

/// The list of an Unsatisfiable answer is refuted by ground instances, within the list bound.
pub fn unsatisfiable_is_refuted()
    ensures { UnsatisfiableIsRefuted }
{}
