//! What a decision says, as contracts of functions without a body.
ghost use Rattle.ground_solver.specs.Laws.{AClosingProofRefutes, ListsOfInstancesAreClauses};

/// Clauses that a proof closes are satisfied by no truth assignment.
pub fn a_closing_proof_refutes()
    ensures { AClosingProofRefutes }
{}

/// A list of instances is refuted exactly where no truth assignment satisfies its clauses.
pub fn lists_of_instances_are_clauses()
    ensures { ListsOfInstancesAreClauses }
{}
