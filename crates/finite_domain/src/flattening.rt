//! Flattening a problem for models of a given size.
//!
//! The flattened problem has no function with arguments. Its constants are the elements, and its models in
//! which they differ are the models of the problem over so many elements.
ghost use Rattle.std.specs.Prelude.{◌≡◌, ◌≤◌, IfOk};
ghost use Rattle.me_terms.specs.Validity.{IsValid};
ghost use Rattle.finite_domain.specs.Flat.{flat_of, IsSmall};
ghost use Rattle.finite_domain.specs.declared.size.TheConstants.{MAX_SIZE};

use crate::clauses::{add_clauses, totality_clauses};
use crate::symbols::{flat_signature, predicate_order};
use me_terms::Problem;
use std::alloc::{AllocError, Global};

/// The problem over `n` elements: each function is a relation between its arguments and its value.
pub fn flatten(alloc: Global, problem: &Problem, n: u32) -> Result<Problem, AllocError>
    requires valid { IsValid problem.now }
    requires small { IsSmall problem.now }
    requires size { (1 ≤ n) × (n ≤ MAX_SIZE) }
    ensures flat { IfOk result (λ made. made ≡ flat_of problem.now n) }
    ensures valid { IfOk result (λ made. IsValid made) }
{
    let parts = problem.clauses.as_slice();
    let relations = problem.signature.fun_count();
    let order = predicate_order(alloc, parts)?;
    let signature = flat_signature(alloc, &problem.signature, n, &order)?;
    let mut clauses = totality_clauses(alloc, &problem.signature, n)?;
    add_clauses(alloc, relations, &order, parts, &mut clauses)?;
    Ok(Problem {
        clauses,
        signature,
        c0: 0,
    })
}
