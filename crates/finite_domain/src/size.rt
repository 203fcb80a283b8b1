//! How many elements a model may have, and which problems are small enough to be flattened.
//!
//! Each problem of a file is.
ghost use Rattle.std.specs.Prelude.{◌<◌, ◌^◌, ◌↔◌, IsTrue};
ghost use Rattle.std.specs.List.{All};
ghost use Rattle.me_terms.specs.Measures.{literals_weight};
ghost use Rattle.finite_domain.specs.Flat.{IsSmall};

use me_terms::{Clause, Literal, Problem, Signature, weight_of};

/// The greatest number of elements.
pub const MAX_SIZE: u32 = 16;

/// What the clauses, functions, predicates, arguments of a function, and the weight of a clause are below.
pub const SMALL: u32 = 0x8000_0000;

/// Whether the clause weighs less.
fn is_light(literals: &[Literal]) -> bool
    ensures { IsTrue result ↔ (literals_weight literals.now < 2 ^ 31) }
{
    let mut weight = 0_u64;
    'literals: for literal in literals {
        weight = weight.saturating_add(weight_of(literal));
    }
    weight < SMALL as u64
}

/// Whether all clauses weigh less.
fn are_light(clauses: &[Clause]) -> bool
    ensures { IsTrue result ↔ All (λ c. literals_weight c.literals < 2 ^ 31) clauses.now }
{
    'clauses: for clause in clauses {
        if !is_light(clause.literals.as_slice()) {
            return false;
        }
    }
    true
}

/// Whether all functions have fewer arguments.
fn have_few_arguments(signature: &Signature) -> bool
    ensures { IsTrue result ↔ All (λ s. s.arity < 2 ^ 31) signature.now.functions }
{
    'functions: for j in 0..signature.fun_count() {
        let Some(function) = signature.fun(j) else {
            unreachable!();
        };
        if function.arity >= SMALL {
            return false;
        }
    }
    true
}

/// Whether the problem is small enough to be flattened.
pub fn is_small(problem: &Problem) -> bool
    ensures { IsTrue result ↔ IsSmall problem.now }
{
    problem.clauses.len() < SMALL as u64
        && problem.signature.fun_count() < SMALL
        && problem.signature.pred_count() < SMALL
        && have_few_arguments(&problem.signature)
        && are_light(problem.clauses.as_slice())
}
