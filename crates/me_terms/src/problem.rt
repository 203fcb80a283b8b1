//! Problems: clauses over a signature.
use crate::clause::Clauses;
use crate::signature::Signature;
use std::marker::Model;

/// Clauses over a signature. `c0` is the number of the constant as which a variable that a refutation
/// leaves open is read.
#[derive(Drop)]
pub struct Problem {
    pub clauses: Clauses,
    pub signature: Signature,
    pub c0: u32,
}

impl Model for Problem {
    ghost use Rattle.std.specs.Coded.{codes};
    ghost use Rattle.me_terms.specs.Terms.{arguments_code};
    ghost use Rattle.me_terms.specs.Values.{ProblemValue};

    ghost Value = { ProblemValue };

    ghost coded = { Prim.hlevel (codes, arguments_code) };

    ghost view = { λ p. record { clauses = p.clauses.items; signature = p.signature; c0 = p.c0 } };
}
