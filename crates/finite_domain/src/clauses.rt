//! The flattened clauses of a problem, numbered from 1.
//!
//! First comes a clause for each function, that it has a value, and then each clause of the problem.
ghost use Rattle.std.specs.Prelude.{◌≡◌, ◌+◌, ◌-◌, ◌<◌, ◌≤◌, ◌^◌, [], ◌∷◌, ◌++◌, map, length, OnOk, IfOk};
ghost use Rattle.std.specs.List.{All};
ghost use Rattle.me_terms.specs.Measures.{literals_weight};
ghost use Rattle.finite_domain.specs.Flat as flat;

use crate::literals::{flat_literals, totality};
use crate::symbols::{arity, literals_of, numbered};
use indexmap::IndexSet;
use me_terms::{Clause, Clauses, Literals, Signature};
use std::alloc::{AllocError, Global};

/// Puts a clause at the end, with the next number.
fn push_clause(alloc: Global, clauses: &mut Clauses, literals: Literals) -> Result<(), AllocError>
    requires { length clauses.old.items < 2 ^ 32 - 1 }
    ensures { OnOk result (clauses.new.items ≡ clauses.old.items ++ flat.labelled (length clauses.old.items + 1) literals.items ∷ []) }
{
    let number = clauses.len() as u32 + 1;
    let clause = Clause {
        number,
        label: numbered(alloc, b"m", number)?,
        literals,
    };
    match clauses.push(clause) {
        Ok(()) => Ok(()),
        Err(_) => Err(AllocError),
    }
}

/// The clauses that each function has one of `n` elements as its value.
pub(crate) fn totality_clauses(
    alloc: Global,
    signature: &Signature,
    n: u32,
) -> Result<Clauses, AllocError>
    requires { length signature.now.functions < 2 ^ 31 }
    ensures { IfOk result (λ made. made.items ≡ flat.numbered_from 1 (flat.totalities_from n 0 signature.now.functions)) }
{
    let mut made = Clauses::new(alloc);
    'functions: for j in 0..signature.fun_count() {
        let Some(function) = signature.fun(j) else {
            unreachable!();
        };
        let literals = totality(alloc, n, j, arity(function))?;
        push_clause(alloc, &mut made, literals)?;
    }
    Ok(made)
}

/// Adds the clauses of the problem behind those of so many relations.
pub(crate) fn add_clauses(
    alloc: Global,
    relations: u32,
    order: &IndexSet<u32>,
    clauses: &[Clause],
    made: &mut Clauses,
) -> Result<(), AllocError>
    requires relations { relations < 2 ^ 31 }
    requires made { length made.old.items ≡ relations }
    requires clauses { length clauses.now < 2 ^ 31 }
    requires order { length order.now.keys < 2 ^ 31 }
    requires weights { All (λ c. literals_weight c.literals < 2 ^ 31) clauses.now }
    ensures { OnOk result (made.new.items ≡ made.old.items ++ flat.numbered_from (relations + 1) (map (λ c. flat.flat_literals relations order.now.keys c.literals) clauses.now)) }
{
    'clauses: for clause in clauses {
        let literals = flat_literals(alloc, relations, order, literals_of(clause))?;
        push_clause(alloc, made, literals)?;
    }
    Ok(())
}
