//! The problem of a seed.
//!
//! The words of the generator are drawn first, three for each clause. Where no literal has a constant, the
//! constant `c0` is added.
ghost use Rattle.std.specs.Prelude.{◌≡◌, ◌≤◌, ◌*◌, IsTrue, IfOk, OnOk};
ghost use Rattle.std.specs.List.{AllByRecursion};
ghost use Rattle.me_terms.specs.Validity.{IsValid};
ghost use Rattle.tptp_cnf.specs.Meaning.{is_constant, with_constant};
ghost use Rattle.tptp_cnf.specs.Plain.{IsPlain};
ghost use Rattle.make_problem.specs.Made.{words_of, IsMade};
ghost use Rattle.make_problem.specs.declared.limits.TheConstants.{MAX_MADE_PREDICATES, MAX_MADE_CLAUSES};

use crate::clauses::drawn_clauses;
use crate::limits::{CLAUSE_LITERALS, MAX_MADE_CLAUSES, MAX_MADE_PREDICATES};
use crate::word::constant_named;
use me_terms::{Problem, Signature};
use rand_core::SeedableRng;
use rand_core::utils::NextWord;
use rand_pcg::Pcg32;
use std::alloc::{AllocError, Global};

/// The first words of the seed's generator.
pub(crate) fn words(alloc: Global, seed: u64, count: usize) -> Result<Vec<u32>, AllocError>
    ensures { IfOk result (λ words. words.items ≡ words_of seed count) }
{
    let mut generator = Pcg32::seed_from_u64(seed);
    let mut words = Vec::new(alloc);
    'words: for _word in 0..count {
        words.push(generator.next_word())?;
    }
    Ok(words)
}

/// Adds `c0` where there is no function. Each function is a constant.
fn add_constant(alloc: Global, signature: &mut Signature) -> Result<(), AllocError>
    requires { AllByRecursion (λ s. IsTrue (is_constant s)) signature.old.functions }
    ensures { OnOk result (signature.new ≡ record signature.old { functions = with_constant signature.old.functions }) }
{
    if signature.fun_count() == 0 {
        signature.add_fun(constant_named(alloc, b"c0")?)?;
    }
    Ok(())
}

/// The problem of the seed, with so many clauses of three literals over at most so many predicates. It
/// is valid, and what is written of it as a file means it.
pub fn make(alloc: Global, seed: u64, preds: u32, clauses: u32) -> Result<Problem, AllocError>
    requires preds { (1 ≤ preds) × (preds ≤ MAX_MADE_PREDICATES) }
    requires clauses { clauses ≤ MAX_MADE_CLAUSES }
    ensures made { IfOk result (λ problem. IsMade seed preds clauses problem) }
    ensures plain { IfOk result (λ problem. IsPlain problem) }
    ensures valid { IfOk result (λ problem. IsValid problem) }
{
    let words = words(alloc, seed, CLAUSE_LITERALS * clauses as usize)?;
    let mut signature = Signature::new(alloc);
    let clauses = drawn_clauses(alloc, preds, &mut signature, clauses, &words)?;
    add_constant(alloc, &mut signature)?;
    Ok(Problem {
        clauses,
        signature,
        c0: 0,
    })
}
