//! Refutations as text.
//!
//! A refutation has one line for each instance of its list, with the number and the label of the clause
//! that it is an instance of.
ghost use Rattle.std.specs.Prelude.{◌≡◌, ◌+◌, ◌++◌, decimal, slice_get, OnOk, IfOk};
ghost use Rattle.szs_print.specs.RefutationText.{origin_text, instance_line, instance_lines, refutation_text};

use crate::status::{push_output, push_status};
use cnf_text::{push_clause, push_label, push_number};
use me_terms::{Instance, Problem};
use std::alloc::{AllocError, Global};

/// Puts the number and the label of the clause at a place of the problem at the end.
fn push_origin(out: &mut Vec<u8>, problem: &Problem, clause: u32) -> Result<(), AllocError>
    ensures { OnOk result (out.new.items ≡ out.old.items ++ origin_text (slice_get problem.now.clauses clause)) }
{
    let Some(clause) = problem.clauses.get(u64::from(clause)) else {
        return Ok(());
    };
    push_number(out, u64::from(clause.number))?;
    out.extend_from_slice(b",")?;
    push_label(out, &clause.label)
}

/// Puts the line of the `k`-th instance at the end.
fn push_instance(
    out: &mut Vec<u8>,
    problem: &Problem,
    k: usize,
    instance: &Instance,
) -> Result<(), AllocError>
    ensures { OnOk result (out.new.items ≡ out.old.items ++ instance_line problem.now k instance.now) }
{
    out.extend_from_slice(b"cnf(i")?;
    push_number(out, k as u64)?;
    out.extend_from_slice(b",plain,")?;
    push_clause(out, &problem.signature, instance.literals.as_slice())?;
    out.extend_from_slice(b",instance(")?;
    push_origin(out, problem, instance.clause)?;
    out.extend_from_slice(b")).\n")
}

/// Puts the lines of the instances at the end, numbered from 1.
fn push_instances(out: &mut Vec<u8>, problem: &Problem, list: &[Instance]) -> Result<(), AllocError>
    ensures { OnOk result (out.new.items ≡ out.old.items ++ instance_lines problem.now 1 list.now) }
{
    for (i, instance) in list.iter().enumerate() {
        push_instance(out, problem, i + 1, instance)?;
    }
    Ok(())
}

/// The text of a refutation of the problem.
pub(crate) fn print_refutation(
    alloc: Global,
    name: &[u8],
    problem: &Problem,
    list: &[Instance],
) -> Result<Vec<u8>, AllocError>
    ensures { IfOk result (λ text. text.items ≡ refutation_text name.now problem.now list.now) }
{
    let mut out = Vec::new(alloc);
    push_status(&mut out, b"Unsatisfiable", name)?;
    push_output(&mut out, b"start Refutation", name)?;
    push_instances(&mut out, problem, list)?;
    push_output(&mut out, b"end Refutation", name)?;
    Ok(out)
}
