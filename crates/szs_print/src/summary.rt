//! Summaries as text.
//!
//! A summary has the status of an answer, the number of clauses, and the size of what shows the answer:
//! the number of instances or of literals.
ghost use Rattle.std.specs.Prelude.{◌≡◌, ◌<◌, ◌↔◌, ◌++◌, IsTrue, length, OnOk, IfOk};
ghost use Rattle.szs_print.specs.Printable.{IsName, IsPrintable};
ghost use Rattle.szs_print.specs.SummaryText.{IsShown, IsShownCount, size_lines, IsSummary};

use crate::answer::push_gave_up;
use crate::model::is_covered;
use crate::status::push_status;
use cnf_text::push_number;
use me_terms::{Answer, Entry, Pattern, Problem, Text};
use std::alloc::{AllocError, Global};

/// Whether the text of the model has a line for position `k`.
fn is_shown(entries: &[Entry], k: usize) -> bool
    requires { k < length entries.now }
    ensures { IsTrue result ↔ IsShown entries.now k }
{
    let entry = &entries[k];
    let Pattern::Of(_) = &entry.atom else {
        return false;
    };
    !is_covered(&entries[k + 1..], entry)
}

/// The number of lines that the text of the model has for its literals.
pub(crate) fn shown_count(entries: &[Entry]) -> u64
    ensures { IsShownCount entries.now (length entries.now) result }
{
    let mut count = 0;
    for k in 0..entries.len() {
        if is_shown(entries, k) {
            count += 1;
        }
    }
    count
}

/// Puts the lines with the number of clauses and the size at the end.
fn push_sizes(out: &mut Vec<u8>, clauses: u64, size: u64) -> Result<(), AllocError>
    ensures { OnOk result (out.new.items ≡ out.old.items ++ size_lines clauses size) }
{
    out.extend_from_slice(b"% clauses ")?;
    push_number(out, clauses)?;
    out.extend_from_slice(b"\n% size ")?;
    push_number(out, size)?;
    out.extend_from_slice(b"\n")
}

/// The summary of the answer to the problem, under the problem's name. The name has 1 to
/// `MAX_NAME_BYTES` bytes from 33 to 126, and the answer speaks of the problem's clauses and symbols.
pub fn print_summary(
    alloc: Global,
    name: &Text,
    problem: &Problem,
    answer: &Answer,
) -> Result<Vec<u8>, AllocError>
    requires name { IsName name.now.items }
    requires answer { IsPrintable problem.now answer.now }
    ensures { IfOk result (λ text. IsSummary name.now.items problem.now answer.now text.items) }
{
    let mut out = Vec::new(alloc);
    let name = name.as_slice();
    let clauses = problem.clauses.len();
    match answer {
        Answer::Unsatisfiable { list } => {
            push_status(&mut out, b"Unsatisfiable", name)?;
            push_sizes(&mut out, clauses, list.len())?;
        }
        Answer::Satisfiable { context } => {
            push_status(&mut out, b"Satisfiable", name)?;
            push_sizes(&mut out, clauses, shown_count(context.as_slice()))?;
        }
        Answer::GaveUp { bound } => {
            push_gave_up(&mut out, name, *bound)?;
            push_sizes(&mut out, clauses, 0)?;
        }
    }
    Ok(out)
}
