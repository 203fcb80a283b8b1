//! The answer that parts without gifts decide.
//!
//! The first exhausted leaf decides, if every leaf left of it is known. Else the first bound that was met
//! decides, or the list of all leaves.
ghost use Rattle.std.specs.Prelude.{◌≡◌, ◌<◌, ◌↔◌, ℕ, IfOk, IsTrue, MatchOption};
ghost use Rattle.me_terms.specs.AnswerViews.{answer_value};
ghost use Rattle.me_terms.specs.Measures.{GREATEST_U64};
ghost use Rattle.branch_core.specs.Gathered.{AreClosedParts, AreSettledParts, IsSettledPart};
ghost use Rattle.branch_core.specs.PartViews.{part_value, part_values};
ghost use Rattle.branch_core.specs.Total as total;
ghost use Rattle.branch_core.specs.Total.{total_of, Decides};

use crate::gathering::gather;
use crate::part::{Listed, Part};
use me_terms::{Answer, Bound, Entries};
use std::alloc::{AllocError, Global};

/// The answer of the parts. Where a leaf that counts is not known, memory is out.
pub(crate) fn answer_of(
    alloc: Global,
    parts: &[&Part],
    list_bound: u64,
) -> Result<Answer, AllocError>
    requires { list_bound < GREATEST_U64 }
    ensures { IfOk result (λ answer. Decides (total_of list_bound (part_values parts.now)) (answer_value answer)) }
{
    if let Some(context) = first_model(parts)? {
        return Ok(Answer::Satisfiable {
            context: context.again(alloc)?,
        });
    }
    if let Some(bound) = first_bound(parts) {
        return Ok(Answer::GaveUp { bound });
    }
    match gather(alloc, parts, list_bound)? {
        Listed::Whole { list } => Ok(Answer::Unsatisfiable { list }),
        Listed::TooHeavy => Ok(Answer::GaveUp { bound: Bound::List }),
    }
}

/// The context of the first exhausted leaf, or None where no leaf is exhausted. Where a leaf left of it is
/// not known, memory is out.
fn first_model<'a>(parts: &[&'a Part]) -> Result<Option<&'a Entries>, AllocError>
    ensures { IfOk result (λ found. MatchOption found (AreSettledParts (part_values parts.now)) (λ context. (n : ℕ) → total_of n (part_values parts.now) ≡ total.HasSat context.now.items)) }
{
    for part in parts {
        if let Part::Sat { context } = part {
            return Ok(Some(context));
        }
        if !is_settled(part) {
            return Err(AllocError);
        }
    }
    Ok(None)
}

/// Whether the leaves of the part are known and none is exhausted.
fn is_settled(part: &Part) -> bool
    ensures { IsTrue result ↔ IsSettledPart (part_value part.now) }
{
    matches!(
        part,
        Part::Closed { listed: _ } | Part::Bounded { bound: _ }
    )
}

/// The first bound that was met, or None where every leaf is closed.
fn first_bound(parts: &[&Part]) -> Option<Bound>
    requires { AreSettledParts (part_values parts.now) }
    ensures { MatchOption result (AreClosedParts (part_values parts.now)) (λ bound. (n : ℕ) → total_of n (part_values parts.now) ≡ total.HasBound bound) }
{
    for part in parts {
        if let Part::Bounded { bound } = part {
            return Some(*bound);
        }
    }
    None
}
