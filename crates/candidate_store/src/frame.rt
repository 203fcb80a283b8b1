//! What is kept of each node of a branch.
ghost use Rattle.std.specs.Prelude.{◌≡◌, ◌<◌, ◌-◌, [], length, slice_get, Some, Bool, IsTrue, ◌↔◌, IfOk};
ghost use Rattle.me_terms.specs.Values.{ProblemValue};
ghost use Rattle.me_terms.specs.Context.{Context as ContextOf};
ghost use Rattle.me_terms.specs.Next.{IsNext};
ghost use Rattle.me_terms.specs.AnswerViews.{next_value};
ghost use Rattle.me_terms.specs.declared.bounds.Bounds.{Bounds as BoundsOf};
ghost use Rattle.candidate_store.specs.Kept.{FrameValue, is_close, IsSettled};

use candidate_keys::UnifierKey;
use me_terms::{Again, Bound, Next};
use std::alloc::{AllocError, Global};
use std::marker::Model;

/// The next step at a node, and the unifiers that were found there.
#[derive(Drop)]
pub(crate) struct Frame {
    pub(crate) step: Next,
    /// The unifiers whose pivots were not searched before.
    pub(crate) unifiers: Vec<UnifierKey>,
    /// How many positions were searched as pivots of unifiers, here and at the nodes above.
    pub(crate) searched: u32,
}

impl Model for Frame {
    ghost use Rattle.std.specs.Coded.{codes};
    ghost use Rattle.me_terms.specs.Terms.{arguments_code};
    ghost use Rattle.me_terms.specs.AnswerViews.{next_value};
    ghost use Rattle.candidate_store.specs.Kept.{FrameValue};

    ghost Value = { FrameValue };

    ghost coded = { Prim.hlevel (codes, arguments_code) };

    ghost view = { λ f. record { step = next_value f.step; unifiers = f.unifiers.items; searched = f.searched } };
}

impl Frame {
    /// How many positions were searched, here and at the nodes above.
    pub(crate) fn positions(&self) -> u32
        ensures { result ≡ self.now.searched }
    {
        self.searched
    }

    /// The step at the node.
    pub(crate) fn next(&self) -> &Next
        ensures { next_value result.now ≡ self.now.step }
    {
        &self.step
    }
}

/// The last frame.
pub(crate) fn last_of(frames: &[Frame]) -> &Frame
    requires { 0 < length frames.now }
    ensures { slice_get frames.now (length frames.now - 1) ≡ Some result.now }
{
    &frames[frames.len() - 1]
}

/// Whether the step closes the context.
pub(crate) fn is_closed(step: &Next) -> bool
    ensures { result ≡ is_close (next_value step.now) }
{
    matches!(step, Next::Close { .. })
}

/// Whether a context with that next step has no Close, and no Asserts but those that are kept, which are all
/// of them where they are fresh.
pub(crate) fn is_settled(step: &Next, is_fresh: bool) -> bool
    ensures { IsTrue result → (problem : ProblemValue) (bounds : BoundsOf) (context : ContextOf) → IsNext problem bounds context (next_value step.now) → IsSettled problem bounds context is_fresh }
{
    match step {
        Next::Close { .. } => false,
        Next::Assert { .. } => is_fresh,
        Next::Split { .. } => true,
        Next::Exhausted => true,
        Next::Bounded { bound } => is_fresh || *bound != Bound::Literals,
    }
}

/// An equal step.
pub(crate) fn step_again(alloc: Global, step: &Next) -> Result<Next, AllocError>
    ensures { IfOk result (λ copy. next_value copy ≡ next_value step.now) }
{
    match step {
        Next::Close { clause, tuple } => Ok(Next::Close {
            clause: *clause,
            tuple: tuple.again(alloc)?,
        }),
        Next::Assert { entry } => Ok(Next::Assert {
            entry: entry.again(alloc)?,
        }),
        Next::Split { literal, kind } => Ok(Next::Split {
            literal: literal.again(alloc)?,
            kind: *kind,
        }),
        Next::Exhausted => Ok(Next::Exhausted),
        Next::Bounded { bound } => Ok(Next::Bounded { bound: *bound }),
    }
}

/// The frame of a node with that step, at which no unifiers were searched.
pub(crate) fn same_search(alloc: Global, step: Next, last: &Frame) -> Frame
    ensures { result ≡ record { step = next_value step; unifiers = []; searched = last.now.searched } }
{
    Frame {
        step,
        unifiers: Vec::new(alloc),
        searched: last.searched,
    }
}
