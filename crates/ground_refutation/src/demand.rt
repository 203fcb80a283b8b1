//! Demands: each literal of an instance asks for the entry at its place.
ghost use Rattle.std.specs.Prelude.{◌≡◌, ◌∷◌, [], ◌++◌, ℕ, List, OnOk, IfSome, IsNone};
ghost use Rattle.me_terms.specs.LeafList.{demands, IsAsserted};

use me_terms::{Again, Literal, Reason, Tuple, View};
use std::alloc::{AllocError, Global};
use std::collections::VecDeque;

/// The position of an entry, and the ground literal at which it is asked for.
pub(crate) type Demand = (u32, Literal);

/// Puts the demand of one place at the end of a queue. A skipped place has none.
fn ask(
    alloc: Global,
    waiting: &mut VecDeque<Demand>,
    literal: &Literal,
    position: Option<u32>,
) -> Result<(), AllocError>
    ensures { OnOk result (waiting.new.items ≡ waiting.old.items ++ demands (literal.now ∷ []) (position ∷ [])) }
{
    let Some(k) = position else {
        return Ok(());
    };
    let asked = Literal {
        positive: !literal.positive,
        atom: literal.atom.again(alloc)?,
    };
    match waiting.push_back((k, asked)) {
        Ok(()) => Ok(()),
        Err(_) => Err(AllocError),
    }
}

/// Puts the demands of an instance at the end of a queue, in order.
pub(crate) fn ask_all(
    alloc: Global,
    waiting: &mut VecDeque<Demand>,
    literals: &[Literal],
    positions: &[Option<u32>],
) -> Result<(), AllocError>
    ensures { OnOk result (waiting.new.items ≡ waiting.old.items ++ demands literals.now positions.now) }
{
    for i in 0..literals.len().min(positions.len()) {
        ask(alloc, waiting, &literals[i], positions[i])?;
    }
    Ok(())
}

/// How an entry was asserted: the clause, the place in it, and the positions for its other places.
#[derive(Clone, Copy)]
pub(crate) struct Origin<'a> {
    pub clause: u32,
    pub place: u32,
    pub tuple: &'a Tuple,
}

/// How the entry at position `k` was asserted, if it was.
pub(crate) fn origin_of<V: View>(view: &V, k: u32) -> Option<Origin<'_>>
    ensures found { IfSome result (λ origin. IsAsserted (V.context view.now) k origin.clause origin.place origin.tuple.now.items) }
    ensures none { IsNone result → (c place : ℕ) (tuple : List ℕ) → ¬ IsAsserted (V.context view.now) k c place tuple }
{
    match &view.entry(k)?.reason {
        Reason::Asserted {
            clause,
            place,
            tuple,
        } => Some(Origin {
            clause: *clause,
            place: *place,
            tuple,
        }),
        _ => None,
    }
}
