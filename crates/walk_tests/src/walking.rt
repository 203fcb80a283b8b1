//! Walks from the root of a tree, over a context of either form.
ghost use Rattle.std.specs.Prelude.{◌≡◌};
ghost use Rattle.me_terms.specs.Grown.{start};
ghost use Rattle.me_terms.specs.Validity.{IsLawful, IsValid};

use crate::keeper::Keeper;
use branch_core::{Parts, Path, Record};
use branch_walk::{Job, walk_portion};
use me_terms::{Bounds, Problem, Trunk};
use std::alloc::{AllocError, Global};

/// Walks the tree from its root. Only the root gives its right child to the keeper.
pub(crate) fn walk<T: Trunk>(
    alloc: Global,
    problem: &Problem,
    bounds: &Bounds,
    root: T,
    keeper: &mut Keeper,
) -> Result<Record, AllocError>
    requires valid { IsValid problem.now }
    requires bounds { IsLawful bounds.now }
    requires root { T.context root ≡ start bounds.now.start }
{
    let path = Path::root();
    let job = Job { path, branch: root };
    let mut room = Parts::new(alloc);
    room.reserve(40)?;
    Ok(walk_portion(alloc, problem, bounds, 1, job, room, keeper))
}
