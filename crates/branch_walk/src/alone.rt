//! The walk of the whole tree, on one thread.
ghost use Rattle.std.specs.Prelude.{◌∷◌, [], IfOk};
ghost use Rattle.std.specs.List.{All};
ghost use Rattle.me_terms.specs.Validity.{IsLawful, IsValid};
ghost use Rattle.branch_core.specs.Whole.{AreWholeRecords};
ghost use Rattle.branch_walk.specs.OwnParts.{IsOwnPart};

use crate::alone_hook::Alone;
use crate::job::Job;
use crate::portion::walk_portion;
use branch_core::{Parts, Path, Record};
use me_context::Context;
use me_terms::{Bounds, Problem};
use std::alloc::{AllocError, Global};

/// Walks the whole tree of a problem, and gives nothing away.
pub fn walk_alone(alloc: Global, problem: &Problem, bounds: &Bounds) -> Result<Record, AllocError>
    requires valid { IsValid problem.now }
    requires bounds { IsLawful bounds.now }
    ensures whole { IfOk result (λ record'. AreWholeRecords problem.now bounds.now (record' ∷ [])) }
    ensures own { IfOk result (λ record'. All IsOwnPart record'.parts) }
{
    let path = Path::root();
    let branch = Context::new(alloc, bounds.start)?;
    let mut room = Parts::new(alloc);
    room.reserve(40)?;
    let job = Job { path, branch };
    let mut hook = Alone::new();
    Ok(walk_portion(alloc, problem, bounds, 0, job, room, &mut hook))
}
