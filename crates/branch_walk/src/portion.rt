//! The walk of a portion, from left to right.
//!
//! Near its path it gives right children away; what comes back and all that lies deeper it walks itself.
ghost use Rattle.std.specs.Prelude.{◌≡◌, ◌≤◌, [], length};
ghost use Rattle.me_terms.specs.Validity.{IsLawful, IsValid};
ghost use Rattle.branch_core.specs.Hooks.{SameGifts};
ghost use Rattle.branch_core.specs.Paths.{Turns};
ghost use Rattle.branch_walk.specs.Jobs.{IsJob};
ghost use Rattle.branch_core.specs.Portions.{TakesGifts, HandsBackPortion};
ghost use Rattle.branch_walk.specs.declared.job.Job.{Job as JobOf};

use crate::job::Job;
use crate::tally::Tally;
use crate::turning::Search;
use branch_core::{Hook, Parts, Record};
use me_terms::{Bounds, Problem, Trunk};
use std::alloc::Global;

/// Walks a job's subtree from left to right, and hands back what it found there.
///
/// At a Split of a node with fewer than `share` turns the right child is given to the hook, and the walk
/// goes on to the left; a right child that cannot be copied, or that comes back, is walked here, and nothing
/// below it is given away. A node whose key is greater than the least key that the hook tells is dropped,
/// with all to its right. After an exhausted leaf the rest is dropped too, and the leaf's key is posted.
/// Want of memory is a part of the record. `room` is an empty list with room for 40 parts.
pub fn walk_portion<T: Trunk, H: Hook<Job<T>>>(
    alloc: Global,
    problem: &Problem,
    bounds: &Bounds,
    share: u32,
    job: Job<T>,
    room: Parts,
    hook: &mut H,
) -> Record
    requires valid { IsValid problem.now }
    requires bounds { IsLawful bounds.now }
    requires share { share ≤ 16 }
    requires job { IsJob problem.now bounds.now job.path (T.context job.branch) }
    // The hook takes each job of the same tree at a path that may be given away.
    requires hook { TakesGifts share job.path (λ (work : JobOf T). work.path) (λ (gift : Turns) (work : JobOf T). IsJob problem.now bounds.now gift (T.context work.branch)) (H.may_give hook.old) }
    requires empty { room.items ≡ [] }
    requires room { 40 ≤ room.spare }
    ensures path { result.path ≡ job.path }
    ensures few { length result.parts ≤ 40 }
    ensures portion { HandsBackPortion problem.now bounds.now share job.path (H.history hook.old) (H.history hook.new) result }
    // Where nothing may be given and no key was told, all that was found is one part.
    ensures one_part { share ≡ 0 → (H.history hook.new).told ≡ (H.history hook.old).told → length result.parts ≤ 1 }
    ensures condition { SameGifts (H.may_give hook.old) (H.may_give hook.new) }
{
    let search = Search {
        alloc,
        problem,
        bounds,
    };
    let Job { path, branch } = job;
    let mut tally = Tally::new(room);
    let _state = search.walk(share, path, branch, &mut tally, hook);
    Record {
        path,
        parts: tally.finish(),
    }
}
