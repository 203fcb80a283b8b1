//! An explorer whose works are contexts that are copied whole.
ghost use Rattle.std.specs.Prelude.{◌≡◌, ◌≤◌};
ghost use Rattle.me_terms.specs.Validity.{IsLawful, IsValid};
ghost use Rattle.pool_tests.specs.ValidOnce.{valid_once};

use branch_core::{Hook, Parts, Path, Record};
use branch_walk::{Job, walk_portion};
use me_context::Context;
use me_terms::{Bounds, Problem};
use std::alloc::{AllocError, Global};
use steal_pool::Explore;

/// Walks the tree of a problem within bounds.
#[derive(Drop)]
pub(crate) struct Explorer<'p> {
    problem: &'p Problem,
    bounds: &'p Bounds,
    pub(crate) share: u32,
    ghost valid: { IsValid problem.now } by { valid_once problem.now },
    ghost lawful: { IsLawful bounds.now },
}

impl<'p> Explorer<'p> {
    pub(crate) fn new(problem: &'p Problem, bounds: &'p Bounds, share: u32) -> Self
        requires valid { IsValid problem.now }
        requires lawful { IsLawful bounds.now }
        ensures { result.share ≡ share }
    {
        Explorer {
            problem,
            bounds,
            share,
        }
    }
}

impl<'p> Explore for Explorer<'p> {
    ghost use Rattle.branch_walk.specs.Jobs.{IsJob};

    type Work = Job<Context>;

    ghost problem = { λ e. e.problem.now };

    ghost bounds = { λ e. e.bounds.now };

    ghost share = { λ e. e.share };

    ghost path_of = { λ e job. job.path };

    ghost is_job = { λ e path job. IsJob e.problem.now e.bounds.now path job.branch };

    fn root(&self, alloc: Global) -> Result<Job<Context>, AllocError> {
        let path = Path::root();
        let branch = Context::new(alloc, self.bounds.start)?;
        Ok(Job { path, branch })
    }

    fn path(&self, work: &Job<Context>) -> Path {
        work.path
    }

    fn walk<H: Hook<Job<Context>>>(
        &self,
        alloc: Global,
        work: Job<Context>,
        room: Parts,
        hook: &mut H,
    ) -> Record {
        walk_portion(
            alloc,
            self.problem,
            self.bounds,
            self.share,
            work,
            room,
            hook,
        )
    }

    ghost lawful = { λ e. (e.valid, e.lawful) };
}
