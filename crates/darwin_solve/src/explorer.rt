//! What a pool of workers explores: the search tree of a problem, by branches over one table of entries.
ghost use Rattle.me_terms.specs.Validity.{IsLawful, IsValid};
ghost use Rattle.darwin_solve.specs.ValidOnce.{valid_once};

use branch_core::{Hook, Parts, Path, Record};
use branch_roots::Roots;
use branch_walk::{Job, walk_portion};
use me_terms::{Bounds, Problem};
use std::alloc::{AllocError, Global};
use steal_pool::Explore;

/// The search tree of a valid problem within lawful bounds, and where its branches begin.
///
/// A work is a path with its branch, and a work is walked by `walk_portion`. Right children are given away
/// at paths of at most `share` turns.
#[derive(Drop)]
pub struct Explorer<'n, N> {
    roots: &'n N,
    pub(crate) problem: &'n Problem,
    pub(crate) bounds: &'n Bounds,
    pub(crate) share: u32,
    ghost valid: { IsValid problem.now } by { valid_once problem.now },
    ghost lawful: { IsLawful bounds.now },
}

// All that it has are references to what threads share.
unsafe impl<N: Sync> Sync for Explorer<'_, N> {}

impl<'n, N> Explorer<'n, N> {
    ghost use Rattle.std.specs.Prelude.{◌≡◌};
    ghost use Rattle.me_terms.specs.Validity.{IsLawful, IsValid};

    /// The explorer of the tree of a problem within bounds.
    pub fn new(roots: &'n N, problem: &'n Problem, bounds: &'n Bounds, share: u32) -> Self
        requires valid { IsValid problem.now }
        requires bounds { IsLawful bounds.now }
        ensures problem { result.problem.now ≡ problem.now }
        ensures bounds { result.bounds.now ≡ bounds.now }
        ensures share { result.share ≡ share }
    {
        Explorer {
            roots,
            problem,
            bounds,
            share,
        }
    }
}

impl<'n, N: Roots> Explore for Explorer<'n, N> {
    ghost use Rattle.branch_walk.specs.Jobs.{IsJob};

    type Work = Job<N::Branch>;

    ghost problem = { λ e. e.problem.now };

    ghost bounds = { λ e. e.bounds.now };

    ghost share = { λ e. e.share };

    ghost path_of = { λ e work. work.path };

    ghost is_job = { λ e path work. IsJob e.problem.now e.bounds.now path (N.Branch.context work.branch) };

    fn root(&self, alloc: Global) -> Result<Job<N::Branch>, AllocError> {
        let path = Path::root();
        let branch = self.roots.root(alloc, self.bounds.start)?;
        Ok(Job { path, branch })
    }

    fn path(&self, work: &Job<N::Branch>) -> Path {
        work.path
    }

    fn walk<H: Hook<Job<N::Branch>>>(
        &self,
        alloc: Global,
        work: Job<N::Branch>,
        room: Parts,
        hook: &mut H,
    ) -> Record {
        walk_portion(
            alloc,
            self.problem,
            self.bounds,
            self.share,
            work,
            room,
            hook,
        )
    }

    ghost lawful = { λ e. (e.valid, e.lawful) };
}
