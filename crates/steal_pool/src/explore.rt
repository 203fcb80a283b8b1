//! What an explorer says: which works there are, and how one is walked.
//!
//! A work is the part of a search tree below a path, with all that its walk needs. The pool moves works
//! between threads, and knows of them their paths alone.
ghost use Rattle.std.specs.Prelude.{◌≡◌, ◌≤◌, ℕ, [], IfOk};
ghost use Rattle.me_terms.specs.Values.{ProblemValue};
ghost use Rattle.me_terms.specs.Validity.{IsLawful, IsValid};
ghost use Rattle.me_terms.specs.declared.bounds.Bounds.{Bounds as BoundsValue};
ghost use Rattle.branch_core.specs.Paths.{Turns};
ghost use Rattle.branch_core.specs.Portions.{TakesGifts, HandsBackPortion};

use branch_core::{Hook, Parts, Path, Record};
use std::alloc::{AllocError, Global};

/// Walks the works of one search tree.
pub trait Explore: Sync {
    /// What a worker walks, or gives away.
    type Work: Send + Drop;

    /// The problem whose tree it is.
    ghost problem: { Self → ProblemValue };

    /// The bounds of the tree.
    ghost bounds: { Self → BoundsValue };

    /// How many turns a path that is given away may have.
    ghost share: { Self → ℕ };

    /// The path that a work names.
    ghost path_of: { Self → Self.Work → Turns };

    /// Which works can be walked at which paths of the tree.
    ghost is_job: { Self → Turns → Self.Work → Type 0 };

    /// The work at the root.
    fn root(&self, alloc: Global) -> Result<Self::Work, AllocError>
        ensures { IfOk result (λ work. is_job self.now [] work × (path_of self.now work ≡ [])) };

    /// The path that a work names.
    fn path(&self, work: &Self::Work) -> Path
        ensures { result ≡ path_of self.now work.now };

    /// Walks what is below a work's path, and may give right children away. `room` is an empty list with
    /// room for 40 parts.
    fn walk<H: Hook<Self::Work>>(
        &self,
        alloc: Global,
        work: Self::Work,
        room: Parts,
        hook: &mut H,
    ) -> Record
        requires job { is_job self.now (path_of self.now work) work }
        // The hook takes each work that can be walked at a path that may be given away.
        requires hook { TakesGifts (share self.now) (path_of self.now work) (path_of self.now) (is_job self.now) (H.may_give hook.old) }
        requires share { share self.now ≤ 16 }
        requires empty { room.items ≡ [] }
        requires room { 40 ≤ room.spare }
        ensures path { result.path ≡ path_of self.now work }
        ensures portion { HandsBackPortion (problem self.now) (bounds self.now) (share self.now) (path_of self.now work) (H.history hook.old) (H.history hook.new) result };

    /// The problem is valid and the bounds are lawful.
    ghost lawful: { (explorer : Self) → IsValid (problem explorer) × IsLawful (bounds explorer) };
}
