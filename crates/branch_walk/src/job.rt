//! Jobs of a walk.

use branch_core::Path;

/// A path, and the branch at which its walk begins.
#[derive(Drop)]
pub struct Job<T> {
    /// The turns of the branch's splits, in order.
    pub path: Path,
    pub branch: T,
}
