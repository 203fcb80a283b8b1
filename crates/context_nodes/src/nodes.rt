//! The table of the entries of all branches.
//!
//! Entries are put into it by any thread and stand where they were put, so that branches keep references to
//! them. None is taken out while the table stands.
ghost use Rattle.std.specs.Prelude.{◌≡◌, IfOk, IfErr};
ghost use Rattle.me_terms.specs.Grown as grown;

use crate::branch::Branch;
use me_terms::{Entry, Kind, Pattern, Reason, Start};
use std::alloc::{AllocError, Global};
use std::sync::Wait;

/// A table of entries, which branches share by `&`.
#[derive(Drop)]
pub struct Nodes {
    entries: boxcar::Vec<Entry>,
}

impl Nodes {
    /// A table with no entries. Later calls that need memory take it from `alloc`.
    pub fn new(alloc: Global) -> Result<Nodes, AllocError> {
        Ok(Nodes {
            entries: boxcar::Vec::new(alloc)?,
        })
    }

    /// Puts an entry into the table and lends it, or hands it back where memory is out.
    pub(crate) fn keep<'n, R: Wait>(&'n self, rt: &R, e: Entry) -> Result<&'n Entry, Entry>
        ensures ok { IfOk result (λ kept. kept.now ≡ e) }
        ensures back { IfErr result (λ back. back ≡ e) }
    {
        let pushed = self.entries.push_shown(rt, e)?;
        Ok(self.entries.value(&pushed))
    }

    /// The branch of a start, which is its pseudo-literal alone. Its later calls that need memory take it
    /// from `alloc`, or from the table's allocator.
    pub fn root<'n, R: Wait>(
        &'n self,
        rt: &'n R,
        alloc: Global,
        start: Start,
    ) -> Result<Branch<'n, R>, AllocError>
        ensures { IfOk result (λ branch. branch ≡ grown.start start) }
    {
        let entry = Entry {
            positive: start == Start::Positive,
            atom: Pattern::Any,
            kind: Kind::Parametric,
            reason: Reason::Pseudo,
        };
        let Ok(first) = self.keep(rt, entry) else {
            return Err(AllocError);
        };
        Branch::new(alloc, rt, self, first)
    }
}
