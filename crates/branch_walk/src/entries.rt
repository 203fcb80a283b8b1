//! Copies of a context's entries.
ghost use Rattle.std.specs.Prelude.{◌≡◌, IfOk};

use me_terms::{Again, Entries, View};
use std::alloc::{AllocError, Global};

/// Copies of the entries of a context, hidden ones too.
pub(crate) fn entries_of<V: View>(alloc: Global, view: &V) -> Result<Entries, AllocError>
    ensures { IfOk result (λ entries. entries.items ≡ V.context view.now) }
{
    let mut entries = Entries::new(alloc);
    for k in 0..view.len() {
        let Some(entry) = view.entry(k) else {
            unreachable!()
        };
        let copy = entry.again(alloc)?;
        let Ok(()) = entries.push(copy) else {
            return Err(AllocError);
        };
    }
    Ok(entries)
}
