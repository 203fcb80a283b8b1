//! The marks that say by which later entry an entry is hidden first.
//!
//! Which entries a new one is the first to hide is found by one look at each that is not hidden yet; their
//! marks are set when it comes and cleared when it goes, and no others are touched.
ghost use Rattle.std.specs.Prelude.{◌≡◌, ◌<◌, ◌≤◌, ℕ, length, slice_get, ◌↔◌, IsTrue, IfOk};
ghost use Rattle.me_terms.specs.declared.bounds.TheConstants.{MAX_ENTRIES};
ghost use Rattle.entry_hiding.specs.Hiding.{IsMember, AreBelow, IsNewlyHidden, with_marks};

use crate::entry_list::EntryList;
use me_terms::{Entry, Kind, Places, covers};
use std::alloc::{AllocError, Global};

/// Whether nothing hides the entry at position `k` yet and `later` does.
fn is_newly_hidden<L: EntryList>(
    entries: &L,
    hidden_by: &[Option<u32>],
    later: &Entry,
    k: usize,
) -> bool
    requires each { length hidden_by.now ≡ length (L.entries entries.now) }
    requires within { k < length hidden_by.now }
    ensures { IsTrue result ↔ IsNewlyHidden (L.entries entries.now) hidden_by.now later.now k }
{
    match entries.entry_at(k) {
        Some(earlier) => hidden_by[k].is_none() && covers(later, earlier),
        None => false,
    }
}

/// The positions of the entries that nothing hides yet and that `later` hides.
pub(crate) fn newly_hidden<L: EntryList>(
    alloc: Global,
    entries: &L,
    hidden_by: &[Option<u32>],
    later: &Entry,
) -> Result<Places, AllocError>
    requires each { length hidden_by.now ≡ length (L.entries entries.now) }
    requires few { length hidden_by.now ≤ MAX_ENTRIES }
    ensures only { IfOk result (λ places. (k : ℕ) → IsMember k places.items → IsNewlyHidden (L.entries entries.now) hidden_by.now later.now k) }
    ensures all { IfOk result (λ places. (k : ℕ) → IsNewlyHidden (L.entries entries.now) hidden_by.now later.now k → IsMember k places.items) }
{
    let mut places = Places::new(alloc);
    if later.kind == Kind::Parametric {
        return Ok(places);
    }
    for k in 0..hidden_by.len() {
        if is_newly_hidden(entries, hidden_by, later, k) {
            let Ok(()) = places.push(k as u32) else {
                return Err(AllocError);
            };
        }
    }
    Ok(places)
}

/// Whether an entry stands at position `k` and nothing hides it.
pub(crate) fn is_shown(hidden_by: &[Option<u32>], k: u32) -> bool
    ensures { IsTrue result ↔ (slice_get hidden_by.now k ≡ Some None) }
{
    matches!(hidden_by.get(k as usize), Some(None))
}

/// Writes at these places by which entry theirs is hidden, if by any.
pub(crate) fn mark(hidden_by: &mut [Option<u32>], places: &[u32], by: Option<u32>)
    requires { AreBelow (length hidden_by.old) places.now }
    ensures { hidden_by.new ≡ with_marks hidden_by.old places.now by }
{
    for place in places {
        hidden_by[*place as usize] = by;
    }
}
