//! How a branch grows, goes back to the last left branch, and turns to the right there.
ghost use Rattle.std.specs.Prelude.{◌≡◌, ◌<◌, ◌≤◌, ◌∷◌, [], ◌++◌, true, false, ◌↔◌, length, take, IsTrue, OnOk, OnErr, IfOk};
ghost use Rattle.me_terms.specs.Validity.{IsLawful};
ghost use Rattle.me_terms.specs.Values.{EntryValue, SplitLeft};
ghost use Rattle.me_terms.specs.Context.{Context, IsLiteralEntry, add};
ghost use Rattle.me_terms.specs.Contradictory.{Contradicts};
ghost use Rattle.me_terms.specs.Grown.{IsGrown, split_entry};
ghost use Rattle.me_terms.specs.declared.bounds.TheConstants.{MAX_ENTRIES};
ghost use Rattle.branch_walk.specs.Turning.{EndsLeft, IsAllBack, IsBackAtLeft, beside};

use me_terms::{Again, Bounds, Entry, Kind, Literal, Pattern, Problem, Reason, Trunk, View};
use std::alloc::{AllocError, Global};

/// The search of a problem within bounds, which takes its memory from `alloc`.
#[derive(Clone, Copy)]
pub struct Search<'a> {
    pub alloc: Global,
    pub problem: &'a Problem,
    pub bounds: &'a Bounds,
}

/// Puts an entry at the end of the branch, or leaves the branch as it is where memory is out.
pub(crate) fn extend<T: Trunk>(branch: &mut T, entry: Entry) -> Result<(), AllocError>
    requires literal { IsLiteralEntry entry }
    requires apart { ¬ Contradicts (T.context branch.old) entry.positive entry.kind entry.atom }
    requires room { length (T.context branch.old) < MAX_ENTRIES }
    ensures ok { OnOk result (T.context branch.new ≡ add (T.context branch.old) entry) }
    ensures err { OnErr result (T.context branch.new ≡ T.context branch.old) }
{
    match branch.extend(entry) {
        Ok(()) => Ok(()),
        Err(_refused) => Err(AllocError),
    }
}

/// Puts an entry at the end of the branch.
pub fn grow<T: Trunk>(branch: &mut T, entry: Entry) -> Result<(), AllocError>
    requires literal { IsLiteralEntry entry }
    requires apart { ¬ Contradicts (T.context branch.old) entry.positive entry.kind entry.atom }
    requires room { length (T.context branch.old) < MAX_ENTRIES }
    ensures { OnOk result (T.context branch.new ≡ add (T.context branch.old) entry) }
{
    extend(branch, entry)
}

/// The entry of the left branch of a Split.
pub fn left_entry(literal: Literal, kind: Kind) -> Entry
    ensures { result ≡ split_entry literal kind SplitLeft }
{
    Entry {
        positive: literal.positive,
        atom: Pattern::Of(literal.atom),
        kind,
        reason: Reason::SplitLeft,
    }
}

/// Whether the last entry begins a left branch.
fn ends_left<V: View>(branch: &V) -> bool
    ensures { (before : Context) (last : EntryValue) → V.context branch.now ≡ add before last → (IsTrue result ↔ (last.reason ≡ SplitLeft)) }
{
    let count = branch.len();
    if count == 0 {
        return false;
    }
    let Some(last) = branch.entry(count - 1) else {
        unreachable!()
    };
    matches!(&last.reason, Reason::SplitLeft)
}

/// The entry of the right branch beside the last entry, which begins a left branch.
pub(crate) fn beside_last<V: View>(alloc: Global, branch: &V) -> Result<Entry, AllocError>
    requires { EndsLeft (V.context branch.now) }
    ensures { IfOk result (λ entry. (before : Context) (last : EntryValue) → V.context branch.now ≡ add before last → entry ≡ beside last) }
{
    let Some(last) = branch.entry(branch.len() - 1) else {
        unreachable!()
    };
    Ok(Entry {
        positive: !last.positive,
        atom: last.atom.again(alloc)?,
        kind: last.kind,
        reason: Reason::SplitRight,
    })
}

/// Goes back to the last left branch that begins at or behind position `base`, or tells that there is none
/// and goes back to the base.
pub fn back<T: Trunk>(branch: &mut T, base: u32) -> bool
    requires base { (1 ≤ base) × (base ≤ length (T.context branch.old)) }
    ensures left { result ≡ true → IsBackAtLeft base (T.context branch.old) (T.context branch.new) }
    ensures none { result ≡ false → IsAllBack base (T.context branch.old) (T.context branch.new) }
{
    'back: while branch.len() > base {
        if ends_left(branch) {
            return true;
        }
        branch.shrink();
    }
    false
}

/// Takes off the entries from position `base` on.
pub(crate) fn shrink_to<T: Trunk>(branch: &mut T, base: u32)
    requires base { 1 ≤ base }
    ensures { (before later : Context) → T.context branch.old ≡ before ++ later → length before ≡ base → T.context branch.new ≡ before }
{
    'back: while branch.len() > base {
        branch.shrink();
    }
}

impl<'a> Search<'a> {
    /// Turns from the left branch that the last entry begins to the right one beside it.
    pub fn turn_right<T: Trunk>(&self, branch: &mut T) -> Result<(), AllocError>
        requires bounds { IsLawful self.now.bounds.now }
        requires grown { IsGrown self.now.problem.now self.now.bounds.now (T.context branch.old) }
        requires left { EndsLeft (T.context branch.old) }
        ensures { OnOk result ((before : Context) (left : EntryValue) → T.context branch.old ≡ add before left → T.context branch.new ≡ add before (beside left)) }
    {
        let entry = beside_last(self.alloc, branch)?;
        branch.shrink();
        grow(branch, entry)
    }
}
