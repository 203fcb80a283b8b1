//! Which entries of a context a new one hides.
//!
//! The line names the positions, in order, whose entries are visible and which the new entry covers: exactly
//! those that are hidden once it stands at the end. Each position is looked at once.
ghost use Rattle.std.specs.Prelude.{◌≡◌, ◌++◌, ◌↔◌, List, ℕ, IsTrue, OnOk, IfOk, length};
ghost use Rattle.darwin_steps.specs.HiddenText.{AreHiddenBelow, IsHiddenAt, IsHiddenText, IsNewlyCovered, hides_line, place_text};

use cnf_text::push_number;
use me_context::Context;
use me_terms::{Entry, View, covers};
use std::alloc::{AllocError, Global};

/// Whether the entry at position `k` is visible, and the new one covers it.
fn is_newly_covered(context: &Context, new: &Entry, k: u32) -> bool
    ensures { IsTrue result ↔ IsNewlyCovered context.now new.now k }
{
    match context.entry(k) {
        Some(entry) => context.visible(k) && covers(new, entry),
        None => false,
    }
}

/// Puts a blank and the name of position `k` at the end.
fn push_place(out: &mut Vec<u8>, k: u32) -> Result<(), AllocError>
    ensures { OnOk result (out.new.items ≡ out.old.items ++ place_text k) }
{
    out.extend_from_slice(b" e")?;
    push_number(out, u64::from(k))
}

/// Puts the name of position `k` at the end where the new entry covers what is visible there.
fn push_name(out: &mut Vec<u8>, context: &Context, new: &Entry, k: u32) -> Result<(), AllocError>
    ensures { OnOk result ((name : List ℕ) × IsHiddenAt context.now new.now k name × (out.new.items ≡ out.old.items ++ name)) }
{
    if is_newly_covered(context, new, k) {
        push_place(out, k)
    } else {
        Ok(())
    }
}

/// The names of all positions that the new entry hides.
fn names_of(alloc: Global, context: &Context, new: &Entry) -> Result<Vec<u8>, AllocError>
    ensures { IfOk result (λ names. AreHiddenBelow context.now new.now (length context.now) names.items) }
{
    let mut names = Vec::new(alloc);
    for k in 0..context.len() {
        push_name(&mut names, context, new, k)?;
    }
    Ok(names)
}

/// Puts the line of the names at the end, or nothing where there is none.
fn push_names(out: &mut Vec<u8>, names: &[u8]) -> Result<(), AllocError>
    ensures { OnOk result (out.new.items ≡ out.old.items ++ hides_line names.now) }
{
    if names.is_empty() {
        return Ok(());
    }
    out.extend_from_slice(b"hides")?;
    out.extend_from_slice(names)?;
    out.extend_from_slice(b"\n")
}

/// Puts a line at the end with the positions that the new entry hides, or nothing where it hides none.
pub(crate) fn push_hidden(
    alloc: Global,
    out: &mut Vec<u8>,
    context: &Context,
    new: &Entry,
) -> Result<(), AllocError>
    ensures { OnOk result ((text : List ℕ) × IsHiddenText context.now new.now text × (out.new.items ≡ out.old.items ++ text)) }
{
    let names = names_of(alloc, context, new)?;
    push_names(out, names.as_slice())
}
