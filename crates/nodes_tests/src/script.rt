//! What a script prints on one of its contexts.
//!
//! The first letter of a formula's label says whose call it is, and the rest of it which call.
ghost use Rattle.std.specs.Prelude.{◌≡◌, IsTrue};
ghost use Rattle.me_terms.specs.Variables.{are_ground};
ghost use Rattle.me_terms.specs.declared.entry.Kind.TheVariants.{Universal};

use cnf_text::{push_number, push_signed};
use joint_unifiers::is_contradictory;
use me_terms::{
    Clause, Entry, Kind, Literal, Pattern, Problem, Reason, Signature, Trunk, View, canonical,
    is_ground,
};
use std::alloc::{AllocError, Global};

/// Why a script cannot go on.
#[derive(Drop)]
pub(crate) struct Stuck(pub(crate) &'static str);

impl From<AllocError> for Stuck {
    fn from(_: AllocError) -> Self {
        Stuck("memory")
    }
}

/// Makes the calls of this letter, and tells what they print.
pub(crate) fn run<T: Trunk>(
    alloc: Global,
    script: &Problem,
    letter: u8,
    branch: &mut T,
) -> Result<Vec<u8>, Stuck> {
    let mut out = Vec::new(alloc);
    for clause in script.clauses.as_slice() {
        step(alloc, &script.signature, clause, letter, branch, &mut out)?;
    }
    Ok(out)
}

/// Makes the call if it is one of this letter.
pub(crate) fn step<T: Trunk>(
    alloc: Global,
    signature: &Signature,
    clause: &Clause,
    letter: u8,
    branch: &mut T,
    out: &mut Vec<u8>,
) -> Result<(), Stuck> {
    match clause.label.text.as_slice() {
        [whose, _, name @ ..] if *whose == letter => {
            call(alloc, signature, name, clause, branch, out)
        }
        _ => Ok(()),
    }
}

/// Makes one call, and prints what it answers.
fn call<T: Trunk>(
    alloc: Global,
    signature: &Signature,
    name: &[u8],
    clause: &Clause,
    branch: &mut T,
    out: &mut Vec<u8>,
) -> Result<(), Stuck> {
    match (name, clause.literals.as_slice()) {
        (b"universal", [literal]) => put(alloc, branch, literal, Kind::Universal),
        (b"parametric", [literal]) => put(alloc, branch, literal, Kind::Parametric),
        (b"pop", _) => say(out, if branch.shrink() { b"yes" } else { b"no" }),
        (b"show", _) => show(branch, signature, out),
        _ => Err(Stuck("no such call")),
    }
}

/// The kind of an entry that a literal asks for: one without variables is Universal.
fn kind_for(literal: &Literal, kind: Kind) -> Kind
    ensures { IsTrue (are_ground literal.now.atom.args) → result ≡ Universal }
{
    if is_ground(literal) {
        Kind::Universal
    } else {
        kind
    }
}

/// Puts the literal at the end, unless it contradicts the context.
fn put<T: Trunk>(
    alloc: Global,
    branch: &mut T,
    literal: &Literal,
    kind: Kind,
) -> Result<(), Stuck> {
    let literal = canonical(alloc, literal)?;
    let kind = kind_for(&literal, kind);
    if branch.len() >= 1_000 {
        return Err(Stuck("too long for a script"));
    }
    if is_contradictory(alloc, branch, &literal, kind)? {
        return Err(Stuck("contradicts"));
    }
    let entry = Entry {
        positive: literal.positive,
        atom: Pattern::Of(literal.atom),
        kind,
        reason: Reason::SplitLeft,
    };
    match branch.extend(entry) {
        Ok(()) => Ok(()),
        Err(_) => Err(Stuck("memory")),
    }
}

/// Prints a word.
fn say(out: &mut Vec<u8>, word: &[u8]) -> Result<(), Stuck> {
    out.extend_from_slice(word)?;
    out.extend_from_slice(b";")?;
    Ok(())
}

/// Prints the number of entries, and the visible ones after the pseudo-literal, each behind its position.
fn show<T: View>(branch: &T, signature: &Signature, out: &mut Vec<u8>) -> Result<(), Stuck> {
    push_number(out, u64::from(branch.len()))?;
    out.extend_from_slice(b":")?;
    for k in 1..branch.len() {
        if branch.visible(k) {
            push_entry(signature, k, branch.entry(k), out)?;
        }
    }
    say(out, b"")
}

fn push_entry(
    signature: &Signature,
    k: u32,
    entry: Option<&Entry>,
    out: &mut Vec<u8>,
) -> Result<(), Stuck> {
    let Some(entry) = entry else {
        return Err(Stuck("no entry"));
    };
    out.extend_from_slice(b" ")?;
    push_number(out, u64::from(k))?;
    out.extend_from_slice(b" ")?;
    if let Pattern::Of(atom) = &entry.atom {
        push_signed(out, signature, entry.positive, atom)?;
    }
    Ok(())
}
