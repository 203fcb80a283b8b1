//! Answers and atoms are read from their texts.
ghost use Rattle.std.specs.Prelude.{◌≡◌, ◌+◌, ◌-◌, ◌≤◌, ◌<◌, ◌^◌, ◌++◌, ℕ, List, [], ◌∷◌, codes, length, IfOk, IfErr, IfSome, IfNone};
ghost use Rattle.me_terms.specs.Values.{SignatureValue};
ghost use Rattle.szs_print.specs.AnswerText.{bound_text};
ghost use Rattle.szs_print.specs.StatusText.{reason_line};
ghost use Rattle.me_terms.specs.Terms.{AtomValue};
ghost use Rattle.me_terms.specs.declared.bounds.Bound.{Bound as BoundValue};
ghost use Rattle.me_terms.specs.declared.bounds.Start.{Start as StartValue};
ghost use Rattle.szs_print.specs.Printable.{IsName};
ghost use Rattle.szs_read.specs.Answers.{IsAnswer, IsErrorCause, IsAtomOf};
ghost use Rattle.szs_read.specs.ClaimText.{start_line};
ghost use Rattle.szs_read.specs.Longer.{IsLonger};
ghost use Rattle.szs_read.specs.Passes.{ArePassed, AreStuck, AreWhole, IsBody, IsSomeAnswer};
ghost use Rattle.szs_read.specs.Reads.{BeginsBody, BeginsAnswer};
ghost use Rattle.szs_read.specs.declared.error.AnswerError.TheVariants.{Line};

use crate::claim::{Claim, EntryLines, InstanceLines, MAX_OPEN};
use crate::entry::read_next_entry;
use crate::error::AnswerError;
use crate::instance::read_next_instance;
use crate::lines::Lines;
use crate::literal::literal_of;
use crate::named::is_named;
use crate::row::read_row;
use cnf_text::push_atom;
use me_terms::{Atom, Bound, Signature, Start};
use std::alloc::{AllocError, Global};
use tptp_tokens::Tokenizer;

/// The refutation whose lines come next.
fn read_refutation(
    alloc: Global,
    lines: &mut Lines<'_>,
    name: &[u8],
    signature: &mut Signature,
) -> Result<Option<Claim>, AllocError>
    requires room { length signature.old.functions + length signature.old.predicates + length lines.old.rest.now < 2 ^ 32 - 1 }
    requires lines { lines.old.passed + length lines.old.rest.now < 2 ^ 32 - 1 }
    requires name { IsName name.now }
    ensures body { IfOk result (λ read. IfSome read (BeginsBody signature.old signature.new (codes "Unsatisfiable") name.now lines.old.rest.now lines.new.rest.now)) }
    ensures whole { IfOk result (λ read. IfSome read (λ _. AreWhole (IsBody signature.old (codes "Unsatisfiable") name.now) lines.old lines.new)) }
    ensures stuck { IfOk result (λ read. IfNone read (AreStuck (IsBody signature.old (codes "Unsatisfiable") name.now) lines.old lines.new)) }
    ensures longer { IsLonger signature.old signature.new (length lines.old.rest.now) 0 }
    ensures fewer { lines.new.passed + length lines.new.rest.now ≤ lines.old.passed + length lines.old.rest.now }
{
    if !lines.pass_named(b"% SZS output start Refutation for ", name) {
        return Ok(None);
    }
    let mut list = InstanceLines::new(alloc);
    'lines: while let Some(line) = lines.first() {
        if is_named(line, b"% SZS output end Refutation for ", name) {
            lines.pass(line);
            return Ok(Some(Claim::Refuted { lines: list }));
        }
        if !read_next_instance(alloc, line, signature, &mut list)? {
            return Ok(None);
        }
        lines.pass(line);
    }
    Ok(None)
}

/// The default value that the next line tells.
fn read_start(lines: &mut Lines<'_>) -> Option<Start>
    requires room { lines.old.passed + length lines.old.rest.now < 2 ^ 32 }
    ensures parts { IfSome result (λ start. lines.old.rest.now ≡ start_line start ++ lines.new.rest.now) }
    ensures passed { IfSome result (λ start. ArePassed lines.old lines.new (start_line start ∷ [])) }
    ensures none { IfNone result ((start : StartValue) (rest : List ℕ) → lines.old.rest.now ≡ start_line start ++ rest → ⊥) }
    ensures unchanged { IfNone result (lines.new ≡ lines.old) }
    ensures shorter { length lines.new.rest.now ≤ length lines.old.rest.now }
    ensures fewer { lines.new.passed + length lines.new.rest.now ≤ lines.old.passed + length lines.old.rest.now }
{
    let line = lines.first()?;
    let start = if line == b"% default false\n".as_slice() {
        Start::Negative
    } else if line == b"% default true\n".as_slice() {
        Start::Positive
    } else {
        return None;
    };
    lines.pass(line);
    Some(start)
}

/// The model whose lines come next.
fn read_model(
    alloc: Global,
    lines: &mut Lines<'_>,
    name: &[u8],
    signature: &mut Signature,
) -> Result<Option<Claim>, AllocError>
    requires room { length signature.old.functions + length signature.old.predicates + length lines.old.rest.now < 2 ^ 32 - 1 }
    requires lines { lines.old.passed + length lines.old.rest.now < 2 ^ 32 - 1 }
    requires name { IsName name.now }
    ensures body { IfOk result (λ read. IfSome read (BeginsBody signature.old signature.new (codes "Satisfiable") name.now lines.old.rest.now lines.new.rest.now)) }
    ensures whole { IfOk result (λ read. IfSome read (λ _. AreWhole (IsBody signature.old (codes "Satisfiable") name.now) lines.old lines.new)) }
    ensures stuck { IfOk result (λ read. IfNone read (AreStuck (IsBody signature.old (codes "Satisfiable") name.now) lines.old lines.new)) }
    ensures longer { IsLonger signature.old signature.new (length lines.old.rest.now) 0 }
    ensures fewer { lines.new.passed + length lines.new.rest.now ≤ lines.old.passed + length lines.old.rest.now }
{
    if !lines.pass_named(b"% SZS output start Model for ", name) {
        return Ok(None);
    }
    let Some(start) = read_start(lines) else {
        return Ok(None);
    };
    let mut list = EntryLines::new(alloc);
    let mut last = 0;
    'lines: while let Some(line) = lines.first() {
        if is_named(line, b"% SZS output end Model for ", name) {
            lines.pass(line);
            return Ok(Some(Claim::Model { start, lines: list }));
        }
        let Some(at) = read_next_entry(alloc, line, last, signature, &mut list)? else {
            return Ok(None);
        };
        last = at;
        lines.pass(line);
    }
    Ok(None)
}

/// The bound that the line names as the reason for giving up.
fn bound_of(line: &[u8]) -> Option<Bound>
    ensures some { IfSome result (λ bound. line.now ≡ reason_line (bound_text bound)) }
    ensures none { IfNone result ((bound : BoundValue) → line.now ≡ reason_line (bound_text bound) → ⊥) }
{
    if line == b"% reason depth\n".as_slice() {
        Some(Bound::Depth)
    } else if line == b"% reason weight\n".as_slice() {
        Some(Bound::Weight)
    } else if line == b"% reason literals\n".as_slice() {
        Some(Bound::Literals)
    } else if line == b"% reason list\n".as_slice() {
        Some(Bound::List)
    } else {
        None
    }
}

/// The bound that the next line names.
fn read_bound(lines: &mut Lines<'_>) -> Option<Claim>
    requires room { lines.old.passed + length lines.old.rest.now < 2 ^ 32 }
    ensures shorter { length lines.new.rest.now ≤ length lines.old.rest.now }
    ensures body { IfSome result (λ claim. (signature : SignatureValue) (name : List ℕ) → BeginsBody signature signature (codes "GaveUp") name lines.old.rest.now lines.new.rest.now claim) }
    ensures whole { IfSome result (λ _. (signature : SignatureValue) (name : List ℕ) → AreWhole (IsBody signature (codes "GaveUp") name) lines.old lines.new) }
    ensures stuck { IfNone result ((signature : SignatureValue) (name : List ℕ) → AreStuck (IsBody signature (codes "GaveUp") name) lines.old lines.new) }
    ensures fewer { lines.new.passed + length lines.new.rest.now ≤ lines.old.passed + length lines.old.rest.now }
{
    let line = lines.first()?;
    let bound = bound_of(line)?;
    lines.pass(line);
    Some(Claim::Open { bound })
}

/// The claim of the answer whose lines come next.
fn read_claim(
    alloc: Global,
    lines: &mut Lines<'_>,
    signature: &mut Signature,
) -> Result<Option<Claim>, AllocError>
    requires room { length signature.old.functions + length signature.old.predicates + length lines.old.rest.now < 2 ^ 32 - 1 }
    requires lines { lines.old.passed + length lines.old.rest.now < 2 ^ 32 - 1 }
    ensures answer { IfOk result (λ read. IfSome read (BeginsAnswer signature.old signature.new lines.old.rest.now lines.new.rest.now)) }
    ensures whole { IfOk result (λ read. IfSome read (λ _. AreWhole (IsSomeAnswer signature.old) lines.old lines.new)) }
    ensures stuck { IfOk result (λ read. IfNone read (AreStuck (IsSomeAnswer signature.old) lines.old lines.new)) }
    ensures longer { IsLonger signature.old signature.new (length lines.old.rest.now) 0 }
    ensures fewer { lines.new.passed + length lines.new.rest.now ≤ lines.old.passed + length lines.old.rest.now }
{
    if let Some(name) = lines.take_named(b"% SZS status Unsatisfiable for ") {
        let read = read_refutation(alloc, lines, name, signature)?;
        return Ok(read);
    }
    if let Some(name) = lines.take_named(b"% SZS status Satisfiable for ") {
        let read = read_model(alloc, lines, name, signature)?;
        return Ok(read);
    }
    if let Some(_name) = lines.take_named(b"% SZS status GaveUp for ") {
        let read = read_bound(lines);
        return Ok(read);
    }
    Ok(None)
}

/// No answer goes on with the next line.
fn refusal(lines: &Lines<'_>) -> AnswerError
    requires { lines.now.passed < 2 ^ 32 - 1 }
    ensures { result ≡ Line (lines.now.passed + 1) }
{
    AnswerError::Line {
        line: lines.passed() + 1,
    }
}

/// What the answer claims whose text these bytes are, under whatever name. Symbols that the signature has
/// not yet are added in the order in which they occur first, also where the bytes are refused.
pub fn read_answer(
    alloc: Global,
    bytes: &[u8],
    signature: &mut Signature,
) -> Result<Claim, AnswerError>
    requires { length signature.old.functions + length signature.old.predicates + length bytes.now < 2 ^ 32 - 1 }
    ensures answer { IfOk result (IsAnswer signature.old bytes.now signature.new) }
    ensures cause { IfErr result (IsErrorCause signature.old bytes.now) }
    ensures longer { IsLonger signature.old signature.new (length bytes.now) 0 }
{
    let mut lines = Lines::new(bytes);
    match read_claim(alloc, &mut lines, signature)? {
        Some(claim) => {
            if lines.is_at_end() {
                Ok(claim)
            } else {
                Err(refusal(&lines))
            }
        }
        None => Err(refusal(&lines)),
    }
}

/// The atom whose text these bytes are, if they are that of one. Symbols that the signature has not yet are
/// added in the order in which they occur first, also where the bytes are refused.
pub fn read_atom(
    alloc: Global,
    bytes: &[u8],
    signature: &mut Signature,
) -> Result<Option<Atom>, AllocError>
    requires { length signature.old.functions + length signature.old.predicates + length bytes.now < 2 ^ 32 - 1 }
    ensures atom { IfOk result (λ atom. IfSome atom (IsAtomOf signature.old bytes.now signature.new)) }
    ensures none { IfOk result (λ atom. IfNone atom ((new : SignatureValue) (a : AtomValue) → IsAtomOf signature.old bytes.now new a → ⊥)) }
    ensures longer { IsLonger signature.old signature.new (length bytes.now) 0 }
{
    let mut tokens = Tokenizer::new(bytes);
    let (row, _) = read_row(alloc, &mut tokens)?;
    let Some(literal) = literal_of(alloc, signature, &row, MAX_OPEN)? else {
        return Ok(None);
    };
    let mut text = Vec::new(alloc);
    push_atom(&mut text, signature, &literal.atom)?;
    if text.as_slice() == bytes {
        Ok(Some(literal.atom))
    } else {
        Ok(None)
    }
}
