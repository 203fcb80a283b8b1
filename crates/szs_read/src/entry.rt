//! The lines of a model.
ghost use Rattle.std.specs.Prelude.{◌≡◌, ◌+◌, ◌-◌, ◌≤◌, ◌<◌, ◌^◌, ◌++◌, [], ◌∷◌, ℕ, List, length, Some, IfOk, IfSome, OnOk};
ghost use Rattle.me_terms.specs.declared.bounds.TheConstants.{MAX_ENTRIES as MOST_ENTRIES};
ghost use Rattle.szs_read.specs.Claims.{IsEntryLine, IsGrownBy};
ghost use Rattle.szs_read.specs.ClaimText.{entry_line};
ghost use Rattle.me_terms.specs.Values.{SignatureValue};
ghost use Rattle.me_terms.specs.declared.entry.Kind.{Kind as KindValue};
ghost use Rattle.tptp_tokens.specs.Tokens.{TokenValue};
ghost use Rattle.szs_read.specs.Finds.{FindsEntryText, FindsEntryAs, FindsEntry, kind_token, position_token};
ghost use Rattle.szs_read.specs.LineTokens.{AreLeft};
ghost use Rattle.szs_read.specs.Longer.{IsLonger};
ghost use Rattle.szs_read.specs.Reads.{IsReadEntry, AreEntries};

use crate::claim::{EntryLine, EntryLines, MAX_OPEN};
use crate::list::push;
use crate::literal::literal_of;
use crate::row::read_row;
use crate::token::{next_token, number_of, skip};
use cnf_text::{push_number, push_signed};
use me_terms::{Kind, MAX_ENTRIES, Signature};
use std::alloc::{AllocError, Global};
use tptp_tokens::Tokenizer;

/// Puts the line at the end.
fn push_entry(out: &mut Vec<u8>, signature: &Signature, line: &EntryLine) -> Result<(), AllocError>
    ensures { OnOk result (out.new.items ≡ out.old.items ++ entry_line signature.now line.now) }
{
    out.extend_from_slice(b"cnf(e")?;
    push_number(out, u64::from(line.at))?;
    out.extend_from_slice(b",plain,")?;
    push_signed(out, signature, line.literal.positive, &line.literal.atom)?;
    let kind: &[u8] = match line.kind {
        Kind::Universal => b",universal).\n",
        Kind::Parametric => b",parametric).\n",
    };
    out.extend_from_slice(kind)
}

/// The position that comes next, behind its letter, if it is greater than the last one.
fn read_position(tokens: &mut Tokenizer<'_>, last: u32) -> Option<u32>
    ensures at { IfSome result (λ at. (last < at) × (at < MOST_ENTRIES)) }
    ensures shorter { length tokens.new.bytes ≤ length tokens.old.bytes }
    ensures same { (at : ℕ) (ts : List TokenValue) → last < at → at < MOST_ENTRIES → AreLeft tokens.old.bytes (position_token at ∷ ts) → (result ≡ Some at) × AreLeft tokens.new.bytes ts }
{
    let token = next_token(tokens)?;
    let (_, digits) = token.text.split_first()?;
    match number_of(digits) {
        Some(at) if last < at && at < MAX_ENTRIES => Some(at),
        _ => None,
    }
}

/// The kind that comes next.
fn read_kind(tokens: &mut Tokenizer<'_>) -> Option<Kind>
    ensures { (kind : KindValue) (ts : List TokenValue) → AreLeft tokens.old.bytes (kind_token kind ∷ ts) → result ≡ Some kind }
{
    let token = next_token(tokens)?;
    if token.text == b"universal".as_slice() {
        Some(Kind::Universal)
    } else {
        Some(Kind::Parametric)
    }
}

/// What the line says, if it is one of a model behind the last one, whatever stands between its words.
fn read_loosely(
    alloc: Global,
    line: &[u8],
    last: u32,
    signature: &mut Signature,
) -> Result<Option<EntryLine>, AllocError>
    requires room { length signature.old.functions + length signature.old.predicates + length line.now < 2 ^ 32 - 1 }
    ensures lawful { IfOk result (λ read. IfSome read (IsEntryLine signature.new)) }
    ensures rises { IfOk result (λ read. IfSome read (λ entry. last < entry.at)) }
    ensures grown { IfOk result (λ read. IfSome read (λ entry. IsGrownBy signature.old (entry.literal ∷ []) signature.new)) }
    ensures longer { IsLonger signature.old signature.new (length line.now) 0 }
    ensures same { IfOk result (FindsEntryText signature.old signature.new last line.now) }
{
    let mut tokens = Tokenizer::new(line);
    skip(&mut tokens, 2);
    let Some(at) = read_position(&mut tokens, last) else {
        return Ok(None);
    };
    skip(&mut tokens, 3);
    let (row, _) = read_row(alloc, &mut tokens)?;
    let Some(literal) = literal_of(alloc, signature, &row, MAX_OPEN - 1)? else {
        return Ok(None);
    };
    let Some(kind) = read_kind(&mut tokens) else {
        return Ok(None);
    };
    Ok(Some(EntryLine { at, literal, kind }))
}

/// What the line says, if it is one of a model that may stand behind the position. New symbols are added.
fn read_entry(
    alloc: Global,
    line: &[u8],
    last: u32,
    signature: &mut Signature,
) -> Result<Option<EntryLine>, AllocError>
    requires room { length signature.old.functions + length signature.old.predicates + length line.now < 2 ^ 32 - 1 }
    ensures read { IfOk result (λ read. IfSome read (IsReadEntry signature.old signature.new last line.now)) }
    ensures longer { IsLonger signature.old signature.new (length line.now) 0 }
    ensures same { IfOk result (FindsEntryAs signature.old signature.new last line.now) }
{
    let Some(entry) = read_loosely(alloc, line, last, signature)? else {
        return Ok(None);
    };
    let mut text = Vec::new(alloc);
    push_entry(&mut text, signature, &entry)?;
    if text.as_slice() == line {
        Ok(Some(entry))
    } else {
        Ok(None)
    }
}

/// Puts what the line says at the end of the list, if it is a line of a model that may stand behind the
/// position, and gives its own. New symbols are added.
pub(crate) fn read_next_entry(
    alloc: Global,
    line: &[u8],
    last: u32,
    signature: &mut Signature,
    list: &mut EntryLines,
) -> Result<Option<u32>, AllocError>
    requires { length signature.old.functions + length signature.old.predicates + length line.now < 2 ^ 32 - 1 }
    ensures read { IfOk result (λ read. IfSome read (λ at. (old : SignatureValue) (bytes : List ℕ) → AreEntries old signature.old last bytes list.old.items → AreEntries old signature.new at (bytes ++ line.now) list.new.items)) }
    ensures longer { IsLonger signature.old signature.new (length line.now) 0 }
    ensures same { IfOk result (FindsEntry signature.old signature.new last line.now) }
{
    match read_entry(alloc, line, last, signature)? {
        Some(entry) => {
            let at = entry.at;
            push(list, entry)?;
            Ok(Some(at))
        }
        None => Ok(None),
    }
}
