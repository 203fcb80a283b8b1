//! The lines of a refutation.
ghost use Rattle.std.specs.Prelude.{◌≡◌, ◌≢◌, ◌+◌, ◌-◌, ◌≤◌, ◌<◌, ◌^◌, ◌++◌, ◌∷◌, ℕ, List, decimal, length, Some, IsTrue, IsSome, IfOk, IfSome, OnOk};
ghost use Rattle.me_terms.specs.Labels.{IsClauseLabel};
ghost use Rattle.me_terms.specs.declared.symbol.Form.TheVariants.{Distinct};
ghost use Rattle.tptp_grammar.specs.declared.limits.TheConstants.{MAX_FORMULAS as MAX_NUMBER};
ghost use Rattle.szs_read.specs.Claims.{IsInstanceLine, IsGrownBy};
ghost use Rattle.szs_read.specs.ClaimText.{instance_line};
ghost use Rattle.me_terms.specs.Values.{SignatureValue};
ghost use Rattle.me_terms.specs.Values.{LabelValue};
ghost use Rattle.tptp_tokens.specs.Tokens.{TokenValue};
ghost use Rattle.tptp_tokens.specs.declared.token.TokenKind.TheVariants.{Digits};
ghost use Rattle.szs_read.specs.Finds.{FindsInstanceText, FindsInstance};
ghost use Rattle.szs_read.specs.LineTokens.{AreLeft, token, label_token};
ghost use Rattle.szs_read.specs.Longer.{IsLonger};
ghost use Rattle.szs_read.specs.Reads.{IsReadInstance, AreInstances};

use crate::claim::{InstanceLine, InstanceLines, MAX_OPEN};
use crate::list::push;
use crate::literal::read_literals;
use crate::token::{label_of, next_token, number_of, skip};
use cnf_text::{push_clause, push_label, push_number};
use me_terms::{Form, Label, Signature};
use std::alloc::{AllocError, Global};
use tptp_grammar::MAX_FORMULAS;
use tptp_tokens::Tokenizer;

/// The tokens of `cnf(iK,plain,`, and those of `instance(`.
const HEAD_TOKENS: usize = 6;

const SOURCE_TOKENS: usize = 2;

/// Puts the k-th line at the end.
fn push_instance(
    out: &mut Vec<u8>,
    signature: &Signature,
    k: u64,
    line: &InstanceLine,
) -> Result<(), AllocError>
    ensures { OnOk result (out.new.items ≡ out.old.items ++ instance_line signature.now k line.now) }
{
    out.extend_from_slice(b"cnf(i")?;
    push_number(out, k)?;
    out.extend_from_slice(b",plain,")?;
    push_clause(out, signature, line.literals.as_slice())?;
    out.extend_from_slice(b",instance(")?;
    push_number(out, u64::from(line.number))?;
    out.extend_from_slice(b",")?;
    push_label(out, &line.label)?;
    out.extend_from_slice(b")).\n")
}

/// The number of a formula that comes next.
fn read_number(tokens: &mut Tokenizer<'_>) -> Option<u32>
    ensures lawful { IfSome result (λ number. (1 ≤ number) × (number ≤ MAX_NUMBER)) }
    ensures same { (n : ℕ) (ts : List TokenValue) → 1 ≤ n → n ≤ MAX_NUMBER → AreLeft tokens.old.bytes (token Digits (decimal n) ∷ ts) → (result ≡ Some n) × AreLeft tokens.new.bytes ts }
{
    match next_token(tokens) {
        Some(token) => match number_of(token.text) {
            Some(number) if 1 <= number && number <= MAX_FORMULAS => Some(number),
            _ => None,
        },
        None => None,
    }
}

/// Whether a formula may have the label, which is one that can be read.
fn is_formula_label(label: &Label) -> bool
    ensures form { IsTrue result → label.now.form ≢ Distinct }
    ensures all { label.now.form ≢ Distinct → IsTrue result }
{
    match label.form {
        Form::Distinct => false,
        _ => true,
    }
}

/// The label of a formula that comes next.
fn read_label(alloc: Global, tokens: &mut Tokenizer<'_>) -> Result<Option<Label>, AllocError>
    ensures lawful { IfOk result (λ read. IfSome read IsClauseLabel) }
    ensures same { IfOk result (λ read. (label : LabelValue) (ts : List TokenValue) → IsClauseLabel label → AreLeft tokens.old.bytes (label_token label ∷ ts) → read ≡ Some label) }
{
    let Some(token) = next_token(tokens) else {
        return Ok(None);
    };
    match label_of(alloc, &token)? {
        Some(label) if is_formula_label(&label) => Ok(Some(label)),
        _ => Ok(None),
    }
}

/// What the line says, if it is one of a refutation, whatever stands between its words.
fn read_loosely(
    alloc: Global,
    line: &[u8],
    signature: &mut Signature,
) -> Result<Option<InstanceLine>, AllocError>
    requires room { length signature.old.functions + length signature.old.predicates + length line.now < 2 ^ 32 - 1 }
    ensures lawful { IfOk result (λ read. IfSome read (IsInstanceLine signature.new)) }
    ensures grown { IfOk result (λ read. IfSome read (λ instance. IsGrownBy signature.old instance.literals signature.new)) }
    ensures longer { IsLonger signature.old signature.new (length line.now) 0 }
    ensures same { IfOk result (FindsInstanceText signature.old signature.new line.now) }
{
    let mut tokens = Tokenizer::new(line);
    skip(&mut tokens, HEAD_TOKENS);
    let Some(literals) = read_literals(alloc, &mut tokens, signature, MAX_OPEN - 1)? else {
        return Ok(None);
    };
    skip(&mut tokens, SOURCE_TOKENS);
    let Some(number) = read_number(&mut tokens) else {
        return Ok(None);
    };
    skip(&mut tokens, 1);
    let Some(label) = read_label(alloc, &mut tokens)? else {
        return Ok(None);
    };
    Ok(Some(InstanceLine {
        number,
        label,
        literals,
    }))
}

/// What the line says, if it is the k-th line of a refutation. New symbols are added.
fn read_instance(
    alloc: Global,
    line: &[u8],
    k: u64,
    signature: &mut Signature,
) -> Result<Option<InstanceLine>, AllocError>
    requires room { length signature.old.functions + length signature.old.predicates + length line.now < 2 ^ 32 - 1 }
    ensures read { IfOk result (λ read. IfSome read (IsReadInstance signature.old signature.new k line.now)) }
    ensures longer { IsLonger signature.old signature.new (length line.now) 0 }
    ensures same { IfOk result (λ read. FindsInstance signature.old signature.new k line.now (IsSome read)) }
{
    let Some(instance) = read_loosely(alloc, line, signature)? else {
        return Ok(None);
    };
    let mut text = Vec::new(alloc);
    push_instance(&mut text, signature, k, &instance)?;
    if text.as_slice() == line {
        Ok(Some(instance))
    } else {
        Ok(None)
    }
}

/// Puts what the line says at the end of the list, if it is the next line of a refutation. New symbols are
/// added.
pub(crate) fn read_next_instance(
    alloc: Global,
    line: &[u8],
    signature: &mut Signature,
    list: &mut InstanceLines,
) -> Result<bool, AllocError>
    requires room { length signature.old.functions + length signature.old.predicates + length line.now < 2 ^ 32 - 1 }
    requires few { length list.old.items < 2 ^ 32 }
    ensures read { IfOk result (λ is. IsTrue is → (old : SignatureValue) (bytes : List ℕ) → AreInstances old signature.old bytes list.old.items → AreInstances old signature.new (bytes ++ line.now) list.new.items) }
    ensures count { IfOk result (λ is. IsTrue is → length list.new.items ≡ length list.old.items + 1) }
    ensures longer { IsLonger signature.old signature.new (length line.now) 0 }
    ensures same { IfOk result (λ is. FindsInstance signature.old signature.new (length list.old.items + 1) line.now (IsTrue is)) }
{
    match read_instance(alloc, line, list.len() + 1, signature)? {
        Some(instance) => {
            push(list, instance)?;
            Ok(true)
        }
        None => Ok(false),
    }
}
