//! Clauses that are drawn.
//!
//! Three words in turn are a clause, and one word is a literal. A symbol is added where a literal has it
//! first.
ghost use Rattle.std.specs.Prelude.{◌≡◌, ◌≤◌, ◌<◌, ◌*◌, ◌-◌, ◌^◌, [], ◌∷◌, length, option_to_list, OnOk, IfOk};
ghost use Rattle.me_terms.specs.TermViews.{term_value};
ghost use Rattle.tptp_cnf.specs.Meaning.{with_symbols};
ghost use Rattle.make_problem.specs.Drawn.{with_words, HasRoom};
ghost use Rattle.make_problem.specs.Made as made;
ghost use Rattle.make_problem.specs.declared.limits.TheConstants.{MAX_MADE_CLAUSES, CLAUSE_LITERALS};

use crate::limits::{CLAUSE_LITERALS, MAX_MADE_CLAUSES};
use crate::word;
use me_terms::{Atom, Clause, Clauses, Literal, Literals, Signature, Term, Terms};
use std::alloc::{AllocError, Global};

/// The argument of the word.
fn argument(alloc: Global, signature: &mut Signature, word: u32) -> Result<Term, AllocError>
    requires { length signature.old.functions < 2 ^ 32 - 1 }
    ensures made { IfOk result (λ t. term_value t ≡ made.argument_as signature.new.functions (made.constant_of word)) }
    ensures added { OnOk result (signature.new ≡ record signature.old { functions = with_symbols signature.old.functions (option_to_list (made.constant_of word)) }) }
{
    match word::constant(alloc, word)? {
        Some(symbol) => {
            let f = signature.add_fun(symbol)?;
            Ok(Term::App {
                f,
                args: Terms::new(alloc),
            })
        }
        None => Ok(Term::Var(0)),
    }
}

/// The list of one argument.
fn only(alloc: Global, term: Term) -> Result<Terms, AllocError>
    ensures { IfOk result (λ args. args.items ≡ term_value term ∷ []) }
{
    let mut args = Terms::new(alloc);
    match args.push(term) {
        Ok(()) => Ok(args),
        Err(_) => Err(AllocError),
    }
}

/// The literal of the word. Its symbols are added where they are new.
fn literal(
    alloc: Global,
    preds: u32,
    signature: &mut Signature,
    word: u32,
) -> Result<Literal, AllocError>
    requires preds { 1 ≤ preds }
    requires room { HasRoom signature.old 1 }
    ensures made { IfOk result (λ l. l ≡ made.literal_of preds signature.new word) }
    ensures added { OnOk result (signature.new ≡ with_words preds signature.old (word ∷ [])) }
{
    let pred = signature.add_pred(word::predicate(alloc, preds, word)?)?;
    let args = only(alloc, argument(alloc, signature, word)?)?;
    Ok(Literal {
        positive: word::is_positive(word),
        atom: Atom { pred, args },
    })
}

/// The literals of the words.
fn literals(
    alloc: Global,
    preds: u32,
    signature: &mut Signature,
    words: &[u32],
) -> Result<Literals, AllocError>
    requires preds { 1 ≤ preds }
    requires room { HasRoom signature.old (length words.now) }
    ensures made { IfOk result (λ ls. ls.items ≡ made.made_literals preds signature.new words.now) }
    ensures added { OnOk result (signature.new ≡ with_words preds signature.old words.now) }
{
    let mut literals = Literals::new(alloc);
    'words: for word in words {
        let literal = literal(alloc, preds, signature, *word)?;
        if literals.push(literal).is_err() {
            return Err(AllocError);
        }
    }
    Ok(literals)
}

/// So many clauses, numbered from 1, each of three words.
pub(crate) fn drawn_clauses(
    alloc: Global,
    preds: u32,
    signature: &mut Signature,
    count: u32,
    words: &[u32],
) -> Result<Clauses, AllocError>
    requires preds { 1 ≤ preds }
    requires words { length words.now ≡ CLAUSE_LITERALS * count }
    requires count { count ≤ MAX_MADE_CLAUSES }
    requires room { HasRoom signature.old (length words.now) }
    ensures made { IfOk result (λ cs. cs.items ≡ made.made_clauses preds signature.new 1 count words.now) }
    ensures added { OnOk result (signature.new ≡ with_words preds signature.old words.now) }
{
    let mut clauses = Clauses::new(alloc);
    'clauses: for k in 0..count {
        let from = CLAUSE_LITERALS * k as usize;
        let clause = Clause {
            number: k + 1,
            label: word::numbered(alloc, b"g", k + 1)?,
            literals: literals(
                alloc,
                preds,
                signature,
                &words[from..from + CLAUSE_LITERALS],
            )?,
        };
        if clauses.push(clause).is_err() {
            return Err(AllocError);
        }
    }
    Ok(clauses)
}
