//! The symbols of a file, found by their tokens.
//!
//! A signature finds a symbol by its text, which is copied for it. So the number of a symbol is also kept by
//! the bytes of its token, and a name that was met before is found there without memory.
ghost use Rattle.std.specs.Prelude.{◌≡◌, ◌-◌, ◌<◌, ◌^◌, [], List, length, OnErr, OnOk, IfOk, IfSome};
ghost use Rattle.me_terms.specs.Signatures.{with_symbol, number_of};
ghost use Rattle.me_terms.specs.Values.{SymbolValue};
ghost use Rattle.tptp_cnf.specs.Rows.{symbol_as};
ghost use Rattle.tptp_cnf.specs.Views.{item_value};
ghost use Rattle.tptp_cnf.specs.Lookup.{AreMet, IsNumberOf, IsNameNoted};

use crate::item::Item;
use crate::numbers::symbol;
use indexmap::IndexMap;
use me_terms::Signature;
use std::alloc::{AllocError, Global};
use std::hash::{Hash, Hasher};
use std::marker::Model;
use tptp_tokens::TokenKind;

/// The bytes of a token. They are hashed in one piece.
#[derive(Clone, Copy, Debug)]
pub(crate) struct Name<'a> {
    pub(crate) bytes: &'a [u8],
}

impl PartialEq for Name<'_> {
    ghost use Rattle.std.specs.Str.{bytes_eq};
    ghost use Rattle.std.specs.Cmp.{on_per, partial_equiv_from_equiv};
    ghost use Rattle.std.specs.Cmp.Lexicographic.{nat_list_eq_equiv};

    ghost eq = { λ a b. bytes_eq a.bytes.now b.bytes.now };

    ghost laws = { on_per (λ a. a.bytes.now) (partial_equiv_from_equiv nat_list_eq_equiv) };

    fn eq(&self, other: &Self) -> bool {
        self.bytes == other.bytes
    }
}

impl Eq for Name<'_> {
    ghost use Rattle.std.specs.Cmp.{on_equiv};
    ghost use Rattle.std.specs.Cmp.Lexicographic.{nat_list_eq_equiv};

    ghost laws = { on_equiv (λ a. a.bytes.now) nat_list_eq_equiv };
}

impl Hash for Name<'_> {
    ghost use Rattle.std.specs.Prelude.{[], ◌∷◌};
    ghost use Rattle.std.proofs.Common.{ap};
    ghost use Rattle.std.specs.Cmp.Lexicographic.{bytes_decides};

    ghost hash_input = { λ a. a.bytes.now ∷ [] };

    ghost respects_eq = { λ a b h. ap (λ bytes. bytes ∷ []) ((bytes_decides a.bytes.now b.bytes.now).0 h) };

    fn hash<H: Hasher>(&self, state: &mut H) {
        state.write(self.bytes);
    }
}

/// The bytes of the name's token.
fn name_of<'a>(item: &Item<'a>) -> Name<'a>
    ensures { result.bytes.now ≡ item.now.name.text.now }
{
    Name {
        bytes: item.name.text,
    }
}

/// The symbol that a text was last met as: the kind of its token, its number of arguments, and its number.
#[derive(Clone, Copy, Debug)]
pub(crate) struct Met {
    pub(crate) kind: TokenKind,
    pub(crate) arity: u32,
    pub(crate) number: u32,
}

/// The functions and the predicates so far. A contract sees them as a signature.
#[derive(Drop)]
pub(crate) struct Symbols<'a> {
    signature: Signature,
    functions: IndexMap<Name<'a>, Met>,
    predicates: IndexMap<Name<'a>, Met>,
}

impl<'a> Model for Symbols<'a> {
    ghost use Rattle.me_terms.specs.Values.{SignatureValue};

    ghost Value = { SignatureValue };

    ghost view = { λ s. s.signature };

    ghost use Rattle.tptp_cnf.specs.Lookup.{AreMet};

    ghost invariant = { λ s. AreMet s.signature.functions s.functions.entries × AreMet s.signature.predicates s.predicates.entries };
}

/// The number of the name, if its text was last met as its symbol.
fn found(met: &IndexMap<Name<'_>, Met>, item: &Item<'_>) -> Option<u32>
    ensures { IfSome result (λ n. (symbols : List SymbolValue) → AreMet symbols met.now.entries → IsNumberOf symbols (symbol_as (item_value item.now)) n) }
{
    match met.get(&name_of(item)) {
        Some(last) if last.kind == item.name.kind && last.arity == item.arity => Some(last.number),
        _ => None,
    }
}

/// Notes the number of the name. Nothing changes where memory is out.
fn note<'a>(
    met: &mut IndexMap<Name<'a>, Met>,
    item: &Item<'a>,
    number: u32,
) -> Result<(), AllocError>
    ensures ok { OnOk result (IsNameNoted item.now number met.old.entries met.new.entries) }
    ensures err { OnErr result (met.new.entries ≡ met.old.entries) }
{
    let last = Met {
        kind: item.name.kind,
        arity: item.arity,
        number,
    };
    match met.insert(name_of(item), last) {
        Ok(_) => Ok(()),
        Err(_) => Err(AllocError),
    }
}

impl<'a> Symbols<'a> {
    /// No symbols.
    pub(crate) fn new(alloc: Global) -> Self
        ensures { result ≡ record { functions = []; predicates = [] } }
    {
        Symbols {
            signature: Signature::new(alloc),
            functions: IndexMap::new(alloc),
            predicates: IndexMap::new(alloc),
        }
    }

    /// The symbols as a signature.
    pub(crate) fn into_signature(self) -> Signature
        ensures { result ≡ self.entry }
    {
        self.signature
    }

    /// The number of the function of this name, which is added where it is new.
    pub(crate) fn function(&mut self, alloc: Global, item: &Item<'a>) -> Result<u32, AllocError>
        requires { length self.old.functions < 2 ^ 32 - 1 }
        ensures number { IfOk result (λ n. n ≡ number_of (symbol_as (item_value item.now)) self.new.functions) }
        ensures added { OnOk result (self.new ≡ record self.old { functions = with_symbol self.old.functions (symbol_as (item_value item.now)) }) }
    {
        if let Some(number) = found(&self.functions, item) {
            return Ok(number);
        }
        let number = self.signature.add_fun(symbol(alloc, item)?)?;
        note(&mut self.functions, item, number)?;
        Ok(number)
    }

    /// The number of the predicate of this name, which is added where it is new.
    pub(crate) fn predicate(&mut self, alloc: Global, item: &Item<'a>) -> Result<u32, AllocError>
        requires { length self.old.predicates < 2 ^ 32 - 1 }
        ensures number { IfOk result (λ n. n ≡ number_of (symbol_as (item_value item.now)) self.new.predicates) }
        ensures added { OnOk result (self.new ≡ record self.old { predicates = with_symbol self.old.predicates (symbol_as (item_value item.now)) }) }
    {
        if let Some(number) = found(&self.predicates, item) {
            return Ok(number);
        }
        let number = self.signature.add_pred(symbol(alloc, item)?)?;
        note(&mut self.predicates, item, number)?;
        Ok(number)
    }
}
