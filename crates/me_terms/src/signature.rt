//! The symbols of a problem, numbered by first occurrence.
//!
//! Functions and predicates have numbers of their own, from 0. A number once given stays, and a symbol
//! that is added again keeps the number that it has.
ghost use Rattle.std.specs.Prelude.{◌≡◌, ◌↔◌, ◌<◌, ◌-◌, ◌^◌, [], length, slice_get, IfOk, IfSome, IsSome, OnOk, OnErr};
ghost use Rattle.std.specs.List.{IsDistinct};
ghost use Rattle.std.specs.Option.{option_copied};
ghost use Rattle.me_terms.specs.LabelEquality.{same_symbol};
ghost use Rattle.me_terms.specs.Signatures.{with_symbol, number_of};

use crate::symbol::Symbol;
use indexmap::IndexSet;
use std::alloc::{AllocError, Global};
use std::marker::Model;

/// The functions and the predicates of a problem. A constant is a function without arguments.
#[derive(Drop)]
pub struct Signature {
    functions: IndexSet<Symbol>,
    predicates: IndexSet<Symbol>,
}

impl Model for Signature {
    ghost use Rattle.std.specs.Prelude.{◌≤◌, ◌-◌, ◌^◌, length};
    ghost use Rattle.me_terms.specs.Values.{SignatureValue};

    ghost Value = { SignatureValue };

    ghost view = { λ s. record { functions = s.functions.keys; predicates = s.predicates.keys } };

    ghost use Rattle.std.specs.List.{IsDistinct};
    ghost use Rattle.me_terms.specs.LabelEquality.{same_symbol};

    ghost invariant = { λ s. (length s.functions.keys ≤ 2 ^ 32 - 1) × (length s.predicates.keys ≤ 2 ^ 32 - 1) × IsDistinct same_symbol s.functions.keys × IsDistinct same_symbol s.predicates.keys };
}

impl Signature {
    /// No symbols, and no memory taken. Later calls that need some take it from `alloc`.
    pub fn new(alloc: Global) -> Self
        ensures { result ≡ record { functions = []; predicates = [] } }
    {
        Signature {
            functions: IndexSet::new(alloc),
            predicates: IndexSet::new(alloc),
        }
    }

    /// The function of a number, which is its only one.
    pub fn fun(&self, f: u32) -> Option<&Symbol>
        ensures item { option_copied result ≡ slice_get self.now.functions f }
        ensures found { IsSome result ↔ (f < length self.now.functions) }
        ensures own { IfSome result (λ symbol. number_of symbol.now self.now.functions ≡ f) }
    {
        self.functions.get_index(f as usize)
    }

    /// The predicate of a number, which is its only one.
    pub fn pred(&self, p: u32) -> Option<&Symbol>
        ensures item { option_copied result ≡ slice_get self.now.predicates p }
        ensures found { IsSome result ↔ (p < length self.now.predicates) }
        ensures own { IfSome result (λ symbol. number_of symbol.now self.now.predicates ≡ p) }
    {
        self.predicates.get_index(p as usize)
    }

    /// The number of functions.
    pub fn fun_count(&self) -> u32
        ensures { result ≡ length self.now.functions }
    {
        self.functions.len() as u32
    }

    /// The number of predicates.
    pub fn pred_count(&self) -> u32
        ensures { result ≡ length self.now.predicates }
    {
        self.predicates.len() as u32
    }

    /// The number of a function, which is added where it is new. Nothing changes where memory is out.
    pub fn add_fun(&mut self, symbol: Symbol) -> Result<u32, AllocError>
        requires { length self.old.functions < 2 ^ 32 - 1 }
        ensures number { IfOk result (λ f. f ≡ number_of symbol self.new.functions) }
        ensures added { OnOk result (self.new ≡ record self.old { functions = with_symbol self.old.functions symbol }) }
        ensures err { OnErr result (self.new ≡ self.old) }
    {
        add_to(&mut self.functions, symbol)
    }

    /// The number of a predicate, which is added where it is new. Nothing changes where memory is out.
    pub fn add_pred(&mut self, symbol: Symbol) -> Result<u32, AllocError>
        requires { length self.old.predicates < 2 ^ 32 - 1 }
        ensures number { IfOk result (λ p. p ≡ number_of symbol self.new.predicates) }
        ensures added { OnOk result (self.new ≡ record self.old { predicates = with_symbol self.old.predicates symbol }) }
        ensures err { OnErr result (self.new ≡ self.old) }
    {
        add_to(&mut self.predicates, symbol)
    }
}

fn add_to(symbols: &mut IndexSet<Symbol>, symbol: Symbol) -> Result<u32, AllocError>
    requires { length symbols.old.keys < 2 ^ 32 - 1 }
    ensures number { IfOk result (λ n. n ≡ number_of symbol symbols.new.keys) }
    ensures added { OnOk result (symbols.new.keys ≡ with_symbol symbols.old.keys symbol) }
    ensures err { OnErr result (symbols.new.keys ≡ symbols.old.keys) }
    ensures unique { IsDistinct same_symbol symbols.new.keys }
{
    match symbols.insert_full(symbol) {
        Ok((number, _)) => Ok(number as u32),
        Err(_) => Err(AllocError),
    }
}
