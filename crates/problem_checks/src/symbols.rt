//! The functions and the predicates of a signature, each by its number.
//!
//! One walk over the symbols of a kind serves both kinds.
ghost use Rattle.std.specs.Prelude.{◌≡◌, length, slice_get, IfSome};
ghost use Rattle.std.specs.Option.{option_copied};
ghost use Rattle.me_terms.specs.Signatures.{number_of};
ghost use Rattle.problem_checks.specs.SymbolKinds.{symbols_of};

use me_terms::{Signature, Symbol};

/// A kind of symbols.
#[derive(Clone, Copy, Debug)]
pub(crate) enum SymbolKind {
    Function,
    Predicate,
}

/// The number of symbols of the kind.
pub(crate) fn symbol_count(signature: &Signature, kind: SymbolKind) -> u32
    ensures { result ≡ length (symbols_of kind signature.now) }
{
    match kind {
        SymbolKind::Function => signature.fun_count(),
        SymbolKind::Predicate => signature.pred_count(),
    }
}

/// The symbol of the kind with this number.
pub(crate) fn symbol(signature: &Signature, kind: SymbolKind, number: u32) -> Option<&Symbol>
    ensures item { option_copied result ≡ slice_get (symbols_of kind signature.now) number }
    ensures own { IfSome result (λ symbol. number_of symbol.now (symbols_of kind signature.now) ≡ number) }
{
    match kind {
        SymbolKind::Function => signature.fun(number),
        SymbolKind::Predicate => signature.pred(number),
    }
}
