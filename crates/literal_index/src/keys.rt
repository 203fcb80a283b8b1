//! By which keys an entry is listed.
ghost use Rattle.std.specs.Prelude.{◌≡◌};
ghost use Rattle.std.specs.List.{list_all};
ghost use Rattle.me_terms.specs.TermViews.{term_value};
ghost use Rattle.me_terms.specs.Terms.{arguments_of};
ghost use Rattle.literal_index.specs.Index.{code_of as code_of_atom, code_key, general_key, is_constant as is_constant_term, are_constants as are_constant_arguments, is_universal};

use me_terms::{Atom, Entry, Kind, Pattern, Term, Terms};
use std::hash::{FoldHasher, Hash, Hasher};

/// The atom's hash code. Equal atoms have one code.
pub(crate) fn code_of(atom: &Atom) -> u64
    ensures { result ≡ code_of_atom atom.now }
{
    let mut state = FoldHasher::default();
    atom.hash(&mut state);
    state.finish()
}

/// Whether the term is a constant.
fn is_constant(term: &Term) -> bool
    ensures { result ≡ is_constant_term (term_value term.now) }
{
    match term {
        Term::Var(_) => false,
        Term::App { f: _, args } => args.is_empty(),
    }
}

/// Whether each term is a constant.
fn are_all_constants(terms: &[Term]) -> bool
    ensures { result ≡ list_all (λ t. is_constant_term (term_value t)) terms.now }
{
    for term in terms {
        if !is_constant(term) {
            return false;
        }
    }
    true
}

/// Whether each argument is a constant.
fn are_constants(arguments: &Terms) -> bool
    ensures { result ≡ are_constant_arguments (arguments_of arguments.now.items) }
{
    are_all_constants(arguments.as_slice())
}

/// The code of the entry's atom, if it isn't the pseudo-literal.
pub(crate) fn code_key_of(entry: &Entry) -> Option<u64>
    ensures { result ≡ code_key entry.now }
{
    match &entry.atom {
        Pattern::Any => None,
        Pattern::Of(atom) => Some(code_of(atom)),
    }
}

/// The predicate of a Universal entry with an argument that is no constant.
pub(crate) fn general_key_of(entry: &Entry) -> Option<u64>
    ensures { result ≡ general_key entry.now }
{
    match &entry.atom {
        Pattern::Any => None,
        Pattern::Of(atom) => {
            if entry.kind == Kind::Universal && !are_constants(&atom.args) {
                Some(u64::from(atom.pred))
            } else {
                None
            }
        }
    }
}
