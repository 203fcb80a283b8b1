//! Depth, weight and groundness of literals.
//!
//! Each is counted over the literal as it is written, once for each symbol and variable. Both counts stop
//! at 2^64 - 1.
ghost use Rattle.std.specs.Prelude.{◌≡◌};
ghost use Rattle.me_terms.specs.TermViews.{term_value};
ghost use Rattle.me_terms.specs.Terms.{arguments_of};
ghost use Rattle.me_terms.specs.Variables.{is_ground, are_ground, depth, depths, weights};
ghost use Rattle.me_terms.specs.Measures.{capped, literal_depth, literal_weight};

use crate::atom::Literal;
use crate::lighter_first::weight_within;
use crate::term::{Rest, Term, Terms};

/// The greatest depth of the literal's arguments, or 0 without any. A variable and a constant have depth
/// 1, and another term has 1 more than the deepest of its arguments.
pub fn depth_of(lit: &Literal) -> u64
    ensures { result ≡ capped (literal_depth lit.now) }
{
    lit.atom.args.depth()
}

/// How many predicates, functions and variables stand in the literal.
pub fn weight_of(lit: &Literal) -> u64
    ensures { result ≡ capped (literal_weight lit.now) }
{
    lit.atom.args.weight_of_all().saturating_add(1)
}

/// Whether no variable stands in the literal.
pub fn is_ground(lit: &Literal) -> bool
    ensures { result ≡ are_ground lit.now.atom.args }
{
    lit.atom.args.are_ground()
}

/// The sum of the weights of a term's arguments, by a walk that takes no memory.
fn weight_without_memory(args: &Terms) -> u64
    ensures { result ≡ capped (weights (arguments_of args.now.items)) }
{
    weight_within(args.as_slice(), u64::MAX).unwrap_or(u64::MAX)
}

impl Term {
    #[cycle(is_ground)]
    fn is_ground(&self) -> bool
        ensures { result ≡ is_ground (term_value self.now) }
    {
        match self {
            Term::Var(_) => false,
            Term::App { f: _, args } => args.are_ground(),
        }
    }

    #[cycle(depth)]
    fn depth(&self) -> u64
        ensures { result ≡ capped (depth (term_value self.now)) }
    {
        match self {
            Term::Var(_) => 1,
            Term::App { f: _, args } => args.depth().saturating_add(1),
        }
    }
}

impl Terms {
    #[cycle(is_ground)]
    fn are_ground(&self) -> bool
        ensures { result ≡ are_ground (arguments_of self.now.items) }
    {
        for item in &self.items {
            if !item.is_ground() {
                return false;
            }
        }
        true
    }

    /// The sum of the terms' weights. It takes a list of what is still to be counted, and where memory is
    /// out it goes into a term without.
    fn weight_of_all(&self) -> u64
        ensures { result ≡ capped (weights (arguments_of self.now.items)) }
    {
        let mut later: Vec<Rest<'_>> = Vec::new(*self.items.allocator());
        let mut terms = self.as_slice();
        let mut total = 0_u64;
        'terms: loop {
            if let Some((first, others)) = terms.split_first() {
                total = total.saturating_add(1);
                match first {
                    Term::Var(_) => terms = others,
                    Term::App { f: _, args } => {
                        if later.push(Rest { terms: others }).is_ok() {
                            terms = args.as_slice();
                        } else {
                            total = total.saturating_add(weight_without_memory(args));
                            terms = others;
                        }
                    }
                }
            } else {
                let Some(rest) = later.pop() else {
                    return total;
                };
                terms = rest.terms;
            }
        }
    }

    #[cycle(depth)]
    fn depth(&self) -> u64
        ensures { result ≡ capped (depths (arguments_of self.now.items)) }
    {
        let mut deepest = 0_u64;
        for item in &self.items {
            deepest = deepest.max(item.depth());
        }
        deepest
    }
}
