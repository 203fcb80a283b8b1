//! Terms of first-order logic and their lists of arguments.
//!
//! A contract sees a term as a mathematical tree, and a list of arguments as a list of such trees beside
//! the room that is left. Equality is that of the trees.
ghost use Rattle.std.specs.Prelude.{vec_capacity, ◌≡◌, ◌==◌, ◌+◌, ◌<◌, ◌≤◌, [], ◌∷◌, ◌++◌, length, map, slice_get, option_map, ◌↔◌, IsSome, IsOk, OnOk, OnErr, IfOk, IfErr};
ghost use Rattle.std.specs.Option.{option_copied};
ghost use Rattle.me_terms.specs.TermViews.{term_value};
ghost use Rattle.me_terms.specs.Terms.{arguments_of, App as AppTerm};
ghost use Rattle.me_terms.specs.Dropping.{drop_work};
ghost use Rattle.me_terms.specs.TermEquality.{same_term, same_arguments};

use crate::lighter_first::alike_within;
use std::alloc::{AllocError, Global};
use std::marker::Model;
use std::mem;

/// A variable by its number, or a function by its number with its arguments.
#[cycle(term)]
#[derive(Drop)]
pub enum Term {
    Var(u32),
    App { f: u32, args: Terms },
}

/// The arguments of a function or a predicate.
#[cycle(term)]
pub struct Terms {
    pub(crate) items: Vec<Term>,
}

impl Terms {
    /// The terms, to be taken out one by one.
    fn into_items(self) -> Vec<Term>
        ensures { map term_value result.items ≡ self.items }
    {
        let Terms { items } = self;
        items
    }
}

impl Drop for Terms {
    fn drop(self) {
        let Terms { mut items } = self;
        'items: while let Some(term) = items.pop() {
            match term {
                Term::Var(_) => {}
                Term::App { f, args } => {
                    items = below(items, f, args.into_items());
                }
            }
        }
        items.destroy_empty();
    }
}

/// The arguments of a term that stood last in a list, which has room for one more, before that list: what
/// is left to drop, without more memory and without the term's own node.
fn below(rest: Vec<Term>, f: u32, inner: Vec<Term>) -> Vec<Term>
    requires { length rest.items < vec_capacity rest }
    ensures { drop_work (arguments_of (map term_value result.items)) < drop_work (arguments_of (map term_value rest.items ++ AppTerm f (arguments_of (map term_value inner.items)) ∷ [])) }
{
    if rest.is_empty() {
        rest.destroy_empty();
        return inner;
    }
    if inner.is_empty() {
        inner.destroy_empty();
        return rest;
    }
    let mut rest = rest;
    let mut inner = inner;
    let first = mem::replace(&mut inner[0], Term::Var(0));
    rest.push_reserved(first);
    let args = Terms { items: rest };
    match mem::replace(&mut inner[0], Term::App { f, args }) {
        Term::Var(_) => inner,
        Term::App { f: _, args: _ } => unreachable!(),
    }
}

impl Model for Terms {
    ghost use Rattle.me_terms.specs.Terms.{TermValue, term_code, heights, arguments_of};
    ghost use Rattle.me_terms.specs.Sequences.{SequenceValue, sequence_code};

    ghost Value = { SequenceValue TermValue };

    ghost coded = { sequence_code term_code };

    ghost use Rattle.me_terms.specs.TermViews.{terms_value};

    ghost view = { λ s. terms_value s.items };

    ghost size = { λ h. heights (arguments_of h.items) };

    ghost use Rattle.me_terms.specs.TermSize.{falls};

    ghost size_decreases = { λ s h. falls s };
}

impl Terms {
    /// An empty list, which takes no memory. Later calls that need some take it from `alloc`.
    pub fn new(alloc: Global) -> Self
        ensures { result.items ≡ [] }
    {
        Terms {
            items: Vec::new(alloc),
        }
    }

    /// The number of terms.
    pub fn len(&self) -> u64
        ensures { result ≡ length self.now.items }
    {
        self.items.len() as u64
    }

    pub fn is_empty(&self) -> bool
        ensures { result ≡ (length self.now.items == 0) }
    {
        self.items.is_empty()
    }

    /// The terms in order.
    pub fn as_slice(&self) -> &[Term]
        ensures { map term_value result.now ≡ self.now.items }
    {
        self.items.as_slice()
    }

    /// The term at place `k`, from 0.
    pub fn get(&self, k: u64) -> Option<&Term>
        ensures item { option_map term_value (option_copied result) ≡ slice_get self.now.items k }
        ensures found { IsSome result ↔ (k < length self.now.items) }
    {
        self.items.get(k as usize)
    }

    /// A list without terms that has room for `n`.
    pub fn with_capacity(alloc: Global, n: u64) -> Result<Self, AllocError>
        ensures { IfOk result (λ list. list.items ≡ []) }
    {
        let mut list = Terms::new(alloc);
        list.reserve(n)?;
        Ok(list)
    }

    /// Makes room for `n` further terms, or changes nothing where memory is out. An empty list gets room
    /// for no more than these.
    pub fn reserve(&mut self, n: u64) -> Result<(), AllocError>
        ensures items { self.new.items ≡ self.old.items }
        ensures ok { OnOk result (n ≤ self.new.spare) }
        ensures kept { self.old.spare ≤ self.new.spare }
        ensures succeeds { n ≤ self.old.spare → IsOk result }
        ensures err { OnErr result (self.new ≡ self.old) }
    {
        if self.items.is_empty() {
            self.items.reserve_exact(n as usize)
        } else {
            self.items.reserve(n as usize)
        }
    }

    /// Puts a term at the end, or hands it back where memory is out.
    pub fn push(&mut self, item: Term) -> Result<(), Term>
        ensures ok { OnOk result (self.new.items ≡ self.old.items ++ term_value item ∷ []) }
        ensures err { OnErr result (self.new ≡ self.old) }
        ensures back { IfErr result (λ back. back ≡ item) }
        ensures room { 0 < self.old.spare → IsOk result × (self.new.spare + 1 ≡ self.old.spare) }
    {
        if self.items.len() == self.items.capacity() && self.items.reserve(1).is_err() {
            return Err(item);
        }
        self.items.push_reserved(item);
        Ok(())
    }
}

impl Term {
    /// Whether two terms are written alike, by calls as deep as the terms.
    #[cycle(same)]
    pub(crate) fn same(&self, other: &Term) -> bool
        ensures { result ≡ same_term (term_value self.now) (term_value other.now) }
    {
        match (self, other) {
            (Term::Var(x), Term::Var(y)) => *x == *y,
            (Term::App { f, args: mine }, Term::App { f: g, args: theirs }) => {
                *f == *g && mine.same(theirs)
            }
            _ => false,
        }
    }

    /// An equal term.
    pub fn again(&self, alloc: Global) -> Result<Term, AllocError>
        ensures { IfOk result (λ copy. term_value copy ≡ term_value self.now) }
    {
        match self {
            Term::Var(x) => Ok(Term::Var(*x)),
            Term::App { f, args } => Ok(Term::App {
                f: *f,
                args: args.again(alloc)?,
            }),
        }
    }
}

impl Terms {
    /// Whether two lists have terms that are written alike, in order. It takes a list of what is still to
    /// be compared, and where memory is out goes on without.
    pub(crate) fn alike(&self, other: &Terms) -> bool
        ensures { result ≡ same_arguments (arguments_of self.now.items) (arguments_of other.now.items) }
    {
        let mut later: Vec<Pair<'_>> = Vec::new(*self.items.allocator());
        let mut mine = self.as_slice();
        let mut theirs = other.as_slice();
        'terms: loop {
            if let Some((first, rest)) = mine.split_first() {
                let Some((second, others)) = theirs.split_first() else {
                    return false;
                };
                match (first, second) {
                    (Term::Var(x), Term::Var(y)) => {
                        if *x != *y {
                            return false;
                        }
                        mine = rest;
                        theirs = others;
                    }
                    (Term::App { f, args: inner }, Term::App { f: g, args: outer }) => {
                        if *f != *g {
                            return false;
                        }
                        if later.push(Pair { rest, others }).is_err() {
                            return self.alike_without_memory(other);
                        }
                        mine = inner.as_slice();
                        theirs = outer.as_slice();
                    }
                    _ => return false,
                }
            } else {
                if !theirs.is_empty() {
                    return false;
                }
                let Some(pair) = later.pop() else {
                    return true;
                };
                mine = pair.rest;
                theirs = pair.others;
            }
        }
    }

    /// The same by a walk that takes no memory. Only lists of 2^64 symbols and more, which no memory holds,
    /// are compared by calls as deep as their terms.
    fn alike_without_memory(&self, other: &Terms) -> bool
        ensures { result ≡ same_arguments (arguments_of self.now.items) (arguments_of other.now.items) }
    {
        let lists = Pair {
            rest: self.as_slice(),
            others: other.as_slice(),
        };
        match alike_within(lists, u64::MAX) {
            Some(found) => found.alike,
            None => self.same(other),
        }
    }

    #[cycle(same)]
    #[tactic(auto, using(crate::specs::TermEqualityLaws::same_arguments_lengths))]
    pub(crate) fn same(&self, other: &Terms) -> bool
        ensures { result ≡ same_arguments (arguments_of self.now.items) (arguments_of other.now.items) }
    {
        if self.len() != other.len() {
            return false;
        }
        let mine = &self.items;
        let theirs = &other.items;
        for i in 0..mine.len() {
            if !mine[i].same(&theirs[i]) {
                return false;
            }
        }
        true
    }

    /// An equal list. It takes a list of its own for the terms that are not copied to their end.
    pub fn again(&self, alloc: Global) -> Result<Terms, AllocError>
        ensures { IfOk result (λ copy. copy.items ≡ self.now.items) }
    {
        let mut above: Vec<Frame<'_>> = Vec::new(alloc);
        let mut rest = self.as_slice();
        let mut made = Terms::with_capacity(alloc, self.len())?;
        'terms: loop {
            if let Some((first, others)) = rest.split_first() {
                match first {
                    Term::Var(x) => {
                        if made.push(Term::Var(*x)).is_err() {
                            return Err(AllocError);
                        }
                        rest = others;
                    }
                    Term::App { f, args } => {
                        above.push(Frame {
                            f: *f,
                            made,
                            rest: others,
                        })?;
                        made = Terms::with_capacity(alloc, args.len())?;
                        rest = args.as_slice();
                    }
                }
            } else {
                let Some(frame) = above.pop() else {
                    return Ok(made);
                };
                let Frame {
                    f,
                    made: before,
                    rest: others,
                } = frame;
                let args = made;
                made = before;
                if made.push(Term::App { f, args }).is_err() {
                    return Err(AllocError);
                }
                rest = others;
            }
        }
    }
}

/// Terms that wait while a term before them is gone into.
#[derive(Clone, Copy)]
pub(crate) struct Rest<'a> {
    pub(crate) terms: &'a [Term],
}

/// Lists of terms that are still to be compared.
#[derive(Clone, Copy)]
pub(crate) struct Pair<'a> {
    pub(crate) rest: &'a [Term],
    pub(crate) others: &'a [Term],
}

/// A term of which some arguments are copied: its function, the terms before it, which are copied, and
/// those behind it.
#[derive(Drop)]
pub(crate) struct Frame<'a> {
    f: u32,
    made: Terms,
    rest: &'a [Term],
}

impl PartialEq for Term {
    ghost use Rattle.std.specs.Cmp.{on_per, partial_equiv_from_equiv};
    ghost use Rattle.me_terms.specs.TermEqualityLaws.{term_laws};

    ghost eq = { λ s t. same_term (term_value s) (term_value t) };

    ghost laws = { on_per term_value (partial_equiv_from_equiv term_laws) };

    fn eq(&self, other: &Self) -> bool {
        match (self, other) {
            (Term::Var(x), Term::Var(y)) => *x == *y,
            (Term::App { f, args: mine }, Term::App { f: g, args: theirs }) => {
                *f == *g && mine.alike(theirs)
            }
            _ => false,
        }
    }
}

impl Eq for Term {
    ghost use Rattle.std.specs.Cmp.{on_equiv};
    ghost use Rattle.me_terms.specs.TermEqualityLaws.{term_laws};

    ghost laws = { on_equiv term_value term_laws };
}
