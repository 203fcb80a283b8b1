//! The problem as far as it is read.
//!
//! The names of a formula are kept until its end. Then they are numbered and made a clause, unless the
//! formula is left out. Where no kept clause has a constant, `c0` is added at the end.
ghost use Rattle.std.specs.Prelude.{◌≡◌, ◌-◌, ◌<◌, ◌^◌, [], ◌∷◌, ◌++◌, true, false, length, slice_get, OnOk, IfOk, IfSome, IfNone};
ghost use Rattle.std.specs.List.{list_any, position_or_len};
ghost use Rattle.tptp_grammar.specs.Views.{terminal_of};
ghost use Rattle.tptp_cnf.specs.Meaning.{same_truth, is_constant, with_constant, c0_symbol as c0_value};
ghost use Rattle.tptp_cnf.specs.Rows as rows;

use crate::build::built;
use crate::item::{Item, Node, Role};
use crate::numbers::{label, number_all};
use crate::symbols::Symbols;
use indexmap::IndexSet;
use me_terms::{Clause, Clauses, Form, Label, Literal, Problem, Signature, Symbol, Term, Text};
use std::alloc::{AllocError, Global};
use std::mem;
use tptp_grammar::Part;
use tptp_tokens::{Token, TokenKind};

/// The lists that a clause is made in. They stay, so that their room serves the next clause.
#[derive(Drop)]
struct Workspace<'a> {
    variables: IndexSet<&'a [u8]>,
    nodes: Vec<Node>,
    terms: Vec<Term>,
    literals: Vec<Literal>,
}

/// The clauses and symbols so far, and the formula that is being read.
#[derive(Drop)]
pub(crate) struct Builder<'a> {
    signature: Symbols<'a>,
    clauses: Clauses,
    /// The number of formulas that have begun.
    number: u32,
    label: Label,
    /// No literal of the formula so far makes it true.
    is_kept: bool,
    items: Vec<Item<'a>>,
    /// The places of the names whose arguments are being read, the outermost first.
    open: Vec<usize>,
    workspace: Workspace<'a>,
}

/// A label without text.
fn no_label(alloc: Global) -> Label
    ensures { result ≡ rows.no_label }
{
    Label {
        form: Form::Word,
        text: Text::new(alloc),
    }
}

/// Whether a literal of this sign with `$true`, or else with `$false`, is true.
fn is_true(positive: bool, truth: bool) -> bool
    ensures { result ≡ same_truth positive truth }
{
    if positive { truth } else { !truth }
}

/// Whether the function of this number is a constant.
fn is_constant_at(signature: &Signature, number: u32) -> bool
    ensures { result ≡ rows.constant_at (slice_get signature.now.functions number) }
{
    match signature.fun(number) {
        Some(symbol) => symbol.arity == 0,
        None => false,
    }
}

/// The number of the first constant.
fn first_constant(signature: &Signature) -> Option<u32>
    ensures some { IfSome result (λ n. n ≡ position_or_len is_constant signature.now.functions) }
    ensures found { IfSome result (λ n. list_any is_constant signature.now.functions ≡ true) }
    ensures none { IfNone result (list_any is_constant signature.now.functions ≡ false) }
{
    'functions: for number in 0..signature.fun_count() {
        if is_constant_at(signature, number) {
            return Some(number);
        }
    }
    None
}

/// The symbol of the constant that is added where there is none.
fn c0_symbol(alloc: Global) -> Result<Symbol, AllocError>
    ensures { IfOk result (λ symbol. symbol ≡ c0_value) }
{
    Ok(Symbol {
        label: Label {
            form: Form::Word,
            text: Text::from_slice(b"c0", alloc)?,
        },
        arity: 0,
    })
}

/// The number of the first constant. Where there is none, `c0` is added.
fn constant(alloc: Global, signature: &mut Signature) -> Result<u32, AllocError>
    requires { length signature.old.functions < 2 ^ 32 - 1 }
    ensures number { IfOk result (λ n. n ≡ position_or_len is_constant (with_constant signature.old.functions)) }
    ensures added { OnOk result (signature.new ≡ record signature.old { functions = with_constant signature.old.functions }) }
{
    match first_constant(signature) {
        Some(number) => Ok(number),
        None => signature.add_fun(c0_symbol(alloc)?),
    }
}

impl<'a> Builder<'a> {
    ghost use Rattle.tptp_cnf.specs.Rows.{IsNumberable};
    ghost use Rattle.tptp_cnf.specs.Views.{draft};

    /// Nothing is read so far.
    pub(crate) fn new(alloc: Global) -> Self
        ensures { draft result ≡ rows.empty_draft }
    {
        Builder {
            signature: Symbols::new(alloc),
            clauses: Clauses::new(alloc),
            number: 0,
            label: no_label(alloc),
            is_kept: true,
            items: Vec::new(alloc),
            open: Vec::new(alloc),
            workspace: Workspace {
                variables: IndexSet::new(alloc),
                nodes: Vec::new(alloc),
                terms: Vec::new(alloc),
                literals: Vec::new(alloc),
            },
        }
    }

    /// A formula begins.
    fn begin(&mut self)
        requires { IsNumberable (draft self.old) }
        ensures { draft self.new ≡ rows.begun (draft self.old) }
    {
        self.number += 1;
        self.is_kept = true;
        self.items.clear();
        self.open.clear();
    }

    /// Puts a name into the row.
    fn push(&mut self, role: Role, name: &Token<'a>) -> Result<(), AllocError>
        ensures { OnOk result (draft self.new ≡ rows.with_name role (terminal_of name.now) (draft self.old)) }
    {
        self.items.push(Item {
            role,
            name: *name,
            arity: 0,
        })?;
        Ok(())
    }

    /// The first token of an atom: its predicate, or `$true` or `$false`.
    fn atom(&mut self, positive: bool, token: &Token<'a>) -> Result<(), AllocError>
        ensures { OnOk result (draft self.new ≡ rows.with_atom positive (terminal_of token.now) (draft self.old)) }
    {
        match token.kind {
            TokenKind::DollarWord => {
                if is_true(positive, token.text == b"$true".as_slice()) {
                    self.is_kept = false;
                }
                Ok(())
            }
            _ => if positive {
                self.push(Role::Positive, token)
            } else {
                self.push(Role::Negative, token)
            },
        }
    }

    /// The first token of an argument.
    fn argument(&mut self, token: &Token<'a>) -> Result<(), AllocError>
        ensures { OnOk result (draft self.new ≡ rows.with_argument (terminal_of token.now) (draft self.old)) }
    {
        match token.kind {
            TokenKind::Variable => self.push(Role::Variable, token),
            _ => self.push(Role::Function, token),
        }
    }

    /// The arguments of the last name come next.
    fn open_arguments(&mut self) -> Result<(), AllocError>
        ensures { OnOk result (draft self.new ≡ rows.items_opened (draft self.old)) }
    {
        self.open.push(self.items.len().saturating_sub(1))?;
        Ok(())
    }

    /// The innermost name whose arguments are being read has so many.
    fn close_arguments(&mut self, count: u32)
        ensures { draft self.new ≡ rows.items_closed count (draft self.old) }
    {
        if let Some(place) = self.open.pop() {
            if place < self.items.len() {
                self.items[place].arity = count;
            }
        }
    }

    /// The names so far become a clause.
    fn add_clause(&mut self, alloc: Global) -> Result<(), AllocError>
        requires { IsNumberable (draft self.old) }
        ensures { OnOk result (draft self.new ≡ rows.with_clause (draft self.old)) }
    {
        let Workspace {
            variables,
            nodes,
            terms,
            literals,
        } = &mut self.workspace;
        number_all(alloc, &mut self.signature, variables, nodes, &self.items)?;
        let literals = built(alloc, terms, literals, nodes)?;
        let label = mem::replace(&mut self.label, no_label(alloc));
        let clause = Clause {
            number: self.number,
            label,
            literals,
        };
        match self.clauses.push(clause) {
            Ok(()) => Ok(()),
            Err(_) => Err(AllocError),
        }
    }

    /// The formula ends.
    fn end(&mut self, alloc: Global) -> Result<(), AllocError>
        requires { IsNumberable (draft self.old) }
        ensures { OnOk result (draft self.new ≡ rows.ended (draft self.old)) }
    {
        if self.is_kept {
            return self.add_clause(alloc);
        }
        Ok(())
    }

    /// Takes a token that is this part of a file. After an `Err` the builder is of no use.
    pub(crate) fn take(
        &mut self,
        alloc: Global,
        part: Part,
        token: &Token<'a>,
    ) -> Result<(), AllocError>
        requires { IsNumberable (draft self.old) }
        ensures { OnOk result (draft self.new ≡ rows.fed (draft self.old) part (terminal_of token.now)) }
    {
        match part {
            Part::Formula => {
                self.begin();
                Ok(())
            }
            Part::Label => {
                self.label = label(alloc, token)?;
                Ok(())
            }
            Part::Positive => self.atom(true, token),
            Part::Atom => self.atom(false, token),
            Part::Argument(_) => self.argument(token),
            Part::OpenArguments => self.open_arguments(),
            Part::CloseArguments(count) => {
                self.close_arguments(count);
                Ok(())
            }
            Part::End => self.end(alloc),
            Part::Role | Part::Negative | Part::Other => Ok(()),
        }
    }

    /// The problem of the clauses.
    pub(crate) fn finish(self, alloc: Global) -> Result<Problem, AllocError>
        requires { IsNumberable (draft self) }
        ensures { IfOk result (λ problem. problem ≡ rows.finished (draft self.entry)) }
    {
        let Builder {
            signature,
            clauses,
            number: _,
            label: _,
            is_kept: _,
            items: _,
            open: _,
            workspace: _,
        } = self;
        let mut signature = signature.into_signature();
        let c0 = constant(alloc, &mut signature)?;
        Ok(Problem {
            clauses,
            signature,
            c0,
        })
    }
}
