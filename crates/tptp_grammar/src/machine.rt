//! The machine that reads the tokens of a file.
//!
//! It takes one token after another, and says what each is in the file. It refuses the first token with
//! which no file goes on, or which passes a limit, with the cause.
ghost use Rattle.std.specs.Prelude.{◌≡◌, ◌&&◌, ◌-◌, ◌^◌, ℕ, [], ◌∷◌, true, false, length, nat_le, nat_lt, map, reverse, Some, None, OnOk, IfOk, IfSome, IfErr, IsTrue, ◌↔◌};
ghost use Rattle.tptp_grammar.specs.Machine as spec;
ghost use Rattle.tptp_grammar.specs.Terminals as terminal;
ghost use Rattle.tptp_grammar.specs.Readings as readings;
ghost use Rattle.tptp_grammar.specs.Limits as limits;
ghost use Rattle.tptp_grammar.specs.declared.limits.TheConstants.{MAX_FORMULAS, MAX_LITERALS, MAX_ARGUMENTS, MAX_VARIABLES, MAX_BRACKETS};
ghost use Rattle.tptp_grammar.specs.Refusals as refusals;
ghost use Rattle.tptp_grammar.specs.Views.{is_opening};

use crate::kind::refusal;
use crate::limits::{MAX_ARGUMENTS, MAX_BRACKETS, MAX_FORMULAS, MAX_LITERALS, MAX_VARIABLES};
use crate::part::Part;
use crate::place::{Place, Stage};
use crate::refusal::{Refusal, What, Which};
use indexmap::IndexSet;
use std::alloc::{AllocError, AllocFailed, Global};
use tptp_tokens::{Token, TokenKind};

/// Why a machine does not go on.
#[derive(Clone, Copy, Debug, PartialEq, Eq)]
pub enum StepError {
    /// The token is refused.
    Refused(Refusal),
    /// Memory is out.
    Memory,
}

impl From<AllocError> for StepError {
    ghost use Rattle.tptp_grammar.specs.declared.machine.StepError.TheVariants.{Memory};

    ghost from_gives = { λ _ e. e ≡ Memory };

    fn from(_: AllocError) -> Self {
        StepError::Memory
    }
}

impl<T: Drop> From<AllocFailed<T>> for StepError {
    ghost use Rattle.tptp_grammar.specs.declared.machine.StepError.TheVariants.{Memory};

    ghost from_gives = { λ _ e. e ≡ Memory };

    fn from(_: AllocFailed<T>) -> Self {
        StepError::Memory
    }
}

/// Adds a text to the set, unless it is there.
#[tactic(auto, using(crate::proofs::Variables::added))]
fn add<'a>(texts: &mut IndexSet<&'a [u8]>, text: &'a [u8]) -> Result<(), AllocError>
    ensures { OnOk result (map (λ x. x.now) texts.new.keys ≡ limits.with_variables (map (λ x. x.now) texts.old.keys) (text.now ∷ [])) }
{
    match texts.insert(text) {
        Ok(_) => Ok(()),
        Err(_) => Err(AllocError),
    }
}

/// Takes all texts out of the set.
#[tactic(auto, using(crate::proofs::Variables::emptied))]
fn clear(texts: &mut IndexSet<&[u8]>)
    ensures { map (λ x. x.now) texts.new.keys ≡ [] }
{
    if !texts.is_empty() {
        texts.clear();
    }
}

/// Whether the token opens a bracket.
fn opens(kind: TokenKind) -> bool
    ensures { result ≡ is_opening kind }
{
    matches!(kind, TokenKind::OpenRound | TokenKind::OpenSquare)
}

/// What was read so far, and what is counted against the limits.
#[derive(Drop)]
pub struct Machine<'a> {
    place: Place,
    formulas: u32,
    /// The literals of the last formula.
    literals: u32,
    /// The different variables of the last formula.
    variables: IndexSet<&'a [u8]>,
}

impl<'a> Machine<'a> {
    ghost use Rattle.tptp_grammar.specs.Views.{terminal_of, state_of};
    ghost use Rattle.tptp_grammar.specs.MachineViews.{reading, tally_of, counted_part, TellsVerdict};

    /// Nothing is read so far.
    pub fn new(alloc: Global) -> Self
        ensures { reading result ≡ readings.start_reading }
    {
        Machine {
            place: Place::new(alloc),
            formulas: 0,
            literals: 0,
            variables: IndexSet::new(alloc),
        }
    }

    /// Adds the token to the variables of the formula, where it is one of its terms.
    fn note_variable(&mut self, part: Part, token: &Token<'a>) -> Result<(), AllocError>
        ensures place { self.new.place ≡ self.old.place }
        ensures tally { OnOk result (tally_of self.new ≡ record (tally_of self.old) { variables = limits.with_variables (tally_of self.old).variables (limits.variable_as part (terminal_of token.now)) }) }
    {
        if let (Part::Argument(_), TokenKind::Variable) = (part, token.kind) {
            add(&mut self.variables, token.text)?;
        }
        Ok(())
    }

    /// The first of the limits of formulas, literals and arguments that a token of this part passes.
    fn limit_of_part(&self, part: Part) -> Option<Which>
        ensures { result ≡ readings.first_of (limits.begins_formula part && nat_le MAX_FORMULAS self.now.formulas) (limits.begins_literal part && nat_le MAX_LITERALS self.now.literals) (limits.begins_argument_behind MAX_ARGUMENTS part) false false }
    {
        match part {
            Part::Formula if self.formulas >= MAX_FORMULAS => Some(Which::Clauses),
            Part::Negative | Part::Positive if self.literals >= MAX_LITERALS => Some(
                Which::Literals,
            ),
            Part::Argument(n) if n > MAX_ARGUMENTS => Some(Which::Arguments),
            _ => None,
        }
    }

    /// Whether the token opens a bracket where as many are open as may be.
    #[tactic(auto, using(crate::proofs::Steps::opening_is))]
    fn is_too_deep(&self, token: &Token<'_>) -> bool
        ensures { result ≡ (limits.opens (terminal_of token.now) && nat_le MAX_BRACKETS (spec.open_brackets (state_of self.now.place))) }
    {
        opens(token.kind) && self.place.open_brackets() >= u64::from(MAX_BRACKETS)
    }

    /// The limit of variables, where they are too many, or that of brackets, where the token was too deep.
    fn limit_of_all(&self, is_too_deep: bool) -> Option<Which>
        ensures { result ≡ readings.first_of false false false (nat_lt MAX_VARIABLES (length (tally_of self.now).variables)) is_too_deep }
    {
        if self.variables.len() > MAX_VARIABLES as usize {
            Some(Which::Variables)
        } else if is_too_deep {
            Some(Which::Nesting)
        } else {
            None
        }
    }

    /// Counts a token of this part.
    fn count(&mut self, part: Part)
        requires { readings.first_of (limits.begins_formula part && nat_le MAX_FORMULAS self.old.formulas) (limits.begins_literal part && nat_le MAX_LITERALS self.old.literals) (limits.begins_argument_behind MAX_ARGUMENTS part) false false ≡ None }
        ensures tally { tally_of self.new ≡ counted_part part (tally_of self.old) }
        ensures place { self.new.place ≡ self.old.place }
    {
        match part {
            Part::Formula => {
                self.formulas += 1;
                self.literals = 0;
                clear(&mut self.variables);
            }
            Part::Negative | Part::Positive => self.literals += 1,
            _ => {}
        }
    }

    /// Takes a token, and says what it is in the file. After an `Err` the machine is of no use. With each
    /// token what is counted grows by at most one, so at least 2^32 - 2 tokens can be taken.
    pub fn step(&mut self, token: &Token<'a>) -> Result<Part, StepError>
        requires { spec.CountsUpTo (2 ^ 32 - 2) (reading self.old).state }
        ensures goes { OnOk result (readings.verdict (reading self.old) (terminal_of token.now) ≡ readings.GoesOn (reading self.new)) }
        ensures part { IfOk result (λ part. part ≡ spec.part_at (reading self.old).state (terminal_of token.now)) }
        ensures refused { IfErr result (TellsVerdict (readings.verdict (reading self.old) (terminal_of token.now))) }
    {
        let part = self.place.part(token);
        let is_too_deep = self.is_too_deep(token);
        if !self.place.advance(token)? {
            return Err(StepError::Refused(refusal(&self.place, token)));
        }
        if let Some(which) = self.limit_of_part(part) {
            return Err(StepError::Refused(Refusal::Limit(which)));
        }
        self.note_variable(part, token)?;
        if let Some(which) = self.limit_of_all(is_too_deep) {
            return Err(StepError::Refused(Refusal::Limit(which)));
        }
        self.count(part);
        Ok(part)
    }

    /// Whether the tokens that were taken are a file.
    pub fn is_whole(&self) -> bool
        ensures { IsTrue result ↔ ((reading self.now).state ≡ spec.Between) }
    {
        self.place.stage == Stage::Between
    }
}
