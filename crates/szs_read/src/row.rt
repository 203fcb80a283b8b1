//! The names of a literal, in a row.
//!
//! A literal is read as its names in the order in which they stand, each with the number of its arguments:
//! the predicate, and then functions and variables. No call goes down into a term, however deep it is.
ghost use Rattle.std.specs.Prelude.{◌≡◌, ◌+◌, ◌≤◌, ◌<◌, ◌-◌, ◌^◌, ℕ, zero, true, List, [], ◌∷◌, drop, length, IfOk, OnOk};
ghost use Rattle.std.specs.List.{AllByRecursion};
ghost use Rattle.me_terms.specs.Values.{SignatureValue};
ghost use Rattle.me_terms.specs.declared.atom.Literal.{Literal};
ghost use Rattle.tptp_tokens.specs.Tokens.{TokenValue, IsToken, token_value};
ghost use Rattle.szs_read.specs.LineTokens.{AreLeft, literal_then, false_token, comma_token};
ghost use Rattle.szs_read.specs.RowItems.{IsItem, AreNames, literal_names, StopsAt, IsRowOf};

use crate::token::next_token;
use std::alloc::{AllocError, Global};
use tptp_tokens::{Token, TokenKind, Tokenizer};

/// A name, which so many arguments follow.
#[derive(Clone, Copy, Debug)]
pub(crate) struct Item<'a> {
    pub(crate) name: Token<'a>,
    pub(crate) arity: u32,
}

/// The token behind a literal.
#[derive(Clone, Copy, Debug, PartialEq, Eq)]
pub(crate) enum Stop {
    /// A bar, behind which the next literal comes.
    Bar,
    /// Any other token, or the end.
    Other,
}

/// The names of a literal as far as it is read.
#[derive(Drop)]
pub(crate) struct Row<'a> {
    pub(crate) positive: bool,
    pub(crate) items: Vec<Item<'a>>,
    /// The places of the names whose arguments are being read, the outermost first.
    enclosing: Vec<usize>,
}

impl<'a> Row<'a> {
    ghost use Rattle.std.specs.Prelude.{◌≡◌, ◌+◌, ◌≤◌, true, [], length, IfOk, OnOk};
    ghost use Rattle.std.specs.List.{AllByRecursion};
    ghost use Rattle.tptp_tokens.specs.Tokens.{IsToken, token_value};
    ghost use Rattle.szs_read.specs.RowItems.{IsItem, row_value, counted_row, with_name, with_open, IsTaken};

    fn new(alloc: Global) -> Self
        ensures items { result.items.items ≡ [] }
        ensures value { row_value result ≡ record { positive = true; names = []; enclosing = [] } }
    {
        Row {
            positive: true,
            items: Vec::new(alloc),
            enclosing: Vec::new(alloc),
        }
    }

    /// Counts one more argument of the innermost name whose arguments are being read.
    fn count_argument(&mut self)
        requires { AllByRecursion IsItem self.old.items.items }
        ensures items { AllByRecursion IsItem self.new.items.items }
        ensures count { length self.new.items.items ≡ length self.old.items.items }
        ensures value { row_value self.new ≡ counted_row (row_value self.old) }
    {
        if let Some(place) = self.enclosing.last() {
            let place = *place;
            if place < self.items.len() {
                self.items[place].arity = self.items[place].arity.saturating_add(1);
            }
        }
    }

    /// Puts a name at the end.
    fn push(&mut self, name: Token<'a>) -> Result<(), AllocError>
        requires items { AllByRecursion IsItem self.old.items.items }
        requires name { IsToken (token_value name) }
        ensures items { OnOk result (AllByRecursion IsItem self.new.items.items) }
        ensures count { OnOk result (length self.new.items.items ≤ length self.old.items.items + 1) }
        ensures value { OnOk result (row_value self.new ≡ with_name (row_value self.old) (token_value name.entry)) }
    {
        self.count_argument();
        self.items.push(Item { name, arity: 0 })?;
        Ok(())
    }

    /// The arguments of the last name come next.
    fn open(&mut self) -> Result<(), AllocError>
        ensures items { OnOk result (self.new.items ≡ self.old.items) }
        ensures value { OnOk result (row_value self.new ≡ with_open (row_value self.old)) }
    {
        self.enclosing.push(self.items.len().saturating_sub(1))?;
        Ok(())
    }

    /// Takes a token, or tells that the literal ends before it.
    fn take(&mut self, token: &Token<'a>) -> Result<Option<Stop>, AllocError>
        requires items { AllByRecursion IsItem self.old.items.items }
        requires token { IsToken (token_value token.now) }
        ensures items { OnOk result (AllByRecursion IsItem self.new.items.items) }
        ensures count { OnOk result (length self.new.items.items ≤ length self.old.items.items + 1) }
        ensures value { IfOk result (IsTaken (row_value self.old) (token_value token.now) (row_value self.new)) }
    {
        match token.kind {
            TokenKind::Tilde => self.positive = false,
            TokenKind::LowerWord
            | TokenKind::SingleQuoted
            | TokenKind::Distinct
            | TokenKind::Variable => self.push(*token)?,
            TokenKind::OpenRound => self.open()?,
            TokenKind::CloseRound if !self.enclosing.is_empty() => {
                self.enclosing.pop();
            }
            TokenKind::Comma if !self.enclosing.is_empty() => {}
            TokenKind::DollarWord => {}
            TokenKind::Bar => return Ok(Some(Stop::Bar)),
            _ => return Ok(Some(Stop::Other)),
        }
        Ok(None)
    }
}

/// The names of the literal that comes next, and the token behind it, which is taken too.
pub(crate) fn read_row<'a>(
    alloc: Global,
    tokens: &mut Tokenizer<'a>,
) -> Result<(Row<'a>, Stop), AllocError>
    ensures items { IfOk result (λ read. AllByRecursion IsItem read.0.items.items) }
    ensures count { IfOk result (λ read. length read.0.items.items + length tokens.new.bytes ≤ length tokens.old.bytes) }
    ensures shorter { length tokens.new.bytes ≤ length tokens.old.bytes }
    ensures literal { IfOk result (λ read. (s : SignatureValue) (l : Literal) (rest : List TokenValue) (stop : Stop) → length tokens.old.bytes < 2 ^ 32 → AreNames (literal_names s l) → StopsAt rest stop → AreLeft tokens.old.bytes (literal_then s l rest) → IsRowOf s l read.0 × (read.1 ≡ stop) × AreLeft tokens.new.bytes (drop 1 rest)) }
    ensures falsity { IfOk result (λ read. (rest : List TokenValue) → AreLeft tokens.old.bytes (false_token ∷ comma_token ∷ rest) → (read.0.items.items ≡ []) × AreLeft tokens.new.bytes rest) }
{
    let mut row = Row::new(alloc);
    'tokens: while let Some(token) = next_token(tokens) {
        if let Some(stop) = row.take(&token)? {
            return Ok((row, stop));
        }
    }
    Ok((row, Stop::Other))
}
