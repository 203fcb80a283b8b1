//! The tokenizer.
//!
//! It gives the tokens of bytes one after another, each with its place. It takes no memory, and looks
//! at each byte a bounded number of times.
ghost use Rattle.std.specs.Prelude.{◌≡◌, ◌<◌, [], List, length, IfSome, IfNone};
ghost use Rattle.tptp_tokens.specs.Gaps.{IsGap};
ghost use Rattle.tptp_tokens.specs.Tokens.{PlacedToken, IsNextToken, IsCut, placed_token};

use crate::first::first;
use crate::gap::after_gap;
use crate::token::Token;
use std::marker::Model;

/// What is left to be cut into tokens. A contract sees the bytes that are left, and the place of the
/// first of them.
#[derive(Drop)]
pub struct Tokenizer<'a> {
    at: u64,
    rest: &'a [u8],
}

impl<'a> Model for Tokenizer<'a> {
    ghost use Rattle.std.specs.Prelude.{◌+◌, ◌<◌, ◌^◌, length};
    ghost use Rattle.tptp_tokens.specs.Remainders.{Remainder};

    ghost Value = { Remainder };

    ghost view = { λ t. record { at = t.at; bytes = t.rest.now } };

    ghost invariant = { λ t. t.at + length t.rest.now < 2 ^ 64 };
}

impl<'a> Tokenizer<'a> {
    /// All of these bytes are left, from place 0 on.
    pub fn new(bytes: &'a [u8]) -> Self
        ensures { result ≡ record { at = 0; bytes = bytes.now } }
    {
        Tokenizer { at: 0, rest: bytes }
    }

    /// The next token, and none where a gap alone is left. A bad token is the last one.
    pub fn next(&mut self) -> Option<Token<'a>>
        ensures some { IfSome result (λ token. IsNextToken self.old (placed_token token) self.new) }
        ensures shorter { IfSome result (λ _. length self.new.bytes < length self.old.bytes) }
        ensures none { IfNone result (IsGap self.old.bytes []) }
        ensures unchanged { IfNone result (self.new ≡ self.old) }
    {
        let middle = after_gap(self.rest);
        match first(middle) {
            Some(found) => {
                let at = self.at + (self.rest.len() - middle.len()) as u64;
                self.at = at + (middle.len() - found.rest.len()) as u64;
                self.rest = found.rest;
                Some(Token {
                    kind: found.kind,
                    at,
                    text: found.inside,
                })
            }
            None => None,
        }
    }
}

/// The number of tokens into which the bytes are cut.
pub fn token_count(bytes: &[u8]) -> u64
    ensures { (tokens : List PlacedToken) × IsCut bytes.now tokens × (length tokens ≡ result) }
{
    let mut tokenizer = Tokenizer::new(bytes);
    let mut count = 0;
    'tokens: while let Some(_) = tokenizer.next() {
        count += 1;
    }
    count
}
