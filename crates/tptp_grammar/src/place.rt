//! Where in a file the next token stands.
//!
//! The place is the state of a machine that takes one token after another. It refuses the first token
//! with which no file of the grammar goes on.
ghost use Rattle.std.specs.Prelude.{◌≡◌, ◌≤◌, ◌-◌, ◌^◌, ℕ, List, [], true, false, ◌∷◌, reverse, Some, None, IfOk, if◌then◌else◌};
ghost use Rattle.std.specs.List.{AllByRecursion};
ghost use Rattle.tptp_grammar.specs.Terminals.{is_role as role_word};
ghost use Rattle.tptp_grammar.specs.Machine as spec;
ghost use Rattle.tptp_grammar.specs.Terminals as terminal;

use crate::part::Part;
use std::alloc::{AllocError, Global};
use tptp_tokens::{Token, TokenKind};

/// What was read last.
#[derive(Clone, Copy, Debug, PartialEq, Eq)]
pub(crate) enum Stage {
    /// A whole formula, or nothing.
    Between,
    /// The word `cnf`.
    Begun,
    /// Its bracket.
    Opened,
    /// The label.
    Labelled,
    /// The comma behind the label.
    LabelEnd,
    /// The role.
    Roled,
    /// The comma behind the role, and brackets round the literals: a literal comes next.
    FormulaStart,
    /// A bar: a literal comes next.
    LiteralStart,
    /// A tilde.
    Negated,
    /// A tilde and a bracket: an atom comes next.
    AtomStart,
    /// A bracket behind a name, or a comma: an argument comes next.
    ArgumentStart,
    /// A name, behind which arguments may come.
    Named,
    /// A whole term or atom.
    Done,
    /// The bracket that closes a negated atom.
    LiteralEnd,
    /// A bracket that closes the literals.
    FormulaEnd,
    /// The comma before the notes.
    NotesStart,
    /// A token of the notes.
    Notes,
    /// The bracket that closes the line.
    Closed,
}

/// The place behind what was read.
#[derive(Drop)]
pub(crate) struct Place {
    pub(crate) stage: Stage,
    /// How many brackets round the literals are open.
    pub(crate) brackets: u32,
    /// Whether the atom stands in brackets of its own.
    pub(crate) in_brackets: bool,
    /// The number of the argument that comes next.
    pub(crate) number: u32,
    /// For each open term the number of its argument that is being read, the outermost first.
    pub(crate) arguments: Vec<u32>,
    /// The open brackets of the notes, the outermost first: whether it is a round one.
    pub(crate) notes: Vec<bool>,
}

/// Whether the word may stand in the role's place.
fn is_role(word: &[u8]) -> bool
    ensures { result ≡ role_word word.now }
{
    word == b"axiom".as_slice()
        || word == b"hypothesis".as_slice()
        || word == b"definition".as_slice()
        || word == b"assumption".as_slice()
        || word == b"lemma".as_slice()
        || word == b"theorem".as_slice()
        || word == b"corollary".as_slice()
        || word == b"negated_conjecture".as_slice()
        || word == b"plain".as_slice()
        || word == b"unknown".as_slice()
}

/// Whether the word is `$true` or `$false`.
fn is_truth(word: &[u8]) -> bool
    ensures { result ≡ spec.is_truth word.now }
{
    word == b"$true".as_slice() || word == b"$false".as_slice()
}

impl Place {
    ghost use Rattle.tptp_grammar.specs.Views.{state_of, state_of_stage, terminal_of, IsHeader};
    ghost use Rattle.tptp_grammar.specs.declared.place.Stage.TheVariants.{NotesStart};

    /// Nothing is read so far.
    pub(crate) fn new(alloc: Global) -> Self
        ensures { state_of result ≡ spec.Between }
    {
        Place {
            stage: Stage::Between,
            brackets: 0,
            in_brackets: false,
            number: 0,
            arguments: Vec::new(alloc),
            notes: Vec::new(alloc),
        }
    }

    /// Goes on with a token that begins an atom; else answers false and changes nothing.
    fn atom(&mut self, in_brackets: bool, token: &Token<'_>) -> bool
        ensures goes { result ≡ true → spec.step_atom in_brackets self.old.brackets (terminal_of token.now) ≡ Some (state_of self.new) }
        ensures stops { result ≡ false → spec.step_atom in_brackets self.old.brackets (terminal_of token.now) ≡ None }
        ensures same { result ≡ false → self.new ≡ self.old }
    {
        let stage = match token.kind {
            TokenKind::LowerWord | TokenKind::SingleQuoted => Stage::Named,
            TokenKind::DollarWord if is_truth(token.text) => Stage::Done,
            _ => return false,
        };
        self.stage = stage;
        self.in_brackets = in_brackets;
        self.arguments.clear();
        true
    }

    /// Goes on with a token that begins an argument; else answers false and changes nothing.
    fn argument(&mut self, token: &Token<'_>) -> Result<bool, AllocError>
        ensures goes { IfOk result (λ b. b ≡ true → spec.step_argument (self.old.number ∷ reverse self.old.arguments.items) self.old.in_brackets self.old.brackets (terminal_of token.now) ≡ Some (state_of self.new)) }
        ensures stops { IfOk result (λ b. b ≡ false → spec.step_argument (self.old.number ∷ reverse self.old.arguments.items) self.old.in_brackets self.old.brackets (terminal_of token.now) ≡ None) }
        ensures same { IfOk result (λ b. b ≡ false → self.new ≡ self.old) }
    {
        let stage = match token.kind {
            TokenKind::LowerWord | TokenKind::SingleQuoted => Stage::Named,
            TokenKind::Variable | TokenKind::Distinct => Stage::Done,
            _ => return Ok(false),
        };
        self.arguments.push(self.number)?;
        self.stage = stage;
        Ok(true)
    }

    /// Takes the round bracket that closes those round the literals, or the line.
    fn close(&mut self)
        ensures { state_of self.new ≡ spec.after_bracket self.old.brackets }
    {
        if self.brackets == 0 {
            self.stage = Stage::Closed;
        } else {
            self.brackets -= 1;
            self.stage = Stage::FormulaEnd;
        }
    }

    /// Goes on behind a bracket that closed the literals; else answers false and changes nothing.
    fn formula_end(&mut self, token: &Token<'_>) -> bool
        ensures goes { result ≡ true → spec.step_formula_end self.old.brackets (terminal_of token.now) ≡ Some (state_of self.new) }
        ensures stops { result ≡ false → spec.step_formula_end self.old.brackets (terminal_of token.now) ≡ None }
        ensures same { result ≡ false → self.new ≡ self.old }
    {
        match token.kind {
            TokenKind::CloseRound => {
                self.close();
                true
            }
            TokenKind::Comma if self.brackets == 0 => {
                self.stage = Stage::NotesStart;
                true
            }
            _ => false,
        }
    }

    /// Goes on behind a literal; else answers false and changes nothing.
    fn literal_end(&mut self, token: &Token<'_>) -> bool
        ensures goes { result ≡ true → spec.step_literal_end self.old.brackets (terminal_of token.now) ≡ Some (state_of self.new) }
        ensures stops { result ≡ false → spec.step_literal_end self.old.brackets (terminal_of token.now) ≡ None }
        ensures same { result ≡ false → self.new ≡ self.old }
    {
        match token.kind {
            TokenKind::Bar => {
                self.stage = Stage::LiteralStart;
                true
            }
            TokenKind::CloseRound => {
                self.close();
                true
            }
            TokenKind::Comma if self.brackets == 0 => {
                self.stage = Stage::NotesStart;
                true
            }
            _ => false,
        }
    }

    /// Goes on behind an atom; else answers false and changes nothing.
    fn atom_end(&mut self, token: &Token<'_>) -> bool
        ensures goes { result ≡ true → spec.step_done [] self.old.in_brackets self.old.brackets (terminal_of token.now) ≡ Some (state_of self.new) }
        ensures stops { result ≡ false → spec.step_done [] self.old.in_brackets self.old.brackets (terminal_of token.now) ≡ None }
        ensures same { result ≡ false → self.new ≡ self.old }
    {
        if !self.in_brackets {
            return self.literal_end(token);
        }
        match token.kind {
            TokenKind::CloseRound => {
                self.stage = Stage::LiteralEnd;
                true
            }
            _ => false,
        }
    }

    /// Goes on behind a term or an atom; else answers false and changes nothing.
    fn done(&mut self, token: &Token<'_>) -> bool
        requires { AllByRecursion (λ n. n ≤ 2 ^ 32 - 2) (reverse self.old.arguments.items) }
        ensures goes { result ≡ true → spec.step_done (reverse self.old.arguments.items) self.old.in_brackets self.old.brackets (terminal_of token.now) ≡ Some (state_of self.new) }
        ensures stops { result ≡ false → spec.step_done (reverse self.old.arguments.items) self.old.in_brackets self.old.brackets (terminal_of token.now) ≡ None }
        ensures same { result ≡ false → self.new ≡ self.old }
    {
        let last = match self.arguments.last() {
            None => return self.atom_end(token),
            Some(last) => *last,
        };
        match token.kind {
            TokenKind::Comma => {
                self.number = last + 1;
                self.stage = Stage::ArgumentStart;
            }
            TokenKind::CloseRound => self.stage = Stage::Done,
            _ => return false,
        }
        let _ = self.arguments.pop();
        true
    }

    /// Goes on behind a name; else answers false and changes nothing.
    fn named(&mut self, token: &Token<'_>) -> bool
        requires { AllByRecursion (λ n. n ≤ 2 ^ 32 - 2) (reverse self.old.arguments.items) }
        ensures goes { result ≡ true → spec.step_named (reverse self.old.arguments.items) self.old.in_brackets self.old.brackets (terminal_of token.now) ≡ Some (state_of self.new) }
        ensures stops { result ≡ false → spec.step_named (reverse self.old.arguments.items) self.old.in_brackets self.old.brackets (terminal_of token.now) ≡ None }
        ensures same { result ≡ false → self.new ≡ self.old }
    {
        match token.kind {
            TokenKind::OpenRound => {
                self.number = 1;
                self.stage = Stage::ArgumentStart;
                true
            }
            _ => self.done(token),
        }
    }

    /// Goes on with a bracket that opens or closes, or another token, in the notes; else answers false
    /// and changes nothing.
    fn note(&mut self, token: &Token<'_>) -> Result<bool, AllocError>
        ensures goes { IfOk result (λ b. b ≡ true → spec.step_notes (reverse self.old.notes.items) (terminal_of token.now) ≡ Some (state_of self.new)) }
        ensures stops { IfOk result (λ b. b ≡ false → spec.step_notes (reverse self.old.notes.items) (terminal_of token.now) ≡ None) }
        ensures same { IfOk result (λ b. b ≡ false → self.new ≡ self.old) }
    {
        match token.kind {
            TokenKind::OpenRound => self.notes.push(true)?,
            TokenKind::OpenSquare => self.notes.push(false)?,
            TokenKind::CloseRound => return Ok(self.close_round()),
            TokenKind::CloseSquare => return Ok(self.close_square()),
            TokenKind::Dot | TokenKind::Bad => return Ok(false),
            _ => {}
        }
        self.stage = Stage::Notes;
        Ok(true)
    }

    /// Closes the innermost bracket of the notes, where it is a round one, or the line; else answers
    /// false and changes nothing.
    fn close_round(&mut self) -> bool
        ensures goes { result ≡ true → spec.step_notes (reverse self.old.notes.items) terminal.CloseRound ≡ Some (state_of self.new) }
        ensures stops { result ≡ false → spec.step_notes (reverse self.old.notes.items) terminal.CloseRound ≡ None }
        ensures same { result ≡ false → self.new ≡ self.old }
    {
        match self.notes.last() {
            None => {
                self.stage = Stage::Closed;
                return true;
            }
            Some(true) => {}
            Some(false) => return false,
        }
        let _ = self.notes.pop();
        self.stage = Stage::Notes;
        true
    }

    /// Closes the innermost bracket of the notes, where it is a square one; else answers false and
    /// changes nothing.
    fn close_square(&mut self) -> bool
        ensures goes { result ≡ true → spec.step_notes (reverse self.old.notes.items) terminal.CloseSquare ≡ Some (state_of self.new) }
        ensures stops { result ≡ false → spec.step_notes (reverse self.old.notes.items) terminal.CloseSquare ≡ None }
        ensures same { result ≡ false → self.new ≡ self.old }
    {
        match self.notes.last() {
            Some(false) => {}
            Some(true) | None => return false,
        }
        let _ = self.notes.pop();
        self.stage = Stage::Notes;
        true
    }

    /// Goes on with the first token of the notes; else answers false and is at the same place.
    fn notes_start(&mut self, token: &Token<'_>) -> Result<bool, AllocError>
        requires { self.old.stage ≡ NotesStart }
        ensures same { IfOk result (λ b. b ≡ false → state_of self.new ≡ spec.NotesStart) }
        ensures goes { IfOk result (λ b. b ≡ true → spec.step_notes_start (terminal_of token.now) ≡ Some (state_of self.new)) }
        ensures stops { IfOk result (λ b. b ≡ false → spec.step_notes_start (terminal_of token.now) ≡ None) }
    {
        self.notes.clear();
        match token.kind {
            TokenKind::CloseRound => Ok(false),
            _ => self.note(token),
        }
    }

    /// Goes on with a token where a literal comes next; else answers false and changes nothing.
    fn literal(&mut self, token: &Token<'_>) -> bool
        ensures goes { result ≡ true → spec.step_literal_start self.old.brackets (terminal_of token.now) ≡ Some (state_of self.new) }
        ensures stops { result ≡ false → spec.step_literal_start self.old.brackets (terminal_of token.now) ≡ None }
        ensures same { result ≡ false → self.new ≡ self.old }
    {
        match token.kind {
            TokenKind::Tilde => {
                self.stage = Stage::Negated;
                true
            }
            _ => self.atom(false, token),
        }
    }

    /// Goes on with a token where the literals begin; else answers false and changes nothing.
    fn formula(&mut self, token: &Token<'_>) -> bool
        requires { self.old.brackets ≤ 2 ^ 32 - 2 }
        ensures goes { result ≡ true → spec.step_formula_start self.old.brackets (terminal_of token.now) ≡ Some (state_of self.new) }
        ensures stops { result ≡ false → spec.step_formula_start self.old.brackets (terminal_of token.now) ≡ None }
        ensures same { result ≡ false → self.new ≡ self.old }
    {
        match token.kind {
            TokenKind::OpenRound => {
                self.brackets += 1;
                self.stage = Stage::FormulaStart;
                true
            }
            _ => self.literal(token),
        }
    }

    /// Goes on with a token behind a tilde; else answers false and changes nothing.
    fn negated(&mut self, token: &Token<'_>) -> bool
        ensures goes { result ≡ true → spec.step_negated self.old.brackets (terminal_of token.now) ≡ Some (state_of self.new) }
        ensures stops { result ≡ false → spec.step_negated self.old.brackets (terminal_of token.now) ≡ None }
        ensures same { result ≡ false → self.new ≡ self.old }
    {
        match token.kind {
            TokenKind::OpenRound => {
                self.stage = Stage::AtomStart;
                true
            }
            _ => self.atom(false, token),
        }
    }

    /// Goes on with a token between two formulas, or before the literals of one, in this stage; else
    /// answers false and changes nothing.
    fn header(&mut self, stage: Stage, token: &Token<'_>) -> bool
        requires { IsHeader stage }
        ensures goes { result ≡ true → spec.step (state_of_stage stage self.old) (terminal_of token.now) ≡ Some (state_of self.new) }
        ensures stops { result ≡ false → spec.step (state_of_stage stage self.old) (terminal_of token.now) ≡ None }
        ensures same { result ≡ false → self.new ≡ self.old }
    {
        let next = match (stage, token.kind) {
            (Stage::Between, TokenKind::LowerWord) if token.text == b"cnf".as_slice() =>
                Stage::Begun,
            (Stage::Begun, TokenKind::OpenRound) => Stage::Opened,
            (Stage::Opened, TokenKind::LowerWord | TokenKind::SingleQuoted | TokenKind::Digits) =>
                Stage::Labelled,
            (Stage::Labelled, TokenKind::Comma) => Stage::LabelEnd,
            (Stage::LabelEnd, TokenKind::LowerWord) if is_role(token.text) => Stage::Roled,
            (Stage::Roled, TokenKind::Comma) => {
                self.brackets = 0;
                Stage::FormulaStart
            }
            (Stage::Closed, TokenKind::Dot) => Stage::Between,
            _ => return false,
        };
        self.stage = next;
        true
    }

    /// Goes on with a token. Where no file goes on with it, it answers false and is at the same place.
    pub(crate) fn advance(&mut self, token: &Token<'_>) -> Result<bool, AllocError>
        requires { spec.CountsUpTo (2 ^ 32 - 2) (state_of self.old) }
        ensures same { IfOk result (λ b. b ≡ false → state_of self.new ≡ state_of self.old) }
        ensures goes { IfOk result (λ b. b ≡ true → spec.step (state_of self.old) (terminal_of token.now) ≡ Some (state_of self.new)) }
        ensures stops { IfOk result (λ b. b ≡ false → spec.step (state_of self.old) (terminal_of token.now) ≡ None) }
    {
        match self.stage {
            Stage::FormulaStart => Ok(self.formula(token)),
            Stage::LiteralStart => Ok(self.literal(token)),
            Stage::Negated => Ok(self.negated(token)),
            Stage::AtomStart => Ok(self.atom(true, token)),
            Stage::ArgumentStart => self.argument(token),
            Stage::Named => Ok(self.named(token)),
            Stage::Done => Ok(self.done(token)),
            Stage::LiteralEnd => Ok(self.literal_end(token)),
            Stage::FormulaEnd => Ok(self.formula_end(token)),
            Stage::NotesStart => self.notes_start(token),
            Stage::Notes => self.note(token),
            Stage::Between => Ok(self.header(Stage::Between, token)),
            Stage::Begun => Ok(self.header(Stage::Begun, token)),
            Stage::Opened => Ok(self.header(Stage::Opened, token)),
            Stage::Labelled => Ok(self.header(Stage::Labelled, token)),
            Stage::LabelEnd => Ok(self.header(Stage::LabelEnd, token)),
            Stage::Roled => Ok(self.header(Stage::Roled, token)),
            Stage::Closed => Ok(self.header(Stage::Closed, token)),
        }
    }

    /// What a token of this kind is, behind a term or an atom.
    fn part_behind(&self, kind: TokenKind) -> Part
        ensures { (text : List ℕ) → result ≡ spec.done_part (reverse self.now.arguments.items) (terminal.terminal_as kind text) }
    {
        match kind {
            TokenKind::CloseRound => match self.arguments.last() {
                Some(n) => Part::CloseArguments(*n),
                None => Part::Other,
            },
            _ => Part::Other,
        }
    }

    /// What the token is in the file, where a file goes on with it.
    pub(crate) fn part(&self, token: &Token<'_>) -> Part
        ensures { result ≡ spec.part_at (state_of self.now) (terminal_of token.now) }
    {
        match self.stage {
            Stage::Between => Part::Formula,
            Stage::Opened => Part::Label,
            Stage::LabelEnd => Part::Role,
            Stage::FormulaStart => match token.kind {
                TokenKind::OpenRound => Part::Other,
                TokenKind::Tilde => Part::Negative,
                _ => Part::Positive,
            },
            Stage::LiteralStart => match token.kind {
                TokenKind::Tilde => Part::Negative,
                _ => Part::Positive,
            },
            Stage::Negated => match token.kind {
                TokenKind::OpenRound => Part::Other,
                _ => Part::Atom,
            },
            Stage::AtomStart => Part::Atom,
            Stage::ArgumentStart => Part::Argument(self.number),
            Stage::Named => match token.kind {
                TokenKind::OpenRound => Part::OpenArguments,
                kind => self.part_behind(kind),
            },
            Stage::Done => self.part_behind(token.kind),
            Stage::Closed => Part::End,
            _ => Part::Other,
        }
    }

    /// How many brackets are open.
    pub(crate) fn open_brackets(&self) -> u64
        ensures { result ≡ spec.open_brackets (state_of self.now) }
    {
        let in_brackets = if self.in_brackets { 1 } else { 0 };
        let round_literals = self.brackets as u64 + 1;
        let arguments = self.arguments.len() as u64;
        match self.stage {
            Stage::Between | Stage::Begun | Stage::Closed => 0,
            Stage::FormulaStart
            | Stage::LiteralStart
            | Stage::Negated
            | Stage::LiteralEnd
            | Stage::FormulaEnd => round_literals,
            Stage::AtomStart => round_literals + 1,
            Stage::ArgumentStart => arguments + 1 + in_brackets + round_literals,
            Stage::Named | Stage::Done => arguments + in_brackets + round_literals,
            Stage::Notes => self.notes.len() as u64 + 1,
            _ => 1,
        }
    }
}
