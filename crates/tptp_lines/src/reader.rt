//! The reader of lines.
//!
//! Each token goes to the grammar's machine, or, from the word `include` to the full stop, to a few stages of the
//! reader's own, in which the machine stands still between two formulas.
ghost use Rattle.std.specs.Prelude.{◌≡◌, ◌≢◌, ◌<◌, ◌-◌, ◌^◌, [], ◌∷◌, ◌++◌, map, Some, None, IfOk, IfErr, OnOk, OnErr, IfSome, IfNone, IsTrue, ◌↔◌};
ghost use Rattle.tptp_cnf.specs.Rows.{label_as, no_label};
ghost use Rattle.tptp_grammar.specs.Refusals.{is_include as includes};
ghost use Rattle.tptp_grammar.specs.Views.{terminal_of};
ghost use Rattle.tptp_cnf.specs.Causes.{error_of};
ghost use Rattle.tptp_grammar.specs.Terminals as terminal;
ghost use Rattle.tptp_grammar.specs.declared.part.Part.TheVariants as part;
ghost use Rattle.tptp_lines.specs.Progress as progress_of;

use crate::line::{Labels, Line, Lines};
use crate::stage::Stage;
use me_terms::{Form, Label, Sequence, Text};
use std::alloc::{AllocError, Global};
use std::mem;
use tptp_cnf::CnfError;
use tptp_grammar::{Machine, Part, Refusal, StepError};
use tptp_tokens::{Token, TokenKind, text_of};

/// A label without text.
fn no_name(alloc: Global) -> Label
    ensures { result ≡ no_label }
{
    Label {
        form: Form::Word,
        text: Text::new(alloc),
    }
}

/// The label that the token is as a name.
fn label(alloc: Global, token: &Token<'_>) -> Result<Label, AllocError>
    ensures { IfOk result (λ label. label ≡ label_as (terminal_of token.now)) }
{
    let form = match token.kind {
        TokenKind::LowerWord | TokenKind::SingleQuoted => Form::Word,
        TokenKind::Distinct => Form::Distinct,
        TokenKind::Digits => Form::Number,
        _ => return Ok(no_name(alloc)),
    };
    Ok(Label {
        form,
        text: text_of(alloc, token)?,
    })
}

/// The text of the name of a file.
fn file_name(alloc: Global, token: &Token<'_>) -> Result<Text, AllocError>
    ensures { IfOk result (λ text. text.items ≡ progress_of.text_of_name (terminal_of token.now)) }
{
    match token.kind {
        TokenKind::SingleQuoted => text_of(alloc, token),
        _ => Ok(Text::new(alloc)),
    }
}

/// Whether the token is the word that begins an include.
fn is_include(token: &Token<'_>) -> bool
    ensures { result ≡ includes (terminal_of token.now) }
{
    match token.kind {
        TokenKind::LowerWord => token.text == b"include".as_slice(),
        _ => false,
    }
}

/// The error that the token at this place is refused so.
fn refused(refusal: Refusal, at: u64) -> CnfError
    ensures { result ≡ error_of refusal at }
{
    match refusal {
        Refusal::Syntax => CnfError::Syntax { at },
        Refusal::Inappropriate(what) => CnfError::Inappropriate { what, at },
        Refusal::Limit(which) => CnfError::Limit { which, at },
    }
}

/// The stage behind a token of an include, if an include goes on with it.
fn include_step(stage: Stage, token: &Token<'_>) -> Option<Stage>
    ensures { result ≡ progress_of.include_step stage (terminal_of token.now) }
{
    match (stage, token.kind) {
        (Stage::Included, TokenKind::OpenRound) => Some(Stage::Opened),
        (Stage::Opened, TokenKind::SingleQuoted) => Some(Stage::Named),
        (Stage::Named, TokenKind::Comma) => Some(Stage::Selecting),
        (Stage::Selecting, TokenKind::OpenSquare) => Some(Stage::Picking),
        (Stage::Picking, TokenKind::LowerWord | TokenKind::SingleQuoted | TokenKind::Digits) =>
            Some(Stage::Picked),
        (Stage::Picked, TokenKind::Comma) => Some(Stage::Picking),
        (Stage::Picked, TokenKind::CloseSquare) => Some(Stage::Selected),
        (Stage::Named | Stage::Selected, TokenKind::CloseRound) => Some(Stage::Closed),
        (Stage::Closed, TokenKind::Dot) => Some(Stage::Formula),
        _ => None,
    }
}

/// Puts an item at the end.
fn push<T: Drop>(list: &mut Sequence<T>, item: T) -> Result<(), AllocError>
    ensures { OnOk result (list.new.items ≡ list.old.items ++ item ∷ []) }
{
    match list.push(item) {
        Ok(()) => Ok(()),
        Err(_) => Err(AllocError),
    }
}

/// The names that an include picks: none where it has no selection, since a selection isn't empty.
fn some_picks(picks: Labels) -> Option<Labels>
    ensures some { IfSome result (λ labels. (labels.items ≡ picks.items) × (labels.items ≢ [])) }
    ensures none { IfNone result (picks.items ≡ []) }
{
    if picks.is_empty() { None } else { Some(picks) }
}

/// The lines that were read, and what was read of the next one.
#[derive(Drop)]
pub(crate) struct Reader<'a> {
    machine: Machine<'a>,
    stage: Stage,
    /// The name of the formula that is being read.
    label: Label,
    /// The place of its first byte.
    from: u64,
    /// The file that is being included.
    file: Text,
    /// The names that are picked of it.
    picks: Labels,
    lines: Lines,
}

impl<'a> Reader<'a> {
    ghost use Rattle.tptp_grammar.specs.Machine.{CountsUpTo, part_at, Between};
    ghost use Rattle.tptp_grammar.specs.MachineViews.{reading};
    ghost use Rattle.tptp_grammar.specs.Readings.{start_reading, verdict, GoesOn};
    ghost use Rattle.tptp_cnf.specs.Views.{TellsAt};
    ghost use Rattle.tptp_lines.specs.Progress.{include_fed, formula_fed, at_stage};
    ghost use Rattle.tptp_lines.specs.LineViews.{line_value};
    ghost use Rattle.tptp_lines.specs.ProgressViews.{progress, BeginsInclude, GoesOnAt, TellsWhy};
    ghost use Rattle.tptp_lines.specs.declared.stage.Stage.TheVariants as stage;

    /// Nothing is read so far.
    pub(crate) fn new(alloc: Global) -> Self
        ensures { progress result ≡ record { reading = start_reading; stage = stage.Formula; label = no_label; from = 0; file = []; picks = []; lines = [] } }
    {
        Reader {
            machine: Machine::new(alloc),
            stage: Stage::Formula,
            label: no_name(alloc),
            from: 0,
            file: Text::new(alloc),
            picks: Labels::new(alloc),
            lines: Lines::new(alloc),
        }
    }

    /// The formula that was read becomes a line, whose last byte is this token.
    fn end_formula(&mut self, alloc: Global, token: &Token<'a>) -> Result<(), AllocError>
        requires { token.now.at < 2 ^ 64 - 1 }
        ensures { OnOk result (progress self.new ≡ formula_fed part.End token.now.at (terminal_of token.now) (progress self.old).reading (progress self.old)) }
    {
        let label = mem::replace(&mut self.label, no_name(alloc));
        let line = Line::Formula {
            label,
            from: self.from,
            to: token.at + 1,
        };
        push(&mut self.lines, line)
    }

    /// Takes a token of a formula. After an `Err` the reader is of no use.
    fn formula(&mut self, alloc: Global, token: &Token<'a>) -> Result<(), CnfError>
        requires counts { CountsUpTo (2 ^ 32 - 2) (progress self.old).reading.state }
        requires place { token.now.at < 2 ^ 64 - 1 }
        ensures goes { OnOk result (verdict (progress self.old).reading (terminal_of token.now) ≡ GoesOn (progress self.new).reading) }
        ensures fed { OnOk result (progress self.new ≡ formula_fed (part_at (progress self.old).reading.state (terminal_of token.now)) token.now.at (terminal_of token.now) (progress self.new).reading (progress self.old)) }
        ensures refused { IfErr result (TellsAt token.now.at (verdict (progress self.old).reading (terminal_of token.now))) }
    {
        let part = match self.machine.step(token) {
            Ok(part) => part,
            Err(StepError::Refused(refusal)) => return Err(refused(refusal, token.at)),
            Err(StepError::Memory) => return Err(CnfError::Memory),
        };
        match part {
            Part::Formula => self.from = token.at,
            Part::Label => self.label = label(alloc, token)?,
            Part::End => self.end_formula(alloc, token)?,
            _ => {}
        }
        Ok(())
    }

    /// The include that was read becomes a line.
    fn end_include(&mut self, alloc: Global) -> Result<(), AllocError>
        ensures { OnOk result (progress self.new ≡ include_fed stage.Closed terminal.Dot (progress self.old)) }
    {
        let file = mem::replace(&mut self.file, Text::new(alloc));
        let picks = mem::replace(&mut self.picks, Labels::new(alloc));
        let line = Line::Include {
            file,
            picks: some_picks(picks),
        };
        push(&mut self.lines, line)
    }

    /// Keeps what a token of an include says at this stage.
    fn note(&mut self, alloc: Global, token: &Token<'a>) -> Result<(), AllocError>
        ensures { OnOk result (progress self.new ≡ include_fed self.old.stage (terminal_of token.now) (progress self.old)) }
    {
        match self.stage {
            Stage::Opened => {
                self.file = file_name(alloc, token)?;
                self.picks = Labels::new(alloc);
                Ok(())
            }
            Stage::Picking => push(&mut self.picks, label(alloc, token)?),
            Stage::Closed => self.end_include(alloc),
            _ => Ok(()),
        }
    }

    /// Takes a token of an include. After an `Err` the reader is of no use.
    fn include(&mut self, alloc: Global, token: &Token<'a>) -> Result<(), CnfError>
        requires { self.old.stage ≢ stage.Formula }
        ensures goes { OnOk result (GoesOnAt self.old.stage (progress self.old) token.now.at (terminal_of token.now) (progress self.new)) }
        ensures refused { IfErr result (TellsWhy self.old.stage (progress self.old) token.now.at (terminal_of token.now)) }
    {
        let Some(next) = include_step(self.stage, token) else {
            return Err(CnfError::Syntax { at: token.at });
        };
        self.note(alloc, token)?;
        self.stage = next;
        Ok(())
    }

    /// Takes a token. After an `Err` the reader is of no use.
    pub(crate) fn step(&mut self, alloc: Global, token: &Token<'a>) -> Result<(), CnfError>
        requires counts { CountsUpTo (2 ^ 32 - 2) (progress self.old).reading.state }
        requires place { token.now.at < 2 ^ 64 - 1 }
        ensures goes { OnOk result (GoesOnAt self.old.stage (progress self.old) token.now.at (terminal_of token.now) (progress self.new)) }
        ensures refused { IfErr result (TellsWhy self.old.stage (progress self.old) token.now.at (terminal_of token.now)) }
    {
        if self.stage != Stage::Formula {
            return self.include(alloc, token);
        }
        if self.machine.is_whole() && is_include(token) {
            self.stage = Stage::Included;
            return Ok(());
        }
        self.formula(alloc, token)
    }

    /// Whether all that was read is whole lines.
    pub(crate) fn is_whole(&self) -> bool
        ensures { IsTrue result ↔ ((self.now.stage ≡ stage.Formula) × ((progress self.now).reading.state ≡ Between)) }
    {
        self.stage == Stage::Formula && self.machine.is_whole()
    }

    /// The lines that were read.
    pub(crate) fn into_lines(self) -> Lines
        ensures { map line_value result.items ≡ (progress self.entry).lines }
    {
        let Reader {
            machine: _,
            stage: _,
            label: _,
            from: _,
            file: _,
            picks: _,
            lines,
        } = self;
        lines
    }
}
