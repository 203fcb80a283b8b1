//! A file is read as a problem.
//!
//! The tokens of the bytes are taken one after another, each by the machine of the grammar, which says
//! what it is in the file or refuses it, and by the builder of the problem.
ghost use Rattle.std.specs.Prelude.{◌≡◌, ◌+◌, ◌-◌, ◌≤◌, ◌^◌, length, OnOk, IfOk, IfErr};
ghost use Rattle.me_io.specs.declared.source.TheConstants.{MAX_BYTES};
ghost use Rattle.me_terms.specs.Validity.{IsValid};
ghost use Rattle.tptp_cnf.specs.Files.{IsFile, clauses_weight};
ghost use Rattle.tptp_cnf.specs.Causes.{IsErrorCause};

use crate::builder::Builder;
use crate::error::CnfError;
use me_terms::Problem;
use std::alloc::Global;
use tptp_grammar::{Machine, StepError};
use tptp_tokens::{Token, Tokenizer};

/// What was read so far.
#[derive(Drop)]
struct Reader<'a> {
    machine: Machine<'a>,
    builder: Builder<'a>,
}

impl<'a> Reader<'a> {
    ghost use Rattle.tptp_grammar.specs.Machine.{CountsUpTo, part_at};
    ghost use Rattle.tptp_grammar.specs.MachineViews.{reading};
    ghost use Rattle.tptp_grammar.specs.Readings.{verdict, GoesOn};
    ghost use Rattle.tptp_grammar.specs.Views.{terminal_of};
    ghost use Rattle.tptp_cnf.specs.Rows.{IsNumberable, fed};
    ghost use Rattle.tptp_cnf.specs.Views.{draft, TellsAt};

    /// Takes a token. After an `Err` the reader is of no use.
    fn step(&mut self, alloc: Global, token: &Token<'a>) -> Result<(), CnfError>
        requires counts { CountsUpTo (2 ^ 32 - 2) (reading self.old.machine).state }
        requires numbers { IsNumberable (draft self.old.builder) }
        ensures goes { OnOk result (verdict (reading self.old.machine) (terminal_of token.now) ≡ GoesOn (reading self.new.machine)) }
        ensures fed { OnOk result (draft self.new.builder ≡ fed (draft self.old.builder) (part_at (reading self.old.machine).state (terminal_of token.now)) (terminal_of token.now)) }
        ensures refused { IfErr result (TellsAt token.now.at (verdict (reading self.old.machine) (terminal_of token.now))) }
    {
        let part = match self.machine.step(token) {
            Ok(part) => part,
            Err(StepError::Refused(refusal)) => return Err(CnfError::refused(refusal, token.at)),
            Err(StepError::Memory) => return Err(CnfError::Memory),
        };
        self.builder.take(alloc, part, token)?;
        Ok(())
    }
}

/// The problem that the bytes mean as a file of the profile, which is valid. The sum of its clauses'
/// weights, its number of functions and its number of predicates are each at most one more than the
/// number of bytes. Each refusal but `Memory` has its cause at its place.
pub fn read_problem(alloc: Global, bytes: &[u8]) -> Result<Problem, CnfError>
    requires { length bytes.now ≤ MAX_BYTES }
    ensures means { IfOk result (IsFile bytes.now) }
    ensures cause { IfErr result (IsErrorCause bytes.now) }
    ensures valid { IfOk result IsValid }
    ensures weight { IfOk result (λ problem. clauses_weight problem.clauses ≤ length bytes.now + 1) }
    ensures functions { IfOk result (λ problem. length problem.signature.functions ≤ length bytes.now + 1) }
    ensures predicates { IfOk result (λ problem. length problem.signature.predicates ≤ length bytes.now + 1) }
{
    let mut tokenizer = Tokenizer::new(bytes);
    let mut reader = Reader {
        machine: Machine::new(alloc),
        builder: Builder::new(alloc),
    };
    'tokens: while let Some(token) = tokenizer.next() {
        reader.step(alloc, &token)?;
    }
    let Reader { machine, builder } = reader;
    if !machine.is_whole() {
        return Err(CnfError::Syntax {
            at: bytes.len() as u64,
        });
    }
    Ok(builder.finish(alloc)?)
}
