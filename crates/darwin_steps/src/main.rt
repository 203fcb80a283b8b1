//! Reads a problem from standard input, and writes each step of its search, with a line for each.
//!
//! The words are those of `darwin`, of which `--make` is refused and those of deepening say nothing. A refusal
//! is written as `darwin` writes it, with the same status.
#![tactic(auto)]

ghost use Rattle.std.specs.Prelude.{IfOk};
ghost use Rattle.me_terms.specs.Validity.{IsValid};
ghost use Rattle.darwin_options.specs.Ranges.{IsInRange};

mod hidden;
mod step_text;
mod walk;

use crate::walk::{Stop, walk};
use darwin_options::{Options, WordsError, read_words};
use me_io::{ReadError, Sink, Source, StdSink, StdSource, read_all};
use me_terms::Problem;
use std::alloc::Global;
use std::io::ErrorKind;
use std::process::ExitCode;
use std::{env, io};
use szs_print::{Refusal, write_refusal};
use tptp_cnf::{CnfError, read_problem};

/// The name of a problem whose words give no options.
const DEFAULT_NAME: &[u8] = b"stdin";

/// The program's name and the words after it.
fn words_of(rt: &HostRuntime) -> io::Result<Vec<String>> {
    let mut words = Vec::new(rt.alloc());
    for word in env::args(rt)? {
        words.push(word)?;
    }
    Ok(words)
}

/// The options that the words ask for. A made problem is none of them.
fn options_of(alloc: Global, words: &Vec<String>) -> Result<Options, Refusal>
    ensures { IfOk result IsInRange }
{
    match read_words(alloc, words) {
        Ok(options) => {
            if options.make.is_some() {
                return Err(Refusal::Usage);
            }
            Ok(options)
        }
        Err(WordsError::Usage) => Err(Refusal::Usage),
        Err(WordsError::Memory) => Err(Refusal::Memory),
    }
}

/// The problem that the source holds.
fn problem_of<S: Source>(alloc: Global, source: &mut S) -> Result<Problem, Refusal>
    ensures { IfOk result IsValid }
{
    let bytes = match read_all(alloc, source) {
        Ok(bytes) => bytes,
        Err(ReadError::Fault) => return Err(Refusal::Read),
        Err(ReadError::TooLong) => return Err(Refusal::Length),
        Err(ReadError::Memory) => return Err(Refusal::Memory),
    };
    match read_problem(alloc, &bytes) {
        Ok(problem) => Ok(problem),
        Err(CnfError::Syntax { at }) => Err(Refusal::Syntax { at }),
        Err(CnfError::Inappropriate { what, at }) => Err(Refusal::Inappropriate { what, at }),
        Err(CnfError::Limit { which, at }) => Err(Refusal::Limit { which, at }),
        Err(CnfError::Memory) => Err(Refusal::Memory),
    }
}

/// Writes the refusal, and gives its exit status, or 6 where the sink failed.
fn tell<K: Sink>(sink: &mut K, name: &[u8], refusal: &Refusal) -> u8 {
    if write_refusal(sink, name, refusal).is_err() {
        return 6;
    }
    match refusal {
        Refusal::Usage => 1,
        Refusal::Syntax { .. } => 2,
        Refusal::Inappropriate { .. } => 3,
        Refusal::Limit { .. } | Refusal::Length => 4,
        Refusal::Read => 5,
        Refusal::Memory => 7,
    }
}

/// Writes the steps of the search for the source's problem, and gives the exit status.
fn run<S: Source, K: Sink>(alloc: Global, words: &Vec<String>, source: &mut S, sink: &mut K) -> u8 {
    let options = match options_of(alloc, words) {
        Ok(options) => options,
        Err(refusal) => return tell(sink, DEFAULT_NAME, &refusal),
    };
    let problem = match problem_of(alloc, source) {
        Ok(problem) => problem,
        Err(refusal) => return tell(sink, options.name.as_slice(), &refusal),
    };
    match walk(alloc, &problem, &options.bounds, sink) {
        Ok(()) => 0,
        Err(Stop::Sink) => 6,
        Err(Stop::Memory) => tell(sink, options.name.as_slice(), &Refusal::Memory),
    }
}

/// Why there are no words: one is no text, or there is no memory.
fn refusal_of(error: &io::Error) -> Refusal {
    match error.kind() {
        ErrorKind::InvalidData => Refusal::Usage,
        _ => Refusal::Memory,
    }
}

fn main(rt: HostRuntime) -> ExitCode {
    let alloc = rt.alloc();
    let mut source = StdSource::new(rt.stdin());
    let mut sink = StdSink::new(rt.stdout());
    ExitCode::from(match words_of(&rt) {
        Ok(words) => run(alloc, &words, &mut source, &mut sink),
        Err(error) => tell(&mut sink, DEFAULT_NAME, &refusal_of(&error)),
    })
}
