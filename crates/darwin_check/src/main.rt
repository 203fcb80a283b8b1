//! Reads a problem and a printed answer from standard input, and writes to standard output whether the
//! answer shows what it claims.
#![tactic(auto)]

use answer_check::run_check;
use me_io::{StdSink, StdSource};
use std::io::ErrorKind;
use std::process::ExitCode;
use std::{env, io};
use szs_print::{Refusal, write_refusal};

/// The program's name and the words after it.
fn words_of(rt: &HostRuntime) -> io::Result<Vec<String>> {
    let mut words = Vec::new(rt.alloc());
    for word in env::args(rt)? {
        words.push(word)?;
    }
    Ok(words)
}

fn main(rt: HostRuntime) -> ExitCode {
    let alloc = rt.alloc();
    let mut source = StdSource::new(rt.stdin());
    let mut sink = StdSink::new(rt.stdout());
    let status = match words_of(&rt) {
        Ok(words) => run_check(alloc, &words, &mut source, &mut sink),
        Err(error) => match error.kind() {
            // A word that is no text is not accepted, and neither is a list without words.
            ErrorKind::InvalidData => {
                let none = Vec::new(alloc);
                run_check(alloc, &none, &mut source, &mut sink)
            }
            _ => match write_refusal(&mut sink, b"stdin", &Refusal::Memory) {
                Ok(()) => 7,
                Err(_) => 6,
            },
        },
    };
    ExitCode::from(status)
}
