//! Reads a problem from standard input, and writes a refutation or a model to standard output.
#![tactic(auto)]

use darwin_cli::run;
use me_io::{StdSink, StdSource};
use std::io::ErrorKind;
use std::process::ExitCode;
use std::{env, io};
use steal_pool::NoGate;
use szs_print::{Refusal, write_refusal};

/// The program's name and the words after it.
fn words_of(rt: &HostRuntime) -> io::Result<Vec<String>> {
    let mut words = Vec::new(rt.alloc());
    for word in env::args(rt)? {
        words.push(word)?;
    }
    Ok(words)
}

fn main(rt: HostRuntime) -> ExitCode {
    let alloc = rt.alloc();
    let mut source = StdSource::new(rt.stdin());
    let mut sink = StdSink::new(rt.stdout());
    let status = match words_of(&rt) {
        Ok(words) => run(&rt, alloc, &words, &mut source, &mut sink, &NoGate),
        Err(error) => match error.kind() {
            // A word that is no text is not accepted, and neither is a list without words.
            ErrorKind::InvalidData => {
                let none = Vec::new(alloc);
                run(&rt, alloc, &none, &mut source, &mut sink, &NoGate)
            }
            _ => match write_refusal(&mut sink, b"stdin", &Refusal::Memory) {
                Ok(()) => 7,
                Err(_) => 6,
            },
        },
    };
    ExitCode::from(status)
}
