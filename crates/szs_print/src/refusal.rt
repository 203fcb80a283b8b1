//! Refusals as text.
//!
//! A refusal is written in pieces straight to a sink, so that it can be told when memory is out. Where the
//! sink fails, it is known how much of the text was written.
ghost use Rattle.std.specs.Prelude.{◌≡◌, ◌+◌, ◌++◌, ◌<◌, ◌≤◌, ◌^◌, length, OnOk, OnErr, IfErr};
ghost use Rattle.std.specs.List.{flat_map};
ghost use Rattle.std.specs.Io.KnownBytes.{Appends};
ghost use Rattle.me_io.specs.Source.{Rose};
ghost use Rattle.me_io.specs.Sink.{AppendedFront, written_before};
ghost use Rattle.szs_print.specs.Pieces.{AppendedFrontAfter};
ghost use Rattle.szs_print.specs.StatusText.{status_line, reason_line};
ghost use Rattle.szs_print.specs.RefusalText.{word_text, what_text, which_text, cause_text, refusal_place, refusal_text};

use itoa::Buffer;
use me_io::{MAX_BYTES, Sink, WriteError, write_all};
use tptp_grammar::{What, Which};

/// Why a problem was not answered. Each place is an offset in the file, from 0.
#[derive(Clone, Copy, Debug, PartialEq, Eq)]
pub enum Refusal {
    /// The words of the call are not accepted.
    Usage,
    /// The file is refused by the grammar.
    Syntax { at: u64 },
    /// The file asks for something outside of the profile.
    Inappropriate { what: What, at: u64 },
    /// The file passes a limit.
    Limit { which: Which, at: u64 },
    /// The file has more than `MAX_BYTES` bytes.
    Length,
    /// The file can't be read to its end.
    Read,
    /// Memory is out.
    Memory,
}

/// The word for what a file asks for.
fn what_bytes(what: What) -> &'static [u8]
    ensures text { result.now ≡ what_text what }
    ensures short { length result.now ≤ 20 }
{
    match what {
        What::Equality => b"equality",
        What::Language => b"language",
        What::Include => b"include",
        What::Number => b"number",
        What::Defined => b"defined",
        What::Conjecture => b"conjecture",
        What::Role => b"role",
    }
}

/// The words for the limit that a file passes.
fn which_bytes(which: Which) -> &'static [u8]
    ensures text { result.now ≡ which_text which }
    ensures short { length result.now ≤ 20 }
{
    match which {
        Which::Clauses => b"limit clauses",
        Which::Literals => b"limit literals",
        Which::Variables => b"limit variables",
        Which::Arguments => b"limit arguments",
        Which::Nesting => b"limit nesting",
    }
}

impl Refusal {
    ghost use Rattle.std.specs.Prelude.{◌≡◌, ◌≤◌, length};

    /// The SZS word.
    fn word(&self) -> &'static [u8]
        ensures text { result.now ≡ word_text self.now }
        ensures short { length result.now ≤ 20 }
    {
        match self {
            Refusal::Usage => b"UsageError",
            Refusal::Syntax { .. } => b"SyntaxError",
            Refusal::Inappropriate { .. } => b"Inappropriate",
            Refusal::Limit { .. } | Refusal::Length => b"ResourceOut",
            Refusal::Read => b"OSError",
            Refusal::Memory => b"MemoryOut",
        }
    }

    /// The words for the cause.
    fn cause(&self) -> &'static [u8]
        ensures text { result.now ≡ cause_text self.now }
        ensures short { length result.now ≤ 20 }
    {
        match self {
            Refusal::Usage => b"words",
            Refusal::Syntax { .. } => b"syntax",
            Refusal::Inappropriate { what, .. } => what_bytes(*what),
            Refusal::Limit { which, .. } => which_bytes(*which),
            Refusal::Length => b"limit length",
            Refusal::Read => b"read",
            Refusal::Memory => b"memory",
        }
    }

    /// The place that is named.
    fn place(&self) -> Option<u64>
        ensures { result ≡ refusal_place self.now }
    {
        match self {
            Refusal::Syntax { at }
            | Refusal::Inappropriate { at, .. }
            | Refusal::Limit { at, .. } => Some(*at),
            Refusal::Length => Some(MAX_BYTES as u64),
            Refusal::Usage | Refusal::Read | Refusal::Memory => None,
        }
    }
}

/// Writes a piece of a text, of which `before` bytes are written. A fault counts these too.
fn write_piece<K: Sink>(sink: &mut K, before: u64, piece: &[u8]) -> Result<(), WriteError>
    requires { before + length piece.now < 2 ^ 64 }
    ensures all { OnOk result (Appends (K.written sink.old) (K.written sink.new) piece.now) }
    ensures front { IfErr result (λ e. AppendedFrontAfter (K.written sink.old) (K.written sink.new) before piece.now e) }
    ensures later { K.faults sink.old ≤ K.faults sink.new }
    ensures fault { OnErr result (Rose (K.faults sink.old) (K.faults sink.new)) }
{
    match write_all(sink, piece) {
        Ok(()) => Ok(()),
        Err(WriteError::Fault { written }) => Err(WriteError::Fault {
            written: before + written,
        }),
    }
}

/// Writes the pieces, one after another.
fn write_pieces<K: Sink>(sink: &mut K, pieces: &[&[u8]]) -> Result<(), WriteError>
    requires { length (flat_map (λ piece. piece.now) pieces.now) < 2 ^ 64 }
    ensures all { OnOk result (Appends (K.written sink.old) (K.written sink.new) (flat_map (λ piece. piece.now) pieces.now)) }
    ensures front { IfErr result (λ e. AppendedFront (K.written sink.old) (K.written sink.new) (written_before e) (flat_map (λ piece. piece.now) pieces.now)) }
    ensures later { K.faults sink.old ≤ K.faults sink.new }
    ensures fault { OnErr result (Rose (K.faults sink.old) (K.faults sink.new)) }
{
    let mut written = 0;
    for piece in pieces {
        if let Err(fault) = write_piece(sink, written, piece) {
            return Err(fault);
        }
        written += piece.len() as u64;
    }
    Ok(())
}

/// Writes the line of the status and that of the reason, which is the cause and the place.
fn write_lines<'a, K: Sink>(
    sink: &mut K,
    name: &'a [u8],
    word: &'a [u8],
    cause: &'a [u8],
    at: &'a [u8],
    digits: &'a [u8],
) -> Result<(), WriteError>
    requires { length word.now + length cause.now + length at.now + length digits.now < 200 }
    ensures all { OnOk result (Appends (K.written sink.old) (K.written sink.new) (status_line word.now name.now ++ reason_line (cause.now ++ (at.now ++ digits.now)))) }
    ensures front { IfErr result (λ e. AppendedFront (K.written sink.old) (K.written sink.new) (written_before e) (status_line word.now name.now ++ reason_line (cause.now ++ (at.now ++ digits.now)))) }
    ensures later { K.faults sink.old ≤ K.faults sink.new }
    ensures fault { OnErr result (Rose (K.faults sink.old) (K.faults sink.new)) }
{
    let pieces: [&'a [u8]; 9] = [
        b"% SZS status ",
        word,
        b" for ",
        name,
        b"\n% reason ",
        cause,
        at,
        digits,
        b"\n",
    ];
    write_pieces(sink, &pieces)
}

/// Writes the text of the refusal to the sink, under the problem's name. It takes no memory. The error
/// counts the bytes of this text that were written.
pub fn write_refusal<K: Sink>(
    sink: &mut K,
    name: &[u8],
    refusal: &Refusal,
) -> Result<(), WriteError>
    ensures all { OnOk result (Appends (K.written sink.old) (K.written sink.new) (refusal_text name.now refusal.now)) }
    ensures front { IfErr result (λ e. AppendedFront (K.written sink.old) (K.written sink.new) (written_before e) (refusal_text name.now refusal.now)) }
    ensures later { K.faults sink.old ≤ K.faults sink.new }
    ensures fault { OnErr result (Rose (K.faults sink.old) (K.faults sink.new)) }
{
    match refusal.place() {
        Some(at) => {
            let mut buffer = Buffer::new();
            let digits = buffer.format(at).as_bytes();
            write_lines(sink, name, refusal.word(), refusal.cause(), b" at ", digits)
        }
        None => write_lines(sink, name, refusal.word(), refusal.cause(), b"", b""),
    }
}
