//! The top call.
//!
//! It takes everything from outside through its arguments, so what it does is known for every source and
//! every sink. Each status but 7 comes for its cause alone.
ghost use Rattle.std.specs.Prelude.{◌≡◌, ◌≢◌, IfOk, IfErr};
ghost use Rattle.szs_print.specs.RefusalText.{refusal_text};
ghost use Rattle.answer_check.specs.Checks.{CheckWrote, IsCause, IsChecked, IsWrittenOut, check_name, refusal_status};

use crate::checking::{Checked, check_input};
use me_io::{ReadError, Sink, Source, read_all, write_all};
use std::alloc::Global;
use szs_print::{Refusal, write_refusal};

/// The name in the text of a refusal.
const NAME: &[u8] = b"stdin";

/// The text of what is said of the bytes of the source, or why there is none.
fn check_source<S: Source>(alloc: Global, source: &mut S) -> Result<Checked, Refusal>
    ensures checked { IfOk result (λ checked. IsChecked S.left S.given S.ended source.old source.new checked.status checked.text.items) }
    ensures own { IfOk result (λ checked. checked.status ≢ 6) }
    ensures refused { IfErr result (IsCause S.left S.given S.ended S.faults source.old source.new) }
{
    match read_all(alloc, source) {
        Ok(input) => check_input(alloc, &input),
        Err(ReadError::Fault) => Err(Refusal::Read),
        Err(ReadError::TooLong) => Err(Refusal::Length),
        Err(ReadError::Memory) => Err(Refusal::Memory),
    }
}

/// Reads a problem and a printed answer from the source, and writes to the sink whether the answer shows
/// what it claims, or why it was not checked.
///
/// `words` are the program's name alone. The result is the exit status: 0 for a yes, 1 for words that are
/// not accepted, 2 for a problem that is refused by the grammar, 3 for one that lies outside of the
/// profile, 4 for one that passes a limit, 5 for a fault of the source, 6 for a fault of the sink, 7 for
/// want of memory, 8 for a no, 9 for an answer that can't be read, and 10 for one that claims nothing.
pub fn run_check<S: Source, K: Sink>(
    alloc: Global,
    words: &Vec<String>,
    source: &mut S,
    sink: &mut K,
) -> u8
    ensures wrote { CheckWrote S.left S.given S.ended S.faults K.written K.faults words.now.items source.old source.new sink.old sink.new result }
{
    if words.len() != 1 {
        return tell(sink, &Refusal::Usage);
    }
    match check_source(alloc, source) {
        Ok(checked) => write_text(sink, &checked.text, checked.status),
        Err(refusal) => tell(sink, &refusal),
    }
}

/// Writes the text, and gives the status, or 6 where the sink failed.
fn write_text<K: Sink>(sink: &mut K, text: &[u8], status: u8) -> u8
    requires { status ≢ 6 }
    ensures { IsWrittenOut (K.written sink.old) (K.written sink.new) (K.faults sink.old) (K.faults sink.new) status text.now result }
{
    match write_all(sink, text) {
        Ok(()) => status,
        Err(_) => 6,
    }
}

/// Writes the refusal, and gives its exit status, or 6 where the sink failed.
fn tell<K: Sink>(sink: &mut K, refusal: &Refusal) -> u8
    ensures { IsWrittenOut (K.written sink.old) (K.written sink.new) (K.faults sink.old) (K.faults sink.new) (refusal_status refusal.now) (refusal_text check_name refusal.now) result }
{
    match write_refusal(sink, NAME, refusal) {
        Ok(()) => status_of(refusal),
        Err(_) => 6,
    }
}

/// The exit status of a refusal.
fn status_of(refusal: &Refusal) -> u8
    ensures { result ≡ refusal_status refusal.now }
{
    match refusal {
        Refusal::Usage => 1,
        Refusal::Syntax { .. } => 2,
        Refusal::Inappropriate { .. } => 3,
        Refusal::Limit { .. } | Refusal::Length => 4,
        Refusal::Read => 5,
        Refusal::Memory => 7,
    }
}
