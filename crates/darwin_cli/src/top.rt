//! The top calls.
//!
//! They take everything from outside through their arguments, so what they do is known for every source and
//! every sink. Each status but 7 comes for its cause alone.
ghost use Rattle.std.specs.Prelude.{◌≡◌, ◌≢◌, None, IsSome, IfOk, IfErr};
ghost use Rattle.szs_print.specs.RefusalText.{refusal_text};
ghost use Rattle.darwin_options.specs.Ranges.{IsInRange};
ghost use Rattle.darwin_cli.specs.Calls.{AskForFile, AskForMade, CallStood, CallWrote, WroteOneText, words_told_as};
ghost use Rattle.darwin_cli.specs.Outcome.{status_of as status_number};
ghost use Rattle.darwin_cli.specs.Statuses.{IsFileStatus, IsMadeStatus, IsWrittenOut, OptionsWrote, TextStood};

use crate::answer::{text_alone, text_by_pool};
use darwin_options::{Options, WordsError, read_words};
use me_io::{Sink, Source, write_all};
use std::alloc::Global;
use std::sync::Wait;
use std::thread::Threads;
use steal_pool::Gate;
use szs_print::{Refusal, write_refusal};

/// The name of a problem whose words give no options.
const DEFAULT_NAME: &[u8] = b"stdin";

/// Reads the words, and the problem from the source unless they ask for a made one, solves it, and writes
/// the answer or the refusal to the sink.
///
/// `words` are the program's name and the options. The result is the exit status: 0 where an answer was
/// written, 1 for words that are not accepted, 2 for a file that is refused by the grammar, 3 for one that
/// lies outside of the profile, 4 for one that passes a limit, 5 for a fault of the source, 6 for a fault of
/// the sink, and 7 for want of memory. One worker is this thread alone; two and more are a pool, whose
/// workers come to the gate. Each number of workers gets the same answer.
pub fn run<R: Threads + Wait + Sync, S: Source, K: Sink, G: Gate>(
    rt: &R,
    alloc: Global,
    words: &Vec<String>,
    source: &mut S,
    sink: &mut K,
    gate: &G,
) -> u8
    ensures wrote { CallWrote S.left S.given S.ended S.faults K.written K.faults words.now.items source.old source.new sink.old sink.new result }
    // Once the text of an answer stands only 0 and 6 remain.
    ensures stands { CallStood S.left S.given S.ended S.faults K.written K.faults words.now.items source.old source.new sink.old sink.new result }
    // The text depends on no number of workers, share, gate or schedule.
    ensures one_text { result ≡ 0 → WroteOneText S.left S.given S.ended S.faults words.now.items source.old source.new (K.written sink.old) (K.written sink.new) }
    ensures file { AskForFile words.now.items → IsFileStatus S.left S.faults K.faults source.old source.new sink.old sink.new result }
    ensures made { AskForMade words.now.items → IsMadeStatus S.left S.faults K.faults source.old source.new sink.old sink.new result }
{
    match read_words(alloc, words) {
        Ok(options) => run_options(rt, alloc, &options, source, sink, gate),
        Err(error) => tell(sink, DEFAULT_NAME, &refusal_of(error)),
    }
}

/// Why words gave no options.
fn refusal_of(error: WordsError) -> Refusal
    ensures { result ≡ words_told_as error }
{
    match error {
        WordsError::Usage => Refusal::Usage,
        WordsError::Memory => Refusal::Memory,
    }
}

/// What `run` does after the words, on one thread, whatever number of workers the options ask for.
pub fn run_alone<S: Source, K: Sink>(
    alloc: Global,
    options: &Options,
    source: &mut S,
    sink: &mut K,
) -> u8
    requires { IsInRange options.now }
    ensures wrote { OptionsWrote S.left S.given S.ended S.faults K.written K.faults options.now source.old source.new sink.old sink.new result }
    ensures stands { TextStood S.left S.given S.ended S.faults K.written K.faults options.now source.old source.new sink.old sink.new result }
    ensures file { options.now.make ≡ None → IsFileStatus S.left S.faults K.faults source.old source.new sink.old sink.new result }
    ensures made { IsSome options.now.make → IsMadeStatus S.left S.faults K.faults source.old source.new sink.old sink.new result }
{
    let found = text_alone(alloc, options, source);
    write_out(sink, options, found)
}

/// What `run` does after the words. Its clauses are those of `run_alone`.
fn run_options<R: Threads + Wait + Sync, S: Source, K: Sink, G: Gate>(
    rt: &R,
    alloc: Global,
    options: &Options,
    source: &mut S,
    sink: &mut K,
    gate: &G,
) -> u8
    requires { IsInRange options.now }
    ensures wrote { OptionsWrote S.left S.given S.ended S.faults K.written K.faults options.now source.old source.new sink.old sink.new result }
    ensures stands { TextStood S.left S.given S.ended S.faults K.written K.faults options.now source.old source.new sink.old sink.new result }
    ensures file { options.now.make ≡ None → IsFileStatus S.left S.faults K.faults source.old source.new sink.old sink.new result }
    ensures made { IsSome options.now.make → IsMadeStatus S.left S.faults K.faults source.old source.new sink.old sink.new result }
{
    if options.workers == 1 {
        return run_alone(alloc, options, source, sink);
    }
    let found = text_by_pool(rt, alloc, options, source, gate);
    write_out(sink, options, found)
}

/// Writes the text that was found, or the refusal in its place, and gives the exit status, which is 6 where
/// the sink failed.
fn write_out<K: Sink>(sink: &mut K, options: &Options, found: Result<Vec<u8>, Refusal>) -> u8
    ensures text { IfOk found (λ text. IsWrittenOut (K.written sink.old) (K.written sink.new) (K.faults sink.old) (K.faults sink.new) 0 text.items result) }
    ensures refusal { IfErr found (λ refusal. IsWrittenOut (K.written sink.old) (K.written sink.new) (K.faults sink.old) (K.faults sink.new) (status_number refusal) (refusal_text options.now.name.items refusal) result) }
{
    match found {
        Ok(text) => write_text(sink, &text),
        Err(refusal) => tell(sink, options.name.as_slice(), &refusal),
    }
}

/// Writes the text of an answer, and gives the exit status 0, or 6 where the sink failed.
fn write_text<K: Sink>(sink: &mut K, text: &[u8]) -> u8
    ensures { IsWrittenOut (K.written sink.old) (K.written sink.new) (K.faults sink.old) (K.faults sink.new) 0 text.now result }
{
    match write_all(sink, text) {
        Ok(()) => 0,
        Err(_) => 6,
    }
}

/// Writes the refusal, and gives its exit status, or 6 where the sink failed.
fn tell<K: Sink>(sink: &mut K, name: &[u8], refusal: &Refusal) -> u8
    ensures { IsWrittenOut (K.written sink.old) (K.written sink.new) (K.faults sink.old) (K.faults sink.new) (status_number refusal.now) (refusal_text name.now refusal.now) result }
{
    match write_refusal(sink, name, refusal) {
        Ok(()) => status_of(refusal),
        Err(_) => 6,
    }
}

/// The exit status of a refusal.
fn status_of(refusal: &Refusal) -> u8
    ensures status { result ≡ status_number refusal.now }
    ensures own { result ≢ 6 }
{
    match refusal {
        Refusal::Usage => 1,
        Refusal::Syntax { .. } => 2,
        Refusal::Inappropriate { .. } => 3,
        Refusal::Limit { .. } | Refusal::Length => 4,
        Refusal::Read => 5,
        Refusal::Memory => 7,
    }
}
