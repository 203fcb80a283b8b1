//! Calls of the program over a source and a sink in memory, which fail at chosen calls.
use darwin_cli::run;
use me_io::{MemSink, MemSource};
use std::alloc::{AllocError, Global};
use std::sync::Wait;
use std::thread::Threads;
use steal_pool::NoGate;

/// How many bytes one call of the source gives at most.
const READ_PIECE: u64 = 8;

/// How many bytes one call of the sink takes at most.
const WRITTEN_PIECE: u64 = 16;

/// The words after the program's name, what is read, and the numbers of the calls of the source and of the sink
/// that fail, or 0.
#[derive(Drop)]
pub(crate) struct Call<'a> {
    pub(crate) words: &'a [&'a str],
    pub(crate) file: &'a [u8],
    pub(crate) failing_read: u64,
    pub(crate) failing_write: u64,
}

impl Call<'_> {
    /// The status and what was written. Only what the test itself needs beside the call is asked for by `?`.
    pub(crate) fn made<R: Threads + Wait + Sync>(
        &self,
        rt: &R,
        alloc: Global,
    ) -> Result<(u8, MemSink), AllocError> {
        let mut words = Vec::new(alloc);
        words.push(String::from_str(alloc, "darwin")?)?;
        for word in self.words {
            words.push(String::from_str(alloc, word)?)?;
        }
        let file = self.file.to_vec(alloc)?;
        let mut source = MemSource::new(file, READ_PIECE, only(alloc, self.failing_read)?);
        let mut sink = MemSink::new(alloc, WRITTEN_PIECE, only(alloc, self.failing_write)?);
        let status = run(rt, alloc, &words, &mut source, &mut sink, &NoGate);
        Ok((status, sink))
    }
}

/// The list of one call that fails, or of none.
fn only(alloc: Global, number: u64) -> Result<Vec<u64>, AllocError> {
    let mut numbers = Vec::new(alloc);
    if number > 0 {
        numbers.push(number)?;
    }
    Ok(numbers)
}
