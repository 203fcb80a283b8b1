//! Sources and sinks that fail at one of their calls.
use crate::calls::Call;
use std::test::Fail;

const CONTRADICTION: &[u8] = b"cnf(a,axiom,p). cnf(b,negated_conjecture,~p).\n";

const REFUTATION: &[u8] = b"% SZS status Unsatisfiable for stdin
% SZS output start Refutation for stdin
cnf(i1,plain,~p,instance(2,b)).
cnf(i2,plain,p,instance(1,a)).
% SZS output end Refutation for stdin
";

const UNREAD: &[u8] = b"% SZS status OSError for stdin
% reason read
";

const USAGE: &[u8] = b"% SZS status UsageError for stdin
% reason words
";

/// The words, the calls of the source and of the sink that fail, the status, the text that is due, and how many bytes
/// of it are written.
type DeviceRow = (&'static [&'static str], u64, u64, u8, &'static [u8], usize);

const DEVICES: [DeviceRow; 23] = [
    (&[], 0, 1, 6, REFUTATION, 0),
    (&[], 0, 2, 6, REFUTATION, 16),
    (&[], 0, 3, 6, REFUTATION, 32),
    (&[], 0, 4, 6, REFUTATION, 48),
    (&[], 0, 5, 6, REFUTATION, 64),
    (&[], 0, 6, 6, REFUTATION, 80),
    (&[], 0, 7, 6, REFUTATION, 96),
    (&[], 0, 8, 6, REFUTATION, 112),
    (&[], 0, 9, 6, REFUTATION, 128),
    (&[], 0, 10, 6, REFUTATION, 144),
    (&[], 0, 11, 6, REFUTATION, 160),
    (&[], 0, 12, 6, REFUTATION, 176),
    // Twelve calls write all.
    (&[], 0, 13, 0, REFUTATION, 178),
    (&[], 1, 0, 5, UNREAD, 45),
    (&[], 2, 0, 5, UNREAD, 45),
    (&[], 3, 0, 5, UNREAD, 45),
    (&[], 4, 0, 5, UNREAD, 45),
    (&[], 5, 0, 5, UNREAD, 45),
    (&[], 6, 0, 5, UNREAD, 45),
    (&[], 7, 0, 5, UNREAD, 45),
    // Seven calls read all and tell the end.
    (&[], 8, 0, 0, REFUTATION, 178),
    // The words are refused, and that cannot be written.
    (&["x"], 0, 1, 6, USAGE, 0),
    // The words are refused, and nothing is read.
    (&["x"], 1, 0, 1, USAGE, 49),
];

#[test]
fn a_device_that_fails_gives_its_status(rt: HostRuntime) -> Result<(), Fail> {
    let alloc = rt.alloc();
    for (words, failing_read, failing_write, status, text, length) in &DEVICES {
        let call = Call {
            words,
            file: CONTRADICTION,
            failing_read: *failing_read,
            failing_write: *failing_write,
        };
        let (found, sink) = call.made(&rt, alloc)?;
        let written = sink.bytes().as_slice();
        assert_eq!(rt; found, *status);
        assert!(rt; written.len() == *length && text.starts_with(written));
    }
    Ok(())
}
