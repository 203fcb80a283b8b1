//! The line that parts a problem from the answer behind it.
ghost use Rattle.std.specs.Prelude.{◌≡◌, ◌++◌, ◌∷◌, ◌<◌, length, codes, IsTrue, ◌↔◌};
ghost use Rattle.szs_read.specs.Lines.{lines};
ghost use Rattle.answer_check.specs.Marks.{answer_bytes, is_mark, problem_bytes};

/// The first line, with the line feed that ends it, and what follows.
fn split_line(bytes: &[u8]) -> (&[u8], &[u8])
    requires { 0 < length bytes.now }
    ensures cut { lines bytes.now ≡ result.0.now ∷ lines result.1.now }
    ensures whole { bytes.now ≡ result.0.now ++ result.1.now }
    ensures some { 0 < length result.0.now }
{
    for k in 0..bytes.len() {
        if bytes[k] == b'\n' {
            return bytes.split_at(k + 1);
        }
    }
    bytes.split_at(bytes.len())
}

/// Whether the line is the one behind which an answer stands.
fn is_mark_line(line: &[u8]) -> bool
    ensures { result ≡ is_mark line.now }
{
    line == b"% ANSWER\n".as_slice() || line == b"% ANSWER".as_slice()
}

/// What stands before the first such line and what stands behind it, or all bytes and none.
pub(crate) fn part(input: &[u8]) -> (&[u8], &[u8])
    ensures problem { result.0.now ≡ problem_bytes input.now }
    ensures answer { result.1.now ≡ answer_bytes input.now }
{
    let mut at = 0;
    while at < input.len() {
        let (line, rest) = split_line(&input[at..]);
        if is_mark_line(line) {
            return (&input[..at], rest);
        }
        at = input.len() - rest.len();
    }
    input.split_at(input.len())
}
