//! The lines of a text, one after another.

ghost use Rattle.std.specs.Prelude.{◌≡◌, ◌+◌, ◌≤◌, ◌<◌, ◌^◌, ◌++◌, length, take, IsTrue, IfSome};

/// What is left of a text, and how many of its lines were passed.
#[derive(Drop)]
pub(crate) struct Lines<'a> {
    rest: &'a [u8],
    passed: u32,
}

impl<'a> Lines<'a> {
    ghost use Rattle.std.specs.Prelude.{◌≡◌, ◌+◌, ◌≤◌, ◌<◌, ◌^◌, ◌++◌, ℕ, List, [], length, take, IsTrue, IsFalse, IfSome, IfNone};
    ghost use Rattle.szs_read.specs.Passes.{IsLine};

    pub(crate) fn new(bytes: &'a [u8]) -> Self
        ensures { (result.rest.now ≡ bytes.now) × (result.passed ≡ 0) }
    {
        Lines {
            rest: bytes,
            passed: 0,
        }
    }

    /// The next line, up to and with its line feed. There is none where no line feed is left.
    pub(crate) fn first(&self) -> Option<&'a [u8]>
        ensures front { IfSome result (λ line. take (length line.now) self.now.rest.now ≡ line.now) }
        ensures line { IfSome result (λ line. IsLine line.now) }
        ensures none { IfNone result ((line rest : List ℕ) → IsLine line → self.now.rest.now ≡ line ++ rest → ⊥) }
        ensures some { IfSome result (λ line. (1 ≤ length line.now) × (length line.now ≤ length self.now.rest.now)) }
    {
        let rest = self.rest;
        'bytes: for k in 0..rest.len() {
            if rest[k] == b'\n' {
                return Some(&rest[..k + 1]);
            }
        }
        None
    }

    /// Passes the line, which comes next.
    pub(crate) fn pass(&mut self, line: &[u8])
        requires front { take (length line.now) self.old.rest.now ≡ line.now }
        requires some { (1 ≤ length line.now) × (length line.now ≤ length self.old.rest.now) }
        requires room { self.old.passed + length self.old.rest.now < 2 ^ 32 }
        ensures parts { self.old.rest.now ≡ line.now ++ self.new.rest.now }
        ensures passed { self.new.passed ≡ self.old.passed + 1 }
    {
        let rest = self.rest;
        self.rest = &rest[line.len()..];
        self.passed += 1;
    }

    /// Nothing is left.
    pub(crate) fn is_at_end(&self) -> bool
        ensures empty { IsTrue result → self.now.rest.now ≡ [] }
        ensures some { IsFalse result → self.now.rest.now ≡ [] → ⊥ }
    {
        self.rest.is_empty()
    }

    /// How many lines were passed.
    pub(crate) fn passed(&self) -> u32
        ensures { result ≡ self.now.passed }
    {
        self.passed
    }
}
