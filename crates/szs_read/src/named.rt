//! Lines that end with the name of the problem.
ghost use Rattle.std.specs.Prelude.{◌≡◌, ◌+◌, ◌<◌, ◌^◌, ◌↔◌, ◌++◌, ℕ, List, codes, length, IsTrue, IsFalse, IfSome, IfNone};
ghost use Rattle.szs_print.specs.Printable.{IsName};
ghost use Rattle.szs_read.specs.Reads.{IsNamed};

use crate::lines::Lines;
use szs_print::MAX_NAME_BYTES;

/// Whether these bytes are a name: 1 to `MAX_NAME_BYTES` from 33 to 126.
fn is_name(bytes: &[u8]) -> bool
    ensures { IsTrue result ↔ IsName bytes.now }
{
    1 <= bytes.len()
        && bytes.len() <= MAX_NAME_BYTES
        && bytes.iter().all(|byte| 33 <= *byte && *byte <= 126)
}

/// The name in a line that begins with the head.
pub(crate) fn named<'a>(line: &'a [u8], head: &[u8]) -> Option<&'a [u8]>
    ensures some { IfSome result (λ name. IsNamed line.now head.now name.now) }
    ensures none { IfNone result ((name : List ℕ) → IsNamed line.now head.now name → ⊥) }
{
    let rest = line.strip_prefix(head)?;
    let name = rest.strip_suffix(b"\n".as_slice())?;
    if is_name(name) { Some(name) } else { None }
}

/// Whether the line is the head and the name.
pub(crate) fn is_named(line: &[u8], head: &[u8], name: &[u8]) -> bool
    ensures named { IsTrue result → IsNamed line.now head.now name.now }
    ensures other { IsFalse result → IsNamed line.now head.now name.now → ⊥ }
{
    named(line, head) == Some(name)
}

impl<'a> Lines<'a> {
    ghost use Rattle.std.specs.Prelude.{◌≡◌, ◌+◌, ◌<◌, ◌≤◌, ◌^◌, ◌++◌, ℕ, List, [], ◌∷◌, codes, length, IsTrue, IsFalse, IfSome, IfNone};
    ghost use Rattle.tptp_tokens.specs.Gaps.{IsOneLine};
    ghost use Rattle.szs_print.specs.Printable.{IsName};
    ghost use Rattle.szs_read.specs.Passes.{ArePassed};

    /// Passes the next line, if it is the head and a name, and gives the name.
    pub(crate) fn take_named(&mut self, head: &[u8]) -> Option<&'a [u8]>
        requires room { self.old.passed + length self.old.rest.now < 2 ^ 32 }
        ensures named { IfSome result (λ name. IsName name.now) }
        ensures parts { IfSome result (λ name. self.old.rest.now ≡ (head.now ++ name.now ++ codes "\n") ++ self.new.rest.now) }
        ensures one { IfSome result (λ name. IsOneLine head.now → ArePassed self.old self.new ((head.now ++ name.now ++ codes "\n") ∷ [])) }
        ensures none { IfNone result ((name rest : List ℕ) → IsOneLine head.now → IsName name → self.old.rest.now ≡ (head.now ++ name ++ codes "\n") ++ rest → ⊥) }
        ensures unchanged { IfNone result (self.new ≡ self.old) }
        ensures same { IfNone result (self.new.rest.now ≡ self.old.rest.now) }
        ensures fewer { self.new.passed + length self.new.rest.now ≤ self.old.passed + length self.old.rest.now }
        ensures shorter { length self.new.rest.now ≤ length self.old.rest.now }
    {
        let line = self.first()?;
        let name = named(line, head)?;
        self.pass(line);
        Some(name)
    }

    /// Passes the next line, if it is the head and the name.
    pub(crate) fn pass_named(&mut self, head: &[u8], name: &[u8]) -> bool
        requires room { self.old.passed + length self.old.rest.now < 2 ^ 32 }
        ensures parts { IsTrue result → self.old.rest.now ≡ (head.now ++ name.now ++ codes "\n") ++ self.new.rest.now }
        ensures one { IsTrue result → IsOneLine head.now → ArePassed self.old self.new ((head.now ++ name.now ++ codes "\n") ∷ []) }
        ensures other { IsFalse result → (rest : List ℕ) → IsOneLine head.now → IsName name.now → self.old.rest.now ≡ (head.now ++ name.now ++ codes "\n") ++ rest → ⊥ }
        ensures unchanged { IsFalse result → self.new ≡ self.old }
        ensures fewer { self.new.passed + length self.new.rest.now ≤ self.old.passed + length self.old.rest.now }
        ensures shorter { length self.new.rest.now ≤ length self.old.rest.now }
    {
        let Some(line) = self.first() else {
            return false;
        };
        if !is_named(line, head, name) {
            return false;
        }
        self.pass(line);
        true
    }
}
