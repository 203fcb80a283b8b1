//! Where included files come from.
ghost use Rattle.std.specs.Prelude.{◌≡◌, ◌≤◌, ℕ, List, Option, length, IfOk, IfSome, IsErrOf};
ghost use Rattle.me_io.specs.Source.{Rose};
ghost use Rattle.me_io.specs.declared.source.TheConstants.{MAX_BYTES};
ghost use Rattle.tptp_include.specs.Files.{FileValue, bytes_named};

use crate::error::FindError;
use me_terms::Text;
use std::alloc::Global;

/// What holds files, each of at most `MAX_BYTES` bytes, by their names.
pub trait Library {
    ghost use Rattle.tptp_include.specs.Views.{bytes_of};

    /// The files that it holds, where it tells them.
    ghost held: { Self → Option (List FileValue) };

    /// How many calls failed so far. It never falls, and may stop at the last number of a u64.
    ghost faults: { Self → ℕ };

    /// The bytes of the file of this name, if the library holds one. It holds the same files afterwards, whatever it
    /// answers.
    fn find(&mut self, alloc: Global, name: &Text) -> Result<Option<Text>, FindError>
        ensures found { IfSome (held self.old) (λ files. IfOk result (λ answer. bytes_of answer ≡ bytes_named files name.now.items)) }
        ensures size { IfOk result (λ answer. IfSome answer (λ bytes. length bytes.items ≤ MAX_BYTES)) }
        ensures same { held self.new ≡ held self.old }
        ensures later { faults self.old ≤ faults self.new }
        ensures fault { IsErrOf result FindError.Failed → Rose (faults self.old) (faults self.new) };
}
