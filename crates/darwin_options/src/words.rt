//! The words of a call.
ghost use Rattle.std.specs.Prelude.{◌≡◌, IfErr, IfOk};
ghost use Rattle.darwin_options.specs.AcceptedWords.{AreAccepted, Asks};
ghost use Rattle.darwin_options.specs.Ranges.{IsInRange};

use crate::command::matches_in;
use crate::error::WordsError;
use crate::options::Options;
use crate::values::options_in;
use std::alloc::Global;
/// The options that the words ask for, of which the first is the program's name.
pub fn read_words(alloc: Global, words: &Vec<String>) -> Result<Options, WordsError>
    ensures asked { IfOk result (λ options. Asks words.now.items options) }
    ensures in_range { IfOk result IsInRange }
    ensures usage { IfErr result (λ e. e ≡ WordsError.Usage → ¬ AreAccepted words.now.items) }
{
    let matches = matches_in(alloc, words.as_slice())?;
    options_in(alloc, &matches)
}
